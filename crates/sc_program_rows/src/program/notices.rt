//! Summaries, explanations, lists of schools, and changes of places.
use super::{expect, ordered, ordered_after, ordering, performed, remove, write, write_files};
use sc_words::Word;
use std::io;

/// The summary of Market B.
const SUMMARY: &str =
    "rank,students\n1,2\n-,0\nschool,seats,held,free,listed\n10,1,1,0,2\n20,1,1,0,2\n";

/// Journals over Market B, and the summary and the end of the call after each.
const SUMMARIES: &[(&str, &str, &str)] = &[
    ("", SUMMARY, "0"),
    (
        "1,enter,3,1,10,10\n2,withdraw,3",
        "rank,students\n1,1\n2,1\n-,1\nschool,seats,held,free,listed\n10,1,1,0,3\n20,1,1,0,2\n",
        "clearinghouse: journal torn\n0",
    ),
    (
        "1,enter,3,1,10,10\n2,withdraw,9\n",
        "",
        "clearinghouse: journal line 2: Refused 2 UnknownStudent\n3",
    ),
];

#[test]
fn a_summary(rt: HostRuntime) {
    write_files(&rt);
    remove(&rt, "kept");
    expect(&rt, ordered(&rt, "summary", &[]), SUMMARY, "0");
    let kept = &["--journal", "kept"];
    let absent = "clearinghouse: cannot read journal\n4";
    expect(&rt, ordered(&rt, "summary", kept), "", absent);
    for (journal, summary, end) in SUMMARIES {
        let told = ordered_after(&rt, ("kept", journal), "summary", kept);
        expect(&rt, told, summary, end);
    }
}

/// The line above what came of each choice.
const EXPLAINED_HEADER: &str =
    "student,rank,school,class,draw,lottery_rank,cutoff,cutoff_draw,cutoff_student,cutoff_lottery_rank,outcome\n";

/// What came of student 1's choices in Market B with its newcomer.
const EXPLAINED: &str =
    "student,rank,school,class,draw,lottery_rank,cutoff,cutoff_draw,cutoff_student,cutoff_lottery_rank,outcome\n1,1,10,4,e56a5d4028bd8653,3,1,ccef36a8c70d778b,3,2,class\n1,2,20,2,e56a5d4028bd8653,3,2,e56a5d4028bd8653,1,3,given\n";

/// Options of a call that explains Market B after a journal, what it writes, and its end.
const EXPLANATIONS: &[(&[&str], &str, &str)] = &[
    (
        &["--student", "01"],
        EXPLAINED,
        "clearinghouse: journal torn\n0",
    ),
    (
        &["--student=9"],
        "",
        "clearinghouse: explain: UnknownStudent 9\n3",
    ),
    (&["--student=0"], "", "clearinghouse: student: Number\n2"),
    (&["--student=me"], "", "clearinghouse: student: Number\n2"),
    (&["--student="], "", "clearinghouse: student: Number\n2"),
];

#[test]
fn an_explanation(rt: HostRuntime) {
    write_files(&rt);
    let whole =
        "1,1,10,4,e56a5d4028bd8653,2,4,e56a5d4028bd8653,1,2,given\n1,2,20,2,e56a5d4028bd8653,2,4,b819d2bd1aed8da0,2,1,later\n2,1,20,4,b819d2bd1aed8da0,1,4,b819d2bd1aed8da0,2,1,given\n2,2,10,2,b819d2bd1aed8da0,1,4,e56a5d4028bd8653,1,2,later\n0";
    expect(&rt, ordered(&rt, "explain", &[]), EXPLAINED_HEADER, whole);
    let absent = ordered(&rt, "explain", &["--journal", "kept", "--student", "x"]);
    expect(&rt, absent, "", "clearinghouse: student: Number\n2");
    write(&rt, "kept", "1,enter,3,1,10,10\n2,withdraw,3");
    for (options, text, end) in EXPLANATIONS {
        let told = after_kept(&rt, "explain", options);
        expect(&rt, told, text, end);
    }
}

/// What a subcommand does over Market B after the journal `kept`, with other options.
fn after_kept(rt: &HostRuntime, subcommand: &str, options: &[&str]) -> io::Result<String> {
    let mut words = ordering(rt.alloc(), subcommand, "schools", options)?;
    words.push(Word::from_text(String::from_str(rt.alloc(), "--journal=kept")?))?;
    performed(rt, words.as_slice(), "")
}

/// The class list and the waiting list of school 20 in Market B with its newcomer.
const ADMISSIONS: &str =
    "school,rank,student,class,draw,status\n20,1,1,2,e56a5d4028bd8653,admitted\n20,1,2,4,b819d2bd1aed8da0,waiting\n";

/// Options of a call that lists whom schools admit in Market B after a journal, what it writes, and its end.
const LISTS: &[(&[&str], &str, &str)] = &[
    (
        &["--school", "020"],
        ADMISSIONS,
        "clearinghouse: journal torn\n0",
    ),
    (
        &["--school=30"],
        "",
        "clearinghouse: admissions: UnknownSchool 30\n3",
    ),
    (&["--school=0"], "", "clearinghouse: school: Number\n2"),
    (&["--school=100000"], "", "clearinghouse: school: Number\n2"),
    (&["--school=us"], "", "clearinghouse: school: Number\n2"),
];

#[test]
fn class_lists_and_waiting_lists(rt: HostRuntime) {
    write_files(&rt);
    remove(&rt, "kept");
    let header = "school,rank,student,class,draw,status\n";
    let whole = "10,1,1,4,e56a5d4028bd8653,admitted\n20,1,2,4,b819d2bd1aed8da0,admitted\n0";
    expect(&rt, ordered(&rt, "admissions", &[]), header, whole);
    let absent = ordered(&rt, "admissions", &["--journal", "kept", "--school", "x"]);
    expect(&rt, absent, "", "clearinghouse: school: Number\n2");
    write(&rt, "kept", "1,enter,3,1,10,10\n2,withdraw,3");
    for (options, text, end) in LISTS {
        let told = after_kept(&rt, "admissions", options);
        expect(&rt, told, text, end);
    }
}

/// Whose place a newcomer changes in Market B.
const CHANGES: &str = "student,before,after\n1,10,20\n2,20,-\n3,absent,10\n";

/// Options of a call that tells whose place a journal changed in Market B, what it writes, and its end.
const CHANGED: &[(&[&str], &str, &str)] = &[
    (&[], CHANGES, "clearinghouse: journal torn\n0"),
    (
        &["--since", "00"],
        CHANGES,
        "clearinghouse: journal torn\n0",
    ),
    (
        &["--since=1"],
        "student,before,after\n",
        "clearinghouse: journal torn\n0",
    ),
    (&["--since=2"], "", "clearinghouse: changes: NoLine 2\n3"),
    (&["--since="], "", "clearinghouse: since: Number\n2"),
    (
        &["--since=1000000000"],
        "",
        "clearinghouse: since: Number\n2",
    ),
    (&["--since=us"], "", "clearinghouse: since: Number\n2"),
];

#[test]
fn whose_place_changed(rt: HostRuntime) {
    write_files(&rt);
    remove(&rt, "kept");
    let absent = ordered(&rt, "changes", &["--journal", "kept", "--since", "x"]);
    expect(&rt, absent, "", "clearinghouse: since: Number\n2");
    let missing = ordered(&rt, "changes", &["--journal", "kept"]);
    expect(&rt, missing, "", "clearinghouse: cannot read journal\n4");
    write(&rt, "kept", "1,enter,3,1,10,10\n2,withdraw,3");
    for (options, text, end) in CHANGED {
        let told = after_kept(&rt, "changes", options);
        expect(&rt, told, text, end);
    }
}
