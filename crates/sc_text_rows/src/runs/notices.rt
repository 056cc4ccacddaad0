//! What is told of papers as they stand, in the worked markets.
use super::{Files, MARKET_B_FILES, expect_below, expect_left, opening, seed, told, watched};
use crate::comparing::same_in;
use sc_papers::{Seed, StudentNo};
use sc_report::Watched;
use sc_runs::{explain_files, read_student, summary_files};
use std::alloc::{AllocError, Global};
use std::process::Abort;

/// What the summary of files and a journal, if there is one, writes, and its answer.
fn summed(
    alloc: Global,
    seed: &Seed,
    files: Files,
    journal: Option<&'static str>,
) -> Result<String, AllocError> {
    let mut out = Watched::new(Vec::new(alloc));
    let mut journal = watched(journal);
    let answer = summary_files(alloc, seed, &mut opening(files), &mut journal, &mut out);
    told(alloc, out.inner().as_slice(), &answer)
}

/// The files and the journals have these summaries and answers.
fn expect_summaries(rt: &impl Abort, alloc: Global, table: &[(Files, Option<&'static str>, &str)]) {
    let seed = seed(rt);
    for (files, journal, want) in table {
        expect_left(rt, summed(alloc, &seed, *files, *journal), want);
    }
}

/// The headers of the three files alone.
pub(super) const HEADERS: Files = (
    "school,zone,seats\n",
    "student,zone,siblings\n",
    "student,choices\n",
);

/// Market A as files.
const MARKET_A_FILES: Files = (
    "school,zone,seats\n10,0,1\n20,0,1\n",
    "student,zone,siblings\n1,0,20\n2,0,10\n",
    "student,choices\n1,10 20\n2,20 10\n",
);

/// Two schools and three students that do not stand by number; school 10 has no seats, and school 20 more than it needs.
const OUT_OF_ORDER: Files = (
    "school,zone,seats\n20,0,3\n10,0,0\n",
    "student,zone,siblings\n7,0,\n2,0,\n1,0,\n",
    "student,choices\n1,10 20\n2,20\n7,10\n",
);

const SUMMARIES: &[(Files, Option<&'static str>, &str)] = &[
    (
        HEADERS,
        None,
        "rank,students\n-,0\nschool,seats,held,free,listed\n|Ok(Whole)",
    ),
    (
        MARKET_A_FILES,
        None,
        "rank,students\n1,2\n-,0\nschool,seats,held,free,listed\n10,1,1,0,2\n20,1,1,0,2\n|Ok(Whole)",
    ),
    (
        MARKET_A_FILES,
        Some(""),
        "rank,students\n1,2\n-,0\nschool,seats,held,free,listed\n10,1,1,0,2\n20,1,1,0,2\n|Ok(Whole)",
    ),
    (
        MARKET_A_FILES,
        Some("1,close,10,1\n"),
        "rank,students\n2,1\n-,1\nschool,seats,held,free,listed\n10,0,0,0,2\n20,1,1,0,2\n|Ok(Whole)",
    ),
    (
        MARKET_B_FILES,
        Some("1,enter,3,1,10,10\n2,wi"),
        "rank,students\n1,1\n2,1\n-,1\nschool,seats,held,free,listed\n10,1,1,0,3\n20,1,1,0,2\n|Ok(Torn)",
    ),
    (
        OUT_OF_ORDER,
        None,
        "rank,students\n1,1\n2,1\n-,1\nschool,seats,held,free,listed\n10,0,0,0,2\n20,3,2,1,2\n|Ok(Whole)",
    ),
];

#[test]
fn summaries(rt: HostRuntime) {
    expect_summaries(&rt, rt.alloc(), SUMMARIES);
}

/// What explaining the choices of a student, or of all, writes after a journal, if there is one, and its answer.
fn explained(
    alloc: Global,
    seed: &Seed,
    files: Files,
    journal: Option<&'static str>,
    student: Option<StudentNo>,
) -> Result<String, AllocError> {
    let mut out = Watched::new(Vec::new(alloc));
    let mut journal = watched(journal);
    let mut files = opening(files);
    let answer = explain_files(alloc, seed, &mut files, &mut journal, student, &mut out);
    told(alloc, out.inner().as_slice(), &answer)
}

/// Files, a journal and a student's number, if there are any, and below the header what is written and answered.
type ExplainedRow = (Files, Option<&'static str>, Option<u32>, &'static str);

/// The student of a number, if there is one.
fn student_of(rt: &impl Abort, number: Option<u32>) -> Option<StudentNo> {
    Some(StudentNo::new(number?).expect(rt, "a student"))
}

/// The files, the journals and the students have these explanations and answers.
fn expect_explanations(rt: &impl Abort, alloc: Global, header: &str, table: &[ExplainedRow]) {
    let seed = seed(rt);
    for (files, journal, student, want) in table {
        let left = explained(alloc, &seed, *files, *journal, student_of(rt, *student));
        expect_below(rt, left, header, want);
    }
}

const EXPLAINED_HEADER: &str =
    "student,rank,school,class,draw,lottery_rank,cutoff,cutoff_draw,cutoff_student,cutoff_lottery_rank,outcome\n";

/// One seat and two students who are alike.
pub(super) const ONE_SEAT: Files = (
    "school,zone,seats\n10,0,1\n",
    "student,zone,siblings\n1,0,\n2,0,\n",
    "student,choices\n1,10\n2,10\n",
);

/// One seat, a student who continues there, and one who lives in its zone.
pub(super) const CONTINUING: Files = (
    "school,zone,seats\n10,1,1\n",
    "student,zone,siblings,continuing\n1,1,,\n2,0,,10\n",
    "student,choices\n1,10\n2,10\n",
);

/// Three students who do not stand by number, a school without seats, and one with more than it needs.
pub(super) const CLOSED_AND_FREE: Files = (
    "school,zone,seats\n20,0,3\n10,0,0\n",
    "student,zone,siblings\n3,0,\n2,0,\n1,0,\n",
    "student,choices\n1,10 20\n2,20\n3,10\n",
);

const EXPLANATIONS: &[ExplainedRow] = &[
    (HEADERS, None, None, "|Ok(Written { tail: Whole })"),
    (
        MARKET_B_FILES,
        None,
        None,
        "1,1,10,4,e56a5d4028bd8653,2,4,e56a5d4028bd8653,1,2,given\n1,2,20,2,e56a5d4028bd8653,2,4,b819d2bd1aed8da0,2,1,later\n2,1,20,4,b819d2bd1aed8da0,1,4,b819d2bd1aed8da0,2,1,given\n2,2,10,2,b819d2bd1aed8da0,1,4,e56a5d4028bd8653,1,2,later\n|Ok(Written { tail: Whole })",
    ),
    (
        MARKET_B_FILES,
        Some("1,enter,3,1,10,10\n2,wi"),
        None,
        "1,1,10,4,e56a5d4028bd8653,3,1,ccef36a8c70d778b,3,2,class\n1,2,20,2,e56a5d4028bd8653,3,2,e56a5d4028bd8653,1,3,given\n2,1,20,4,b819d2bd1aed8da0,1,2,e56a5d4028bd8653,1,3,class\n2,2,10,2,b819d2bd1aed8da0,1,1,ccef36a8c70d778b,3,2,class\n3,1,10,1,ccef36a8c70d778b,2,1,ccef36a8c70d778b,3,2,given\n|Ok(Written { tail: Torn })",
    ),
    (
        MARKET_B_FILES,
        Some("1,enter,3,1,10,10\n"),
        Some(2),
        "2,1,20,4,b819d2bd1aed8da0,1,2,e56a5d4028bd8653,1,3,class\n2,2,10,2,b819d2bd1aed8da0,1,1,ccef36a8c70d778b,3,2,class\n|Ok(Written { tail: Whole })",
    ),
    (
        ONE_SEAT,
        None,
        None,
        "1,1,10,4,e56a5d4028bd8653,2,4,b819d2bd1aed8da0,2,1,lottery\n2,1,10,4,b819d2bd1aed8da0,1,4,b819d2bd1aed8da0,2,1,given\n|Ok(Written { tail: Whole })",
    ),
    (
        CONTINUING,
        None,
        None,
        "1,1,10,3,e56a5d4028bd8653,2,0,b819d2bd1aed8da0,2,1,class\n2,1,10,0,b819d2bd1aed8da0,1,0,b819d2bd1aed8da0,2,1,given\n|Ok(Written { tail: Whole })",
    ),
    (
        CLOSED_AND_FREE,
        None,
        None,
        "1,1,10,4,e56a5d4028bd8653,3,closed,-,-,,seats\n1,2,20,4,e56a5d4028bd8653,3,free,-,-,,given\n2,1,20,4,b819d2bd1aed8da0,1,free,-,-,,given\n3,1,10,4,ccef36a8c70d778b,2,closed,-,-,,seats\n|Ok(Written { tail: Whole })",
    ),
];

#[test]
fn explanations(rt: HostRuntime) {
    expect_explanations(&rt, rt.alloc(), EXPLAINED_HEADER, EXPLANATIONS);
}

const UNEXPLAINED: &[ExplainedRow] = &[
    (
        MARKET_B_FILES,
        None,
        Some(3),
        "|Ok(UnknownStudent { student: StudentNumber { number: 3 } })",
    ),
    (
        MARKET_B_FILES,
        Some("1,withdraw,1\n2,wi"),
        Some(1),
        "|Ok(UnknownStudent { student: StudentNumber { number: 1 } })",
    ),
    (
        MARKET_B_FILES,
        Some("1,withdraw,3\n"),
        Some(1),
        "|Err(Journal(JournalFault { line: 1, cause: Refused(UnknownStudent) }))",
    ),
    (
        MARKET_A_FILES,
        Some("1,withdraw,2"),
        Some(1),
        "student,rank,school,class,draw,lottery_rank,cutoff,cutoff_draw,cutoff_student,cutoff_lottery_rank,outcome\n1,1,10,4,e56a5d4028bd8653,2,4,e56a5d4028bd8653,1,2,given\n1,2,20,2,e56a5d4028bd8653,2,4,b819d2bd1aed8da0,2,1,later\n|Ok(Written { tail: Torn })",
    ),
];

#[test]
fn nothing_of_unknown_students(rt: HostRuntime) {
    expect_explanations(&rt, rt.alloc(), "", UNEXPLAINED);
}

/// Texts, and the number of the student whom each names.
const NAMED: &[(&str, Option<u32>)] = &[
    ("1", Some(1)),
    ("000000007", Some(7)),
    ("999999999", Some(999_999_999)),
    ("", None),
    ("0", None),
    ("000", None),
    ("1000000000", None),
    ("0000000001", None),
    ("+1", None),
    ("1 ", None),
    ("x", None),
];

/// The number of the student whom a text names, if it names one.
fn named(text: &str) -> Option<u32> {
    Some(read_student(text.as_bytes())?.get())
}

#[test]
fn students_named_by_texts(rt: HostRuntime) {
    for (text, want) in NAMED {
        let found = named(text);
        same_in(&rt, &found, want, text);
    }
}
