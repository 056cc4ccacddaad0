//! Matches, their logs and audits, and tables of their reports.
use super::{NEWCOMER, REPORT, expect, ordered, ordered_after, write, write_files};

/// Logs of Market B after its newcomer, and what an audit says of each.
const AUDITS: &[(&str, &str)] = &[
    ("1,10\n2,20\n2,10\n", "certified\n0"),
    ("2,10\n1,10\n2,20\n", "bad entry 1\n1"),
    ("1,10\n2,10\n2,20\n", "bad entry 2\n1"),
    ("", "over 10\n1"),
    ("1,10\n9,10\n", "bad entry 2\n1"),
    ("1\n", "clearinghouse: log row 1: Fields\n3"),
];

#[test]
fn a_match_and_its_log(rt: HostRuntime) {
    write_files(&rt);
    expect(&rt, ordered(&rt, "match", &[]), REPORT, "0");
    write(
        &rt,
        "roster",
        "student,zone,siblings\n1,0,20\n2,0,10\n3,1,10\n",
    );
    write(&rt, "lists", "student,choices\n1,10 20\n2,20 10\n3,10\n");
    let log = ordered(&rt, "match", &["--print-log"]);
    expect(&rt, log, "", "1,10\n2,20\n2,10\n0");
    for (log, want) in AUDITS {
        let told = ordered_after(&rt, ("log", log), "audit", &["--log", "log"]);
        expect(&rt, told, "", want);
    }
}

// The report of Market B after its newcomer is certified beside its log, another one is not, and one that is not there
// cannot be read.
#[test]
fn published_reports(rt: HostRuntime) {
    write(&rt, "schools", "school,zone,seats\n10,1,1\n20,0,1\n");
    write(
        &rt,
        "roster",
        "student,zone,siblings\n1,0,20\n2,0,10\n3,1,10\n",
    );
    write(&rt, "lists", "student,choices\n1,10 20\n2,20 10\n3,10\n");
    write(&rt, "log", "1,10\n2,20\n2,10\n");
    let options = &["--log", "log", "--report", "report"];
    let absent = ordered(&rt, "audit", options);
    expect(&rt, absent, "", "clearinghouse: cannot read report\n4");
    let right = ordered_after(&rt, ("report", NEWCOMER), "audit", options);
    expect(&rt, right, "", "certified\n0");
    let wrong = ordered_after(&rt, ("report", REPORT), "audit", options);
    expect(&rt, wrong, "", "report differs 2\n1");
}

/// Words after those of a match or a replay of Market B, and what is told.
const TABLES: &[(&str, &[&str], &str)] = &[
    (
        "match",
        &["--table", "assignment"],
        "student,school\n1,10\n2,20\n0",
    ),
    (
        "replay",
        &["--table=assignment", "--journal", "journal"],
        "student,school\n1,20\n2,-\n3,10\n0",
    ),
    (
        "match",
        &["--table", "Assignment"],
        "clearinghouse: table: Name\n2",
    ),
    (
        "replay",
        &["--table", "", "--journal", "absent"],
        "clearinghouse: table: Name\n2",
    ),
    (
        "match",
        &["--table", "cutoffs", "--print-log"],
        "clearinghouse: table: Log\n2",
    ),
];

#[test]
fn tables_of_a_report(rt: HostRuntime) {
    write_files(&rt);
    write(&rt, "journal", "1,enter,3,1,10,10\n");
    for (subcommand, options, want) in TABLES {
        expect(&rt, ordered(&rt, subcommand, options), "", want);
    }
    let torn = "student,school\n1,20\n2,-\n3,10\nclearinghouse: journal torn\n0";
    let journal = ("journal", "1,enter,3,1,10,10\n2,withdraw,3");
    let options = &["--table=assignment", "--journal", "journal"];
    expect(
        &rt,
        ordered_after(&rt, journal, "replay", options),
        "",
        torn,
    );
}
