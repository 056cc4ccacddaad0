//! Reports that were published with a log, and tables of a report alone.
use super::{Files, MARKET_B_FILES, expect_left, opening, seed, told, watched};
use sc_papers::Seed;
use sc_report::Watched;
use sc_runs::{Table, audit_report_files, table_files, table_named};
use std::alloc::{AllocError, Global};
use std::process::Abort;

/// Market B with its newcomer in the files.
const NEWCOMER_FILES: Files = (
    "school,zone,seats\n10,1,1\n20,0,1\n",
    "student,zone,siblings\n1,0,20\n2,0,10\n3,1,10\n",
    "student,choices\n1,10 20\n2,20 10\n3,10\n",
);

/// Its log.
const LOG: &str = "1,10\n2,20\n2,10\n";

/// Logs, reports that were published with them, and what is found. The right report has 11 lines.
const PUBLISHED: &[(&str, &str, &str)] = &[
    (
        LOG,
        "student,school\n1,20\n2,-\n3,10\nschool,seats,held,class,draw,student\n10,1,1,1,ccef36a8c70d778b,3\n20,1,1,2,e56a5d4028bd8653,1\nstudent,school,reason\n1,10,class\n2,20,class\n2,10,class\n",
        "certified\n|Ok(Certified)",
    ),
    // Two students exchanged.
    (
        LOG,
        "student,school\n1,-\n2,20\n3,10\nschool,seats,held,class,draw,student\n10,1,1,1,ccef36a8c70d778b,3\n20,1,1,2,e56a5d4028bd8653,1\nstudent,school,reason\n1,10,class\n2,20,class\n2,10,class\n",
        "report differs 2\n|Ok(ReportDiffers { line: 2 })",
    ),
    // The reply of the run in front.
    (
        LOG,
        "1,ok\nstudent,school\n1,20\n2,-\n3,10\nschool,seats,held,class,draw,student\n10,1,1,1,ccef36a8c70d778b,3\n20,1,1,2,e56a5d4028bd8653,1\nstudent,school,reason\n1,10,class\n2,20,class\n2,10,class\n",
        "report differs 1\n|Ok(ReportDiffers { line: 1 })",
    ),
    // A line that is missing, one that ends too early, and one too many.
    (
        LOG,
        "student,school\n1,20\n2,-\n3,10\nschool,seats,held,class,draw,student\n10,1,1,1,ccef36a8c70d778b,3\n20,1,1,2,e56a5d4028bd8653,1\nstudent,school,reason\n1,10,class\n2,20,class\n",
        "report differs 11\n|Ok(ReportDiffers { line: 11 })",
    ),
    (
        LOG,
        "student,school\n1,20\n2,-\n3,10\nschool,seats,held,class,draw,student\n10,1,1,1,ccef36a8c70d778b,3\n20,1,1,2,e56a5d4028bd8653,1\nstudent,school,reason\n1,10,class\n2,20,class\n2,10,class",
        "report differs 11\n|Ok(ReportDiffers { line: 11 })",
    ),
    (
        LOG,
        "student,school\n1,20\n2,-\n3,10\nschool,seats,held,class,draw,student\n10,1,1,1,ccef36a8c70d778b,3\n20,1,1,2,e56a5d4028bd8653,1\nstudent,school,reason\n1,10,class\n2,20,class\n2,10,class\n\n",
        "report differs 12\n|Ok(ReportDiffers { line: 12 })",
    ),
    (LOG, "", "report differs 1\n|Ok(ReportDiffers { line: 1 })"),
    // Of a log that is not settled nothing is said of the report.
    (
        "2,10\n1,10\n2,20\n",
        "",
        "bad entry 1\n|Ok(BadEntry { line: 1 })",
    ),
    (
        "",
        "",
        "over 10\n|Ok(Over { school: SchoolNo { number: 10 } })",
    ),
];

/// What auditing a log and a report writes, and its answer.
fn audited(
    alloc: Global,
    seed: &Seed,
    log: &'static str,
    report: &'static str,
) -> Result<String, AllocError> {
    let mut out = Watched::new(Vec::new(alloc));
    let mut log = Watched::new(log.as_bytes());
    let mut report = Watched::new(report.as_bytes());
    let mut files = opening(NEWCOMER_FILES);
    let answer = audit_report_files(alloc, seed, &mut files, &mut log, &mut report, &mut out);
    told(alloc, out.inner().as_slice(), &answer)
}

/// The logs and reports are found to be so.
fn expect_findings(rt: &impl Abort, alloc: Global) {
    let seed = seed(rt);
    for (log, report, want) in PUBLISHED {
        expect_left(rt, audited(alloc, &seed, *log, *report), want);
    }
}

#[test]
fn published_reports(rt: HostRuntime) {
    expect_findings(&rt, rt.alloc());
}

/// Journals over Market B, if there is one, tables, and what is written of them.
const TABLES: &[(Option<&'static str>, &str, &str)] = &[
    (None, "assignment", "student,school\n1,10\n2,20\n|Ok(Whole)"),
    (
        None,
        "cutoffs",
        "school,seats,held,class,draw,student\n10,1,1,4,e56a5d4028bd8653,1\n20,1,1,4,b819d2bd1aed8da0,2\n|Ok(Whole)",
    ),
    (None, "reasons", "student,school,reason\n|Ok(Whole)"),
    (
        Some("1,enter,3,1,10,10\n2,"),
        "reasons",
        "student,school,reason\n1,10,class\n2,20,class\n2,10,class\n|Ok(Torn)",
    ),
];

/// What a table of Market B writes, and the answer.
fn tabulated(
    alloc: Global,
    seed: &Seed,
    journal: Option<&'static str>,
    table: Table,
) -> Result<String, AllocError> {
    let mut out = Watched::new(Vec::new(alloc));
    let mut journal = watched(journal);
    let mut files = opening(MARKET_B_FILES);
    let answer = table_files(alloc, seed, &mut files, &mut journal, table, &mut out);
    told(alloc, out.inner().as_slice(), &answer)
}

/// The tables are written so.
fn expect_tables(rt: &impl Abort, alloc: Global) {
    let seed = seed(rt);
    for (journal, name, want) in TABLES {
        let table = table_named(*name).expect(rt, "a table");
        expect_left(rt, tabulated(alloc, &seed, *journal, table), want);
    }
}

#[test]
fn tables_alone(rt: HostRuntime) {
    expect_tables(&rt, rt.alloc());
}
