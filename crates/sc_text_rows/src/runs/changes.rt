//! Whose place the amendments of a journal changed, in the worked markets.
use super::notices::{CLOSED_AND_FREE, HEADERS};
use super::{Files, MARKET_B_FILES, expect_below, opening, seed, told};
use crate::comparing::same_in;
use sc_papers::Seed;
use sc_report::Watched;
use sc_runs::{changes_files, read_since};
use std::alloc::{AllocError, Global};
use std::process::Abort;

/// What telling whose place a journal changed after its first lines, so many, writes, and its answer.
fn changed(
    alloc: Global,
    seed: &Seed,
    files: Files,
    journal: &'static str,
    since: u32,
) -> Result<String, AllocError> {
    let mut out = Watched::new(Vec::new(alloc));
    let mut journal = Watched::new(journal.as_bytes());
    let mut files = opening(files);
    let answer = changes_files(alloc, seed, &mut files, &mut journal, since, &mut out);
    told(alloc, out.inner().as_slice(), &answer)
}

/// Files, a journal and how many lines of it went before, and below the header what is written and answered.
type ChangedRow = (Files, &'static str, u32, &'static str);

/// The files and the journals have these changes and answers.
fn expect_changes(rt: &impl Abort, alloc: Global, header: &str, table: &[ChangedRow]) {
    let seed = seed(rt);
    for (files, journal, since, want) in table {
        let left = changed(alloc, &seed, *files, *journal, *since);
        expect_below(rt, left, header, want);
    }
}

const CHANGES_HEADER: &str = "student,before,after\n";

/// A newcomer comes, and leaves.
const BOTH_WAYS: &str = "1,enter,3,1,10,10\n2,withdraw,3\n";

const CHANGES: &[ChangedRow] = &[
    (HEADERS, "", 0, "|Ok(Written { tail: Whole })"),
    (
        MARKET_B_FILES,
        "1,enter,3,1,10,10\n",
        0,
        "1,10,20\n2,20,-\n3,absent,10\n|Ok(Written { tail: Whole })",
    ),
    (
        MARKET_B_FILES,
        BOTH_WAYS,
        1,
        "1,20,10\n2,-,20\n3,10,absent\n|Ok(Written { tail: Whole })",
    ),
    (MARKET_B_FILES, BOTH_WAYS, 0, "|Ok(Written { tail: Whole })"),
    (MARKET_B_FILES, BOTH_WAYS, 2, "|Ok(Written { tail: Whole })"),
    (
        MARKET_B_FILES,
        "1,enter,3,1,10,10\n2,wi",
        0,
        "1,10,20\n2,20,-\n3,absent,10\n|Ok(Written { tail: Torn })",
    ),
    (
        MARKET_B_FILES,
        "1,enter,3,1,10,10\n2,wi",
        1,
        "|Ok(Written { tail: Torn })",
    ),
    // The students entered as 3, 2, 1.
    (
        CLOSED_AND_FREE,
        "1,add,10,1\n",
        0,
        "3,-,10\n|Ok(Written { tail: Whole })",
    ),
    (
        CLOSED_AND_FREE,
        "1,add,10,2\n2,withdraw,2\n3,enter,6,0,,10\n",
        0,
        "1,20,10\n2,20,absent\n3,-,10\n6,absent,-\n|Ok(Written { tail: Whole })",
    ),
    (
        CLOSED_AND_FREE,
        "1,add,10,2\n2,withdraw,2\n3,enter,6,0,,10\n",
        1,
        "2,20,absent\n6,absent,-\n|Ok(Written { tail: Whole })",
    ),
];

#[test]
fn changes(rt: HostRuntime) {
    expect_changes(&rt, rt.alloc(), CHANGES_HEADER, CHANGES);
}

const UNCHANGED: &[ChangedRow] = &[
    (MARKET_B_FILES, "", 1, "|Ok(NoLine { line: 1 })"),
    (MARKET_B_FILES, BOTH_WAYS, 3, "|Ok(NoLine { line: 3 })"),
    (
        MARKET_B_FILES,
        BOTH_WAYS,
        999_999_999,
        "|Ok(NoLine { line: 999999999 })",
    ),
    // A torn line is none.
    (
        MARKET_B_FILES,
        "1,enter,3,1,10,10\n2,wi",
        2,
        "|Ok(NoLine { line: 2 })",
    ),
    // A fault of the journal is told before a line that it has not.
    (
        MARKET_B_FILES,
        "1,withdraw,3\n",
        2,
        "|Err(Journal(JournalFault { line: 1, cause: Refused(UnknownStudent) }))",
    ),
    (
        MARKET_B_FILES,
        "1,withdraw,3\n2,x\n",
        1,
        "|Err(Journal(JournalFault { line: 1, cause: Refused(UnknownStudent) }))",
    ),
    (
        MARKET_B_FILES,
        "1,enter,3,1,10,10\n2,x\n",
        1,
        "|Err(Journal(JournalFault { line: 2, cause: Shape }))",
    ),
];

#[test]
fn nothing_of_lines_that_are_not_there(rt: HostRuntime) {
    expect_changes(&rt, rt.alloc(), "", UNCHANGED);
}

/// Texts, and how many lines each says.
const SAID: &[(&str, Option<u32>)] = &[
    ("0", Some(0)),
    ("000000007", Some(7)),
    ("999999999", Some(999_999_999)),
    ("", None),
    ("0000000001", None),
    ("1000000000", None),
    ("-1", None),
    (" 1", None),
    ("x", None),
];

#[test]
fn lines_said_by_texts(rt: HostRuntime) {
    for (text, want) in SAID {
        let found = read_since(text.as_bytes());
        same_in(&rt, &found, want, text);
    }
}
