//! Whom schools admit and who waits for them, in the worked markets.
use super::notices::{CLOSED_AND_FREE, CONTINUING, HEADERS, ONE_SEAT};
use super::{Files, MARKET_B_FILES, expect_below, opening, seed, told, watched};
use crate::comparing::same_in;
use sc_papers::{SchoolNo, Seed};
use sc_report::Watched;
use sc_runs::{admissions_files, read_school};
use std::alloc::{AllocError, Global};
use std::process::Abort;

/// What listing whom a school admits, or each, writes after a journal, if there is one, and its answer.
fn listed(
    alloc: Global,
    seed: &Seed,
    files: Files,
    journal: Option<&'static str>,
    school: Option<SchoolNo>,
) -> Result<String, AllocError> {
    let mut out = Watched::new(Vec::new(alloc));
    let mut journal = watched(journal);
    let mut files = opening(files);
    let answer = admissions_files(alloc, seed, &mut files, &mut journal, school, &mut out);
    told(alloc, out.inner().as_slice(), &answer)
}

/// Files, a journal and a school's number, if there are any, and below the header what is written and answered.
type ListedRow = (Files, Option<&'static str>, Option<u32>, &'static str);

/// The school of a number, if there is one.
fn school_of(rt: &impl Abort, number: Option<u32>) -> Option<SchoolNo> {
    Some(SchoolNo::new(number?).expect(rt, "a school"))
}

/// The files, the journals and the schools have these lists and answers.
fn expect_lists(rt: &impl Abort, alloc: Global, header: &str, table: &[ListedRow]) {
    let seed = seed(rt);
    for (files, journal, school, want) in table {
        let left = listed(alloc, &seed, *files, *journal, school_of(rt, *school));
        expect_below(rt, left, header, want);
    }
}

const LISTS_HEADER: &str = "school,rank,student,class,draw,status\n";

const LISTS: &[ListedRow] = &[
    (HEADERS, None, None, "|Ok(Written { tail: Whole })"),
    (
        MARKET_B_FILES,
        None,
        None,
        "10,1,1,4,e56a5d4028bd8653,admitted\n20,1,2,4,b819d2bd1aed8da0,admitted\n|Ok(Written { tail: Whole })",
    ),
    (
        MARKET_B_FILES,
        Some("1,enter,3,1,10,10\n2,wi"),
        None,
        "10,1,3,1,ccef36a8c70d778b,admitted\n10,1,2,2,b819d2bd1aed8da0,waiting\n10,2,1,4,e56a5d4028bd8653,waiting\n20,1,1,2,e56a5d4028bd8653,admitted\n20,1,2,4,b819d2bd1aed8da0,waiting\n|Ok(Written { tail: Torn })",
    ),
    (
        MARKET_B_FILES,
        Some("1,enter,3,1,10,10\n"),
        Some(20),
        "20,1,1,2,e56a5d4028bd8653,admitted\n20,1,2,4,b819d2bd1aed8da0,waiting\n|Ok(Written { tail: Whole })",
    ),
    (
        ONE_SEAT,
        None,
        None,
        "10,1,2,4,b819d2bd1aed8da0,admitted\n10,1,1,4,e56a5d4028bd8653,waiting\n|Ok(Written { tail: Whole })",
    ),
    (
        CONTINUING,
        None,
        Some(10),
        "10,1,2,0,b819d2bd1aed8da0,admitted\n10,1,1,3,e56a5d4028bd8653,waiting\n|Ok(Written { tail: Whole })",
    ),
    (
        CLOSED_AND_FREE,
        None,
        None,
        "10,1,3,4,ccef36a8c70d778b,waiting\n10,2,1,4,e56a5d4028bd8653,waiting\n20,1,2,4,b819d2bd1aed8da0,admitted\n20,2,1,4,e56a5d4028bd8653,admitted\n|Ok(Written { tail: Whole })",
    ),
];

#[test]
fn lists(rt: HostRuntime) {
    expect_lists(&rt, rt.alloc(), LISTS_HEADER, LISTS);
}

const UNLISTED: &[ListedRow] = &[
    (
        MARKET_B_FILES,
        None,
        Some(30),
        "|Ok(UnknownSchool { school: SchoolNo { number: 30 } })",
    ),
    (
        MARKET_B_FILES,
        Some("1,withdraw,3\n"),
        Some(30),
        "|Err(Journal(JournalFault { line: 1, cause: Refused(UnknownStudent) }))",
    ),
];

#[test]
fn nothing_of_unknown_schools(rt: HostRuntime) {
    expect_lists(&rt, rt.alloc(), "", UNLISTED);
}

/// Texts, and the number of the school that each names.
const NAMED: &[(&str, Option<u32>)] = &[
    ("1", Some(1)),
    ("000000007", Some(7)),
    ("99999", Some(99_999)),
    ("", None),
    ("0", None),
    ("100000", None),
    ("0000000001", None),
    ("-1", None),
    ("x", None),
];

/// The number of the school that a text names, if it names one.
fn named(text: &str) -> Option<u32> {
    Some(read_school(text.as_bytes())?.get())
}

#[test]
fn schools_named_by_texts(rt: HostRuntime) {
    for (text, want) in NAMED {
        let found = named(text);
        same_in(&rt, &found, want, text);
    }
}
