//! Openings in a bundle, and the faults of bundles.
mod scripts;

use super::{ZEROS, expect_left};
use crate::comparing::expect_text;
use crate::markets::{MARKET_A, MARKET_B, Rows};
use sc_markets::{LISTS_A, SCHOOLS_B, roster_header};
use sc_report::Watched;
use sc_runs::{fault_line, run_bundle, status_of};
use std::alloc::{AllocError, Global};
use std::process::Abort;

const ZONE_FIRST: Rows = ("1,1,1\n", "1,1,\n2,0,\n", "1,1\n2,1\n");

const CONTINUING_FIRST: Rows = ("1,1,1\n", "1,1,,\n2,0,,1\n", "1,1\n2,1\n");

/// Market B with its student 2 continuing at school 10.
const MARKET_B_CONTINUING: Rows = (SCHOOLS_B, "1,0,20,\n2,0,10,10\n", LISTS_A);

const FREE_SEATS: Rows = ("10,0,2\n", "1,0,\n", "1,10\n");

const FIVE_STUDENTS: Rows = (
    "10,1,1\n20,0,2\n",
    "1,1,\n2,0,\n3,0,\n4,0,\n5,0,\n",
    "1,10 20\n2,10 20\n3,20\n4,20 10\n5,20\n",
);

/// The output up to the cutoffs: the reply lines and the assignment.
fn before_cutoffs(output: &str) -> &str {
    match output.split_once("school,seats,held,") {
        Some((before, _)) => before,
        None => output,
    }
}

/// What a bundle gives: the reply lines and the assignment, the fault line and the status.
fn told(alloc: Global, input: &str) -> Result<String, AllocError> {
    let mut output = Watched::new(Vec::new(alloc));
    let ending = run_bundle(alloc, &mut Watched::new(input.as_bytes()), &mut output);
    let status = status_of(&ending);
    let errors = fault_line(alloc, &ending)?;
    let errors = String::from_utf8_lossy(alloc, errors.as_slice())?;
    let output = String::from_utf8_lossy(alloc, output.inner().as_slice())?;
    let output = before_cutoffs(output.as_str());
    format!(in alloc; "{output}{errors}{status}")
}

/// All that a bundle writes.
fn written(alloc: Global, input: &str) -> Result<String, AllocError> {
    let mut output = Watched::new(Vec::new(alloc));
    let _ending = run_bundle(alloc, &mut Watched::new(input.as_bytes()), &mut output);
    let output = String::from_utf8_lossy(alloc, output.inner().as_slice())?;
    format!(in alloc; "{output}")
}

/// A bundle of rows under the zero seed.
fn bundle(alloc: Global, (schools, roster, lists): Rows) -> Result<String, AllocError> {
    let header = roster_header(roster);
    format!(in alloc;
        "%seed\n{ZEROS}\n%schools\nschool,zone,seats\n{schools}%roster\n{header}\n{roster}%lists\nstudent,choices\n{lists}"
    )
}

/// What the bundle of rows gives.
fn opened(alloc: Global, rows: Rows) -> Result<String, AllocError> {
    let input = bundle(alloc, rows)?;
    told(alloc, input.as_str())
}

/// A row gives what is wanted.
fn expect_row(rt: &impl Abort, row: &str, told: Result<String, AllocError>, want: &str) {
    expect_text(rt, told, want, row);
}

/// Each opening gives what is wanted.
fn expect_openings(rt: &impl Abort, alloc: Global, table: &[(&str, Rows, &str)]) {
    for (row, rows, want) in table {
        expect_row(rt, row, opened(alloc, *rows), want);
    }
}

const WORKED_OPENINGS: &[(&str, Rows, &str)] = &[
    ("headers alone", ("", "", ""), "student,school\n0"),
    (
        "one seat, two students",
        ("1,0,1\n", "1,0,\n2,0,\n", "1,1\n2,1\n"),
        "student,school\n1,-\n2,1\n0",
    ),
    (
        "zone before draw",
        ("1,1,1\n", "1,1,\n2,0,\n", "1,1\n2,1\n"),
        "student,school\n1,1\n2,-\n0",
    ),
    (
        "Market A",
        ("10,0,1\n20,0,1\n", "1,0,20\n2,0,10\n", "1,10 20\n2,20 10\n"),
        "student,school\n1,10\n2,20\n0",
    ),
    (
        "Market B",
        ("10,1,1\n20,0,1\n", "1,0,20\n2,0,10\n", "1,10 20\n2,20 10\n"),
        "student,school\n1,10\n2,20\n0",
    ),
    (
        "a correction rewinds to the start",
        (
            "10,1,1\n20,0,2\n",
            "1,1,\n2,0,\n3,0,\n4,0,\n5,0,\n",
            "1,10 20\n2,10 20\n3,20\n4,20 10\n5,20\n",
        ),
        "student,school\n1,10\n2,-\n3,-\n4,20\n5,20\n0",
    ),
    (
        "free seats",
        ("10,0,2\n", "1,0,\n", "1,10\n"),
        "student,school\n1,10\n0",
    ),
    (
        "no seats",
        ("10,0,0\n", "1,0,\n", "1,10\n"),
        "student,school\n1,-\n0",
    ),
    (
        "the last school",
        ("10,0,1\n20,0,1\n99999,0,1\n", "1,0,\n", "1,99999\n"),
        "student,school\n1,99999\n0",
    ),
];

#[test]
fn worked_openings(rt: HostRuntime) {
    expect_openings(&rt, rt.alloc(), WORKED_OPENINGS);
}

const INTAKE_FAULTS: &[(&str, Rows, &str)] = &[
    (
        "Fields",
        ("10,0\n", "", ""),
        "clearinghouse: schools row 2: Fields\n3",
    ),
    (
        "Number",
        ("10,x,1\n", "", ""),
        "clearinghouse: schools row 2: Number\n3",
    ),
    (
        "Range",
        ("10,10000,1\n", "", ""),
        "clearinghouse: schools row 2: Range\n3",
    ),
    (
        "Twice",
        ("10,0,1\n10,0,1\n", "", ""),
        "clearinghouse: schools row 3: Twice\n3",
    ),
    (
        "NoList",
        ("10,0,1\n20,0,1\n", "1,0,20\n2,0,10\n", "1,10 20\n"),
        "clearinghouse: roster row 3: NoList\n3",
    ),
    (
        "NotInRoster",
        (
            "10,0,1\n20,0,1\n",
            "1,0,20\n2,0,10\n",
            "1,10 20\n2,20 10\n9,10\n",
        ),
        "clearinghouse: lists row 4: NotInRoster\n3",
    ),
    (
        "Refused",
        ("10,0,1\n20,0,1\n", "1,0,20\n2,0,10\n", "1,10 99\n2,20 10\n"),
        "clearinghouse: roster row 2: Refused 6 UnknownSchool 99\n3",
    ),
];

#[test]
fn each_intake_fault_once(rt: HostRuntime) {
    expect_openings(&rt, rt.alloc(), INTAKE_FAULTS);
}

/// Each bundle gives what is wanted.
fn expect_bundles(rt: &impl Abort, alloc: Global, table: &[(&str, &str)]) {
    for (input, want) in table {
        expect_left(rt, told(alloc, input), want);
    }
}

#[test]
fn faults_of_the_bundle(rt: HostRuntime) {
    expect_bundles(
        &rt,
        rt.alloc(),
        &[
            ("", "clearinghouse: bundle\n3"),
            (
                "%seed\n00\n%schools\n%roster\n%lists\n",
                "clearinghouse: seed: Length\n2",
            ),
            (
                "%seed\n00000g0000000000000000000000000000000000000000000000000000000000\n%schools\n%roster\n%lists\n",
                "clearinghouse: seed: Digit 5\n2",
            ),
            (
                "%seed\n0000000000000000000000000000000000000000000000000000000000000000\n%schools\nschool,zone\n%roster\n%lists\n",
                "clearinghouse: schools row 1: Header\n3",
            ),
        ],
    );
}
