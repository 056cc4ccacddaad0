//! The greatest inputs, and one past them.
use super::{View, expect, told};
use crate::comparing::expect_text;
use sc_intake::MOST_BYTES;
use std::alloc::{AllocError, Global};
use std::process::Abort;

/// A header above rows with the numbers from 1 to this.
fn rows_under(alloc: Global, header: &str, count: u32) -> Result<String, AllocError> {
    let mut text = String::from_str(alloc, header)?;
    for number in 1..=count {
        let row = format!(in alloc; "{number},0,1\n")?;
        text.push_str(row.as_str())?;
    }
    Ok(text)
}

/// An input of so many rows reads as is wanted.
fn expect_rows(rt: &impl Abort, alloc: Global, view: View, header: &str, count: u32, want: &str) {
    let text = rows_under(alloc, header, count).expect(rt, "memory");
    expect_text(rt, told(alloc, view, text.as_bytes()), want, header);
}

#[test]
fn readers_limits_of_schools(rt: HostRuntime) {
    let header = "school,zone,seats\n";
    expect_rows(&rt, rt.alloc(), View::Schools, header, 5_000, "5000 rows");
    let more = "schools row 5002: TooLong";
    expect_rows(&rt, rt.alloc(), View::Schools, header, 5_001, more);
}

#[test]
fn readers_limits_of_students(rt: HostRuntime) {
    let header = "student,zone,siblings\n";
    let more = "roster row 200002: TooLong";
    expect_rows(&rt, rt.alloc(), View::Roster, header, 200_001, more);
}

#[test]
fn readers_limits_of_rows(rt: HostRuntime) {
    let schools = [
        ("10,0,1,\n", "schools row 2: Fields"),
        ("10,x,10001\n", "schools row 2: Number"),
        ("10,0,10001\n", "schools row 2: Range"),
        ("0,0,1\n", "schools row 2: Range"),
        ("1234567890,0,1\n", "schools row 2: Number"),
    ];
    let header = "school,zone,seats\n";
    expect(&rt, rt.alloc(), View::Schools, header, &schools);
    let lists = [("1,10\t20\n", "lists row 2: Number")];
    expect(&rt, rt.alloc(), View::Lists, "student,choices\n", &lists);
    let schools = [("school,zone,seats\n", "schools row 1: Header")];
    expect(&rt, rt.alloc(), View::Schools, TWO_MARKS, &schools);
    let script = [("0,withdraw,1\n", "script row 1: Header")];
    expect(&rt, rt.alloc(), View::Signs, TWO_MARKS, &script);
}

/// Two byte order marks.
const TWO_MARKS: &str = "\u{FEFF}\u{FEFF}";

#[test]
fn each_intake_fault_once_past_64_mebibytes(rt: HostRuntime) {
    assert!(rt; MOST_BYTES == 67_108_864);
    let newlines = vec![in rt.alloc(); b'\n'; 67_108_865].expect(&rt, "memory");
    let more = told(rt.alloc(), View::Log, newlines.as_slice());
    expect_text(&rt, more, "log row 0: TooLong", "newlines");
}
