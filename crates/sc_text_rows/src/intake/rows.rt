//! The files and the log: how many rows each has, or its first fault.
use super::{View, expect, told};
use crate::comparing::expect_text;
use std::alloc::Global;
use std::process::Abort;

#[test]
fn openings_and_ends(rt: HostRuntime) {
    expect(
        &rt,
        rt.alloc(),
        View::Schools,
        "",
        &[
            ("", "schools row 1: Header"),
            ("\u{FEFF}", "schools row 1: Header"),
            ("\n\r\n\n", "schools row 1: Header"),
            ("10,0,1\n", "schools row 1: Header"),
            ("School,zone,seats\n10,0,1\n", "schools row 1: Header"),
            ("school,seats,zone\n10,0,1\n", "schools row 1: Header"),
            ("school,zone,seats,\n10,0,1\n", "schools row 1: Header"),
            ("school,zone,seats", "0 rows"),
            ("school , \tzone,\"seats\"\n10,0,1", "1 rows"),
            ("\u{FEFF}school,zone,seats\r\n10,0,1\r\n20,0,1", "2 rows"),
            ("school,zone,seats\r10,0,1\r20,0,1\r", "2 rows"),
            (
                "\n\nschool,zone,seats\n\n\n10,0,1\n\n20,x,1\n",
                "schools row 3: Number",
            ),
        ],
    );
}

/// A file of the schools reads as is wanted.
fn expect_bytes(rt: &impl Abort, alloc: Global, bytes: &[u8], want: &str) {
    expect_text(rt, told(alloc, View::Schools, bytes), want, "schools");
}

#[test]
fn bytes_that_are_no_text(rt: HostRuntime) {
    let (header, number) = ("schools row 1: Header", "schools row 2: Number");
    let alloc = rt.alloc();
    expect_bytes(&rt, alloc, b"\xFFschool,zone,seats\n10,0,1\n", header);
    expect_bytes(&rt, alloc, b"\xEF\xBBschool,zone,seats\n10,0,1\n", header);
    expect_bytes(&rt, alloc, b"school,zone,seats\n10,\xFF,1\n", number);
    expect_bytes(&rt, alloc, b"school,zone,seats\n10,0,1\x00\n", number);
}

#[test]
fn fields_of_a_row(rt: HostRuntime) {
    expect(
        &rt,
        rt.alloc(),
        View::Schools,
        "school,zone,seats\n",
        &[
            (" \n", "schools row 2: Fields"),
            ("10,0\n", "schools row 2: Fields"),
            ("10,0,1,,,,,,,,\n20,0,1\n", "schools row 2: Fields"),
            ("10,0,1\n20,0,1,,,,\n", "schools row 3: Fields"),
            ("10;0;1\n", "schools row 2: Fields"),
            ("\"10,0,1\n20,0,1\n", "schools row 2: Fields"),
            ("10,0,\"1\n", "schools row 2: Number"),
            ("10,0,\"1", "1 rows"),
            ("1\"0\",0,1\n", "schools row 2: Number"),
            (" \"10\",0,1\n", "schools row 2: Number"),
            ("\"1\"\"0\",0,1\n", "schools row 2: Number"),
            ("\"1\"0,0,1\n", "1 rows"),
            ("\"10\n\",0,1\n", "schools row 2: Number"),
            ("\"10\" ,0,1\n", "1 rows"),
        ],
    );
}

#[test]
fn numbers(rt: HostRuntime) {
    expect(
        &rt,
        rt.alloc(),
        View::Schools,
        "school,zone,seats\n",
        &[
            (",,\n", "schools row 2: Number"),
            ("\t10 , 0,1 \t\n", "1 rows"),
            ("000000010,000,0001\n", "1 rows"),
            ("0000000010,0,1\n", "schools row 2: Number"),
            (
                "1111111111111111111111111111111111111111,0,1\n",
                "schools row 2: Number",
            ),
            ("1 0,0,1\n", "schools row 2: Number"),
            ("+10,0,1\n", "schools row 2: Number"),
            ("-10,0,1\n", "schools row 2: Number"),
            ("1.0,0,1\n", "schools row 2: Number"),
            ("\u{FF11}\u{FF10},0,1\n", "schools row 2: Number"),
            ("\u{A0}10,0,1\n", "schools row 2: Number"),
            ("\u{FEFF}10,0,1\n", "schools row 2: Number"),
            ("10\u{B},0,1\n", "schools row 2: Number"),
        ],
    );
}

#[test]
fn ranges_and_order_of_causes(rt: HostRuntime) {
    expect(
        &rt,
        rt.alloc(),
        View::Schools,
        "school,zone,seats\n",
        &[
            ("99999,9999,10000\n1,0,0\n", "2 rows"),
            ("100000,0,1\n", "schools row 2: Range"),
            ("10,10000,1\n", "schools row 2: Range"),
            ("100000,x\n", "schools row 2: Fields"),
            ("100000,0,x\n", "schools row 2: Number"),
            ("10,0,1\n010,1,2\n", "schools row 3: Twice"),
            ("10,0,1\n10,0\n", "schools row 3: Fields"),
            ("10,0,1\n10,x,1\n", "schools row 3: Number"),
            ("10,0,1\n10,0,10001\n", "schools row 3: Range"),
            ("10,0\n20,x,1\n", "schools row 2: Fields"),
            ("10,0,1\n20,x,1\n30\n", "schools row 3: Number"),
        ],
    );
}

#[test]
fn rosters(rt: HostRuntime) {
    expect(
        &rt,
        rt.alloc(),
        View::Roster,
        "student,zone,siblings\n",
        &[
            ("1,0,\n2,0,10  20\n3,0,\t10 20 \n", "3 rows"),
            ("999999999,9999,99999 1 1 1\n", "1 rows"),
            (
                "1,0,1 2 3 4 5 6 7 8 9 10 11 12 13 14 15 16 17 18 19 20 21\n",
                "1 rows",
            ),
            ("1,0,10\t20\n", "roster row 2: Number"),
            ("1,0,\"10,20\"\n", "roster row 2: Number"),
            ("1,0,1234567890\n", "roster row 2: Number"),
            ("1,0,10,20\n", "roster row 2: Fields"),
            ("1,0\n", "roster row 2: Fields"),
            ("0,0,\n", "roster row 2: Range"),
            ("1000000000,0,\n", "roster row 2: Number"),
            ("1,10000,\n", "roster row 2: Range"),
            ("1,0,10 0\n", "roster row 2: Range"),
            ("1,0,10 100000\n", "roster row 2: Range"),
            ("1,0,\n2,0,\n1,0,\n", "roster row 4: Twice"),
        ],
    );
}

#[test]
fn rosters_of_the_longer_form(rt: HostRuntime) {
    expect(
        &rt,
        rt.alloc(),
        View::Roster,
        "student,zone,siblings,continuing\n",
        &[
            ("1,0,20,\n2,0,10, 99999 \n", "2 rows"),
            ("1,0,20,\n2,0,10,x\n", "roster row 3: Number"),
            ("2,0,10,10 20\n", "roster row 2: Number"),
            ("2,0,10,0\n", "roster row 2: Range"),
            ("2,0,10\n", "roster row 2: Fields"),
            ("2,0,10,10,\n", "roster row 2: Fields"),
            ("2,0,,10\n2,0,,\n", "roster row 3: Twice"),
        ],
    );
}

#[test]
fn lists_of_students(rt: HostRuntime) {
    expect(
        &rt,
        rt.alloc(),
        View::Lists,
        "",
        &[
            ("student, choices\n", "0 rows"),
            ("Student,Choices\n1,10\n", "lists row 1: Header"),
            ("student,zone,siblings\n1,0,10\n", "lists row 1: Header"),
            ("student,choices\n1,\n2, 10 20 10\n3,\"10 20", "3 rows"),
            ("student,choices\n1\n", "lists row 2: Fields"),
            ("student,choices\n1,10,20\n", "lists row 2: Fields"),
            ("student,choices\n1,10-20\n", "lists row 2: Number"),
            ("student,choices\n\n\n1,10\n\n2,0\n", "lists row 3: Range"),
            ("student,choices\n1,10\n2,20\n1,30\n", "lists row 4: Twice"),
        ],
    );
}

#[test]
fn logs(rt: HostRuntime) {
    expect(
        &rt,
        rt.alloc(),
        View::Log,
        "",
        &[
            ("", "0 rows"),
            ("\u{FEFF}", "0 rows"),
            ("\u{FEFF}\u{FEFF}1,10\n", "log row 1: Header"),
            ("\u{FEFF}1,10\r\n2,20\n\n1,10", "3 rows"),
            (" 999999999\t,\"99999\"\n", "1 rows"),
            ("1,10,\n", "log row 1: Fields"),
            ("1,10\n2\n", "log row 2: Fields"),
            ("student,school\n1,10\n", "log row 1: Number"),
            ("1,1234567890\n", "log row 1: Number"),
            ("0,x\n", "log row 1: Number"),
            ("0,10\n", "log row 1: Range"),
            ("1,0\n", "log row 1: Range"),
            ("1,10\n\n\n2,100000\n3\n", "log row 2: Range"),
        ],
    );
}

#[test]
fn rows_are_counted(rt: HostRuntime) {
    let alloc = rt.alloc();
    expect(
        &rt,
        alloc,
        View::Schools,
        "school,zone,seats\n",
        &[("10,0,1\n20,0,1\n", "2 rows")],
    );
    expect(
        &rt,
        alloc,
        View::Roster,
        "student,zone,siblings\n",
        &[("1,0,\n", "1 rows")],
    );
    expect(
        &rt,
        alloc,
        View::Lists,
        "student,choices\n",
        &[("", "0 rows")],
    );
}
