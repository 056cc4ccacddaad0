//! Number types and refusals, each with its text.
use crate::comparing::same_in;
use crate::given::{expect_said, school};
use sc_papers::{Count, Refusal, SchoolNo, Seats, Stamp, Zone};
use std::alloc::{AllocError, Global};
use std::process::Abort;

/// Which types have the number, and what each gives back.
fn types_of(alloc: Global, number: u32) -> Result<String, AllocError> {
    let mut text = String::new(alloc);
    if let Some(school) = SchoolNo::new(number) {
        write!(text, "school {} ", school.get())?;
    }
    if let Some(zone) = Zone::new(number) {
        write!(text, "zone {} ", zone.get())?;
    }
    if let Some(seats) = Seats::new(number) {
        write!(text, "seats {} ", seats.get())?;
    }
    if let Some(count) = Count::new(number) {
        write!(text, "count {} ", count.get())?;
    }
    Ok(text)
}

/// Numbers, and which types have them.
const TYPES: &[(u32, &str)] = &[
    (0, "zone 0 seats 0 "),
    (1, "school 1 zone 1 seats 1 count 1 "),
    (9_999, "school 9999 zone 9999 seats 9999 count 9999 "),
    (10_000, "school 10000 seats 10000 count 10000 "),
    (10_001, "school 10001 "),
    (99_999, "school 99999 "),
    (100_000, ""),
];

#[test]
fn number_types_have_their_ranges(rt: HostRuntime) {
    for (number, want) in TYPES {
        expect_said(&rt, want, types_of(rt.alloc(), *number), want);
    }
}

#[test]
fn stamps_have_a_last_one(rt: HostRuntime) {
    let last = Stamp::new(999_999_999).expect(&rt, "a stamp");
    assert!(rt; last.next().is_none());
    assert!(rt; Stamp::new(1_000_000_000).is_none());
    assert!(rt; Stamp::ZERO.next() == Stamp::new(1));
}

fn expect_code(rt: &impl Abort, alloc: Global, refusal: Refusal, code: u8, name: &str) {
    same_in(rt, &refusal.code(), &code, name);
    expect_said(rt, name, refusal.to_string(alloc), name);
}

fn expect_codes(rt: &impl Abort, alloc: Global) {
    expect_code(rt, alloc, Refusal::Shape, 1, "Shape");
    expect_code(rt, alloc, Refusal::UnknownStudent, 2, "UnknownStudent");
    expect_code(rt, alloc, Refusal::StudentExists, 3, "StudentExists");
    expect_code(rt, alloc, Refusal::EmptyList, 4, "EmptyList");
    expect_code(rt, alloc, Refusal::ListTooLong, 5, "ListTooLong");
    expect_code(rt, alloc, Refusal::RosterFull, 8, "RosterFull");
    expect_code(rt, alloc, Refusal::TooManySeats, 9, "TooManySeats");
    expect_code(rt, alloc, Refusal::TooFewSeats, 10, "TooFewSeats");
    expect_code(rt, alloc, Refusal::OutOfMemory, 11, "OutOfMemory");
    expect_code(rt, alloc, Refusal::Spent, 13, "Spent");
}

#[test]
fn refusals_have_codes_and_names(rt: HostRuntime) {
    expect_codes(&rt, rt.alloc());
    let school = school(&rt, 99);
    let unknown = Refusal::UnknownSchool { school };
    expect_code(&rt, rt.alloc(), unknown, 6, "UnknownSchool 99");
    let twice = Refusal::SchoolTwice { school };
    expect_code(&rt, rt.alloc(), twice, 7, "SchoolTwice 99");
    let stale = Refusal::Stale { stamp: Stamp::ZERO };
    expect_code(&rt, rt.alloc(), stale, 12, "Stale 0");
}
