//! Several desks at one counter: what each stamped amendment is answered, and the stamps that it leaves.
//!
//! Each line of a script is a record with its stamp and, after `=>`, what is wanted: the answer, how many
//! amendments were accepted, each student's place and stamp in order of entry, and each school's stamp:
//! `ok, 1: 1:10 2:20 |1 0 |0 0`.
use crate::clearings::open;
use crate::given::{answered, expect_answered, wanted_of};
use sc_markets::{MARKET_B, places_text, stamped};
use sc_papers::Refusal;
use sc_repair::Clearing;
use std::alloc::{AllocError, Global};
use std::process::Abort;

/// The stamps as a text: of each student and then of each school, in order of entry.
fn stamps_text(alloc: Global, clearing: &Clearing) -> Result<String, AllocError> {
    let mut text = String::new(alloc);
    let papers = clearing.papers();
    for position in 0..papers.students_len() {
        if let Some(student) = papers.student_at(position) {
            write!(text, " {}", clearing.stamp_of_student(student).get())?;
        }
    }
    write!(text, " |")?;
    for position in 0..papers.schools_len() {
        if let Some(school) = papers.school_at(position) {
            write!(text, " {}", clearing.stamp_of_school(school).get())?;
        }
    }
    Ok(text)
}

/// What the clearing answers to a record. One that is no amendment is answered `Shape`.
fn answer(
    rt: &impl Abort,
    alloc: Global,
    clearing: &mut Clearing,
    record: &str,
) -> Result<String, Refusal> {
    match stamped(alloc, record) {
        Ok(stamped) => Ok(answered(rt, alloc, clearing, stamped, record)?),
        Err(Refusal::Shape) => Ok(String::from_str(alloc, "Shape")?),
        Err(refusal) => Err(refusal),
    }
}

/// The answer, and what the clearing then is.
fn left_text(alloc: Global, clearing: &Clearing, answer: &str) -> Result<String, AllocError> {
    let places = places_text(alloc, clearing)?;
    let stamps = stamps_text(alloc, clearing)?;
    let accepted = clearing.accepted().get();
    format!(in alloc; "{answer}, {accepted}: {places}|{stamps}")
}

/// What a record leaves, with the answer to it.
fn left_by(
    rt: &impl Abort,
    alloc: Global,
    clearing: &mut Clearing,
    record: &str,
) -> Result<String, Refusal> {
    let answer = answer(rt, alloc, clearing, record)?;
    let left = left_text(alloc, clearing, answer.as_str())?;
    Ok(left)
}

/// The records over Market B leave what is wanted, one after another.
fn walk(rt: &impl Abort, alloc: Global, script: &str) {
    let mut clearing = open(rt, alloc, MARKET_B);
    for line in script.lines() {
        let (record, want) = wanted_of(rt, line);
        let left = left_by(rt, alloc, &mut clearing, record);
        expect_answered(rt, record, left, want);
    }
}

#[test]
fn two_desks_in_either_order(rt: HostRuntime) {
    let first_desk_first = "\
0,rerank,1,20 => ok, 1: 1:20 2:10 | 1 0 | 0 0
0,rerank,1,10 => Stale 1, 1: 1:20 2:10 | 1 0 | 0 0
1,rerank,1,10 20 => ok, 2: 1:10 2:20 | 2 0 | 0 0
";
    walk(&rt, rt.alloc(), first_desk_first);
    let second_desk_first = "\
0,rerank,1,10 => ok, 1: 1:10 2:20 | 1 0 | 0 0
0,rerank,1,20 => Stale 1, 1: 1:10 2:20 | 1 0 | 0 0
1,rerank,1,10 20 => ok, 2: 1:10 2:20 | 2 0 | 0 0
";
    walk(&rt, rt.alloc(), second_desk_first);
}

// Student 2 goes and comes back, with a new stamp, and stands last.
#[test]
fn stamps(rt: HostRuntime) {
    let script = "\
0,withdraw,2 => ok, 1: 1:10 | 0 | 0 0
0,enter,2,0,10,20 10 => ok, 2: 1:10 2:20 | 0 2 | 0 0
0,withdraw,2 => Stale 2, 2: 1:10 2:20 | 0 2 | 0 0
0,add,20,1 => ok, 3: 1:10 2:20 | 0 2 | 0 3
5,enter,4,0,,10 => Stale 0, 3: 1:10 2:20 | 0 2 | 0 3
0,enter,2,0,,10 => StudentExists, 3: 1:10 2:20 | 0 2 | 0 3
7,withdraw,99 => UnknownStudent, 3: 1:10 2:20 | 0 2 | 0 3
withdraw,2 => Shape, 3: 1:10 2:20 | 0 2 | 0 3
";
    walk(&rt, rt.alloc(), script);
}

// A student and a school of the same number are two records.
#[test]
fn numbers_of_two_kinds(rt: HostRuntime) {
    let script = "\
0,enter,10,0,,20 => ok, 1: 1:20 2:10 10:0 | 0 0 1 | 0 0
0,close,10,1 => ok, 2: 1:20 2:0 10:0 | 0 0 1 | 2 0
1,rerank,10,20 10 => ok, 3: 1:20 2:0 10:0 | 0 0 3 | 2 0
2,add,10,1 => ok, 4: 1:20 2:10 10:0 | 0 0 3 | 4 0
";
    walk(&rt, rt.alloc(), script);
}
