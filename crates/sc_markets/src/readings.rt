//! Papers, amendments and assignments, read from their rows.

use sc_intake::{Cause, IntakeFault, Source, read_log, read_papers, read_script};
use sc_papers::{Amendment, Assignment, Papers, Refusal, Rejection, Seed, Stamp, Stamped};
use sc_repair::Clearing;
use sc_stamps::{Record, record_of};
use std::alloc::{AllocError, Global};

/// A file of these rows under its header.
fn file(alloc: Global, source: Source, header: &str, rows: &str) -> Result<String, IntakeFault> {
    format!(in alloc; "{header}\n{rows}").map_err(|_refused| IntakeFault {
        source,
        row: 0,
        cause: Cause::OutOfMemory,
    })
}

/// The header of a roster of these rows: the longer one where the first row has a field more, the school
/// at which the student continues.
pub fn roster_header(rows: &str) -> &'static str {
    match rows.lines().next() {
        Some(first) if first.split(',').count() > 3 => "student,zone,siblings,continuing",
        _ => "student,zone,siblings",
    }
}

/// The papers of these schools (`SCHOOL,ZONE,SEATS` in each row), these students (`STUDENT,ZONE,SIBLINGS`
/// or `STUDENT,ZONE,SIBLINGS,CONTINUING`) and their lists (`STUDENT,CHOICES`), under the seed of 64 zeros,
/// or the fault of the three files: they are read as the program reads them, each with its header above
/// these rows.
pub fn papers(
    alloc: Global,
    schools: &str,
    students: &str,
    lists: &str,
) -> Result<Papers, IntakeFault> {
    let schools = file(alloc, Source::Schools, "school,zone,seats", schools)?;
    let roster = file(alloc, Source::Roster, roster_header(students), students)?;
    let lists = file(alloc, Source::Lists, "student,choices", lists)?;
    read_papers(
        alloc,
        zero_seed(),
        schools.as_bytes(),
        roster.as_bytes(),
        lists.as_bytes(),
    )
}

/// The seed of 64 zeros.
#[tactic(auto, unfolding(sc_lottery::specs::Seed::seed_of, sc_lottery::specs::Seed::first_wrong_index, sc_lottery::specs::Seed::bytes_of))]
fn zero_seed() -> Seed {
    match Seed::from_hex(&[b'0'; 64]) {
        Ok(seed) => seed,
        Err(_) => unreachable!(),
    }
}

/// The stamped amendment that a script of this one record makes, as `0,enter,3,1,10,10`; `Shape` where it makes
/// none, and `OutOfMemory`.
pub fn stamped(alloc: Global, record: &str) -> Result<Stamped, Refusal> {
    match read_script(alloc, record.as_bytes()) {
        Ok(script) => first(script),
        Err(_) => Err(Refusal::OutOfMemory),
    }
}

/// The stamped amendment of a script that has no other.
fn first(script: Vec<Result<Stamped, Refusal>>) -> Result<Stamped, Refusal> {
    let mut script = script;
    script.pop().unwrap_or(Err(Refusal::Shape))
}

/// The amendment of this record without its stamp, as `enter,3,1,10,10`; `Shape` where it is none, and
/// `OutOfMemory`.
pub fn amendment(alloc: Global, record: &str) -> Result<Amendment, Refusal> {
    let record = format!(in alloc; "0,{record}")?;
    let stamped = stamped(alloc, record.as_str())?;
    Ok(stamped.amendment)
}

/// The stamp of a record.
pub fn stamp_of(clearing: &Clearing, record: Record) -> Stamp {
    match record {
        Record::OfStudent(student) => clearing.stamp_of_student(student),
        Record::OfSchool(school) => clearing.stamp_of_school(school),
    }
}

/// The amendment with the stamp that its record has.
pub fn seen(clearing: &Clearing, amendment: Amendment) -> Stamped {
    let stamp = stamp_of(clearing, record_of(&amendment));
    Stamped { stamp, amendment }
}

/// The assignment in which each of these students has that school (`STUDENT,SCHOOL` in each row), or `None`
/// where the rows are no such pairs, or memory is refused.
pub fn assignment(alloc: Global, rows: &str) -> Option<Assignment> {
    let pairs = read_log(alloc, rows.as_bytes()).ok()?;
    assigned(alloc, pairs.as_slice()).ok()
}

/// The assignment of these pairs.
fn assigned(alloc: Global, pairs: &[Rejection]) -> Result<Assignment, AllocError> {
    let mut assignment = Assignment::new(alloc);
    for pair in pairs {
        assignment.put(pair.student, pair.school)?;
    }
    Ok(assignment)
}

/// The clearing of such papers, or `None` where they have a fault, or memory is refused.
pub fn clearing(alloc: Global, schools: &str, students: &str, lists: &str) -> Option<Clearing> {
    let papers = papers(alloc, schools, students, lists).ok()?;
    Clearing::open(alloc, papers).ok()
}
