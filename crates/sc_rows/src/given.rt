//! What the tests begin with: numbers, and the papers of a market after a script.
ghost use Rattle.std.specs.Prelude.{◌≡◌};

use crate::comparing::same_in;
use sc_markets::{Files, amendment};
use sc_papers::{Amendment, Papers, Refusal, SchoolNo, Stamped, StudentNo};
use sc_repair::Clearing;
use std::alloc::{AllocError, Global};
use std::process::Abort;

pub fn student(rt: &impl Abort, number: u32) -> StudentNo
    ensures { result ≡ number }
{
    StudentNo::new(number).expect(rt, "a student's number")
}

pub fn school(rt: &impl Abort, number: u32) -> SchoolNo
    ensures { result ≡ number }
{
    SchoolNo::new(number).expect(rt, "a school's number")
}

/// A record of a script, and what is wanted of it, which stands after `=>`.
pub fn wanted_of<'a>(rt: &impl Abort, line: &'a str) -> (&'a str, &'a str) {
    line.split_once(" => ").expect(rt, "a record and an answer")
}

/// What was said of the record is what is wanted.
fn expect_same(rt: &impl Abort, record: &str, said: &str, want: &str) {
    same_in(rt, &said, &want, record);
}

/// What there was memory to say of the record is what is wanted. It takes the text, so that those who ask hold none:
/// each holder of a text is dear to prove.
pub fn expect_said(rt: &impl Abort, record: &str, said: Result<String, AllocError>, want: &str) {
    let said = said.expect(rt, "memory");
    expect_same(rt, record, said.as_str(), want);
    drop(said);
}

/// The same of a text that may be refused otherwise.
pub fn expect_answered(rt: &impl Abort, record: &str, said: Result<String, Refusal>, want: &str) {
    let said = said.expect(rt, "memory");
    expect_same(rt, record, said.as_str(), want);
    drop(said);
}

/// An answer as a text: its refusal, or `ok`.
pub fn answer_text(alloc: Global, answer: Result<(), Refusal>) -> Result<String, AllocError> {
    match answer {
        Ok(()) => String::from_str(alloc, "ok"),
        Err(refusal) => refusal.to_string(alloc),
    }
}

/// What the clearing answers to a stamped amendment, which is what `check` says beforehand.
pub fn answered(
    rt: &impl Abort,
    alloc: Global,
    clearing: &mut Clearing,
    stamped: Stamped,
    record: &str,
) -> Result<String, AllocError> {
    let checked = clearing.check(&stamped);
    let answered = clearing.amend(stamped);
    same_in(rt, &checked, &answered, record);
    answer_text(alloc, answered)
}

/// Makes an amendment that the papers allow.
pub fn amend(rt: &impl Abort, alloc: Global, papers: &mut Papers, record: &str) {
    papers
        .apply(amendment_of(rt, alloc, record))
        .expect(rt, "an amendment that is allowed");
}

/// The papers of a market, made again where memory was refused.
pub fn papers_of(rt: &impl Abort, alloc: Global, files: Files<'_>) -> Papers {
    match files.papers(alloc) {
        Ok(papers) => papers,
        Err(_) => files.papers(alloc).expect(rt, "papers"),
    }
}

/// The amendment of a record, made again where memory was refused.
pub fn amendment_of(rt: &impl Abort, alloc: Global, record: &str) -> Amendment {
    match amendment(alloc, record) {
        Ok(amendment) => amendment,
        Err(_) => amendment(alloc, record).expect(rt, "an amendment"),
    }
}
