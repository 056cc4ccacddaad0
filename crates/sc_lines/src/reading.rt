//! A line read back.

ghost use Rattle.std.specs.Prelude.{◌≡◌, ◌==◌, IfOk};
ghost use Rattle.std.specs.List.{count_by};
ghost use Rattle.sc_lines.specs.Reading.{add_in, amendment_in, close_in, correct_in, enter_in, is_named, line_in, line_of, rerank_in, school_or_none_in, withdraw_in, Gives};
ghost use Rattle.sc_lines.specs.Spelling.{ReadsAs};

use crate::line_no::LineNo;
use crate::numbers::{count, line_no, list, school, student, zone};
use crate::unread::Unread;
use sc_decimal::Fields;
use sc_papers::{Amendment, SchoolNo};
use std::alloc::{AllocError, Global};

/// A line of the journal: an accepted amendment, under its number.
#[derive(Debug, Drop)]
pub struct JournalLine {
    pub number: LineNo,
    pub amendment: Amendment,
}

/// The school's number that a field writes, counted from 0, or `None` where the fields end before it.
#[tactic(auto, unfolding(crate::specs::Reading::school_or_none_in))]
fn school_or_none(fields: &Fields, index: usize) -> Result<Option<SchoolNo>, Unread>
    ensures { result ≡ school_or_none_in fields.now index }
{
    if fields.are_so_many(index) {
        return Ok(None);
    }
    match school(fields.at(index)) {
        Ok(school) => Ok(Some(school)),
        Err(unread) => Err(unread),
    }
}

/// `N,enter,STUDENT,ZONE,SIBLINGS,CHOICES`, and with a comma the school at which the student continues.
#[tactic(auto, unfolding(crate::specs::Reading::enter_in))]
fn enter(alloc: Global, fields: &Fields) -> Result<Amendment, Unread>
    ensures { Gives (enter_in fields.now) result }
{
    if !fields.are_so_many(6) && !fields.are_so_many(7) {
        return Err(Unread::NoLine);
    }
    Ok(Amendment::Enter {
        student: student(fields.at(2))?,
        zone: zone(fields.at(3))?,
        siblings: list(alloc, fields.at(4))?,
        choices: list(alloc, fields.at(5))?,
        continuing: school_or_none(fields, 6)?,
    })
}

/// `N,withdraw,STUDENT`
#[tactic(auto, unfolding(crate::specs::Reading::withdraw_in))]
fn withdraw(fields: &Fields) -> Result<Amendment, Unread>
    ensures { result ≡ withdraw_in fields.now }
{
    if !fields.are_so_many(3) {
        return Err(Unread::NoLine);
    }
    Ok(Amendment::Withdraw {
        student: student(fields.at(2))?,
    })
}

/// `N,rerank,STUDENT,CHOICES`
#[tactic(auto, unfolding(crate::specs::Reading::rerank_in))]
fn rerank(alloc: Global, fields: &Fields) -> Result<Amendment, Unread>
    ensures { Gives (rerank_in fields.now) result }
{
    if !fields.are_so_many(4) {
        return Err(Unread::NoLine);
    }
    Ok(Amendment::Rerank {
        student: student(fields.at(2))?,
        choices: list(alloc, fields.at(3))?,
    })
}

/// `N,add,SCHOOL,COUNT`
#[tactic(auto, unfolding(crate::specs::Reading::add_in))]
fn add(fields: &Fields) -> Result<Amendment, Unread>
    ensures { result ≡ add_in fields.now }
{
    if !fields.are_so_many(4) {
        return Err(Unread::NoLine);
    }
    Ok(Amendment::Add {
        school: school(fields.at(2))?,
        count: count(fields.at(3))?,
    })
}

/// `N,close,SCHOOL,COUNT`
#[tactic(auto, unfolding(crate::specs::Reading::close_in))]
fn close(fields: &Fields) -> Result<Amendment, Unread>
    ensures { result ≡ close_in fields.now }
{
    if !fields.are_so_many(4) {
        return Err(Unread::NoLine);
    }
    Ok(Amendment::Close {
        school: school(fields.at(2))?,
        count: count(fields.at(3))?,
    })
}

/// `N,correct,STUDENT,ZONE,SIBLINGS`, and with a comma the school at which the student continues.
#[tactic(auto, unfolding(crate::specs::Reading::correct_in))]
fn correct(alloc: Global, fields: &Fields) -> Result<Amendment, Unread>
    ensures { Gives (correct_in fields.now) result }
{
    if !fields.are_so_many(5) && !fields.are_so_many(6) {
        return Err(Unread::NoLine);
    }
    Ok(Amendment::Correct {
        student: student(fields.at(2))?,
        zone: zone(fields.at(3))?,
        siblings: list(alloc, fields.at(4))?,
        continuing: school_or_none(fields, 5)?,
    })
}

/// Whether the second field, which names the amendment, is this word.
fn are_named(fields: &Fields, word: &[u8]) -> bool
    ensures { result ≡ is_named fields.now word.now }
{
    fields.at(1) == word
}

/// The amendment that the fields of a line read as, by the word in the second.
#[tactic(auto, unfolding(crate::specs::Reading::amendment_in))]
fn amendment(alloc: Global, fields: &Fields) -> Result<Amendment, Unread>
    ensures { Gives (amendment_in fields.now) result }
{
    if are_named(fields, b"enter") {
        return enter(alloc, fields);
    }
    if are_named(fields, b"withdraw") {
        return withdraw(fields);
    }
    if are_named(fields, b"rerank") {
        return rerank(alloc, fields);
    }
    if are_named(fields, b"add") {
        return add(fields);
    }
    if are_named(fields, b"close") {
        return close(fields);
    }
    if are_named(fields, b"correct") {
        return correct(alloc, fields);
    }
    Err(Unread::NoLine)
}

/// The line that fields read as.
#[tactic(auto, unfolding(crate::specs::Reading::line_of))]
fn line_of(alloc: Global, fields: &Fields) -> Result<JournalLine, Unread>
    ensures { Gives (line_of fields.now) result }
{
    Ok(JournalLine {
        number: line_no(fields.at(0))?,
        amendment: amendment(alloc, fields)?,
    })
}

/// The most fields that a line has.
const MOST_FIELDS: usize = 7;

/// How many commas stand in a text.
fn commas(text: &[u8]) -> usize
    ensures { result ≡ count_by (λ c. c == 44) text.now }
{
    let mut count = 0;
    for byte in text {
        count += usize::from(*byte == b',');
    }
    count
}

/// The line that a text reads as. The fields of a text that has more than a line are not listed, so that one of millions
/// takes no memory.
fn line_in(alloc: Global, text: &[u8]) -> Result<JournalLine, Unread>
    ensures { Gives (line_in text.now) result }
{
    if commas(text) >= MOST_FIELDS {
        return Err(Unread::NoLine);
    }
    let fields = Fields::of(alloc, text)?;
    line_of(alloc, &fields)
}

/// Reads a line of the journal, given without its newline: its number and its amendment, or `None`
/// where the bytes are no line's spelling. So whatever `line` writes is read back, and nothing else is
/// read. The only error is want of memory; cost and memory are in proportion to the length.
pub fn read_line(alloc: Global, bytes: &[u8]) -> Result<Option<JournalLine>, AllocError>
    ensures { IfOk result (ReadsAs bytes.now) }
{
    match line_in(alloc, bytes) {
        Ok(line) => Ok(Some(line)),
        Err(Unread::NoLine) => Ok(None),
        Err(Unread::OutOfMemory) => Err(AllocError),
    }
}
