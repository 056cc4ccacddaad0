//! What is expected, in words.
ghost use Rattle.std.specs.Prelude.{◌≡◌, ◌++◌, OnOk, decimal};
ghost use Rattle.sc_checks.specs.FaultLines.{column_words};
ghost use Rattle.sc_checks.specs.Words.{count_words, general_words, has_byte, has_capital, header_words, hint_words, limit_words, number_words, range_words, refusal_words, twice_words};

use crate::columns::Column;
use crate::forms::Form;
use crate::lines::is_marked;
use memchr::memchr;
use sc_decimal::push_number;
use sc_intake::{Cause, Source};
use sc_papers::{Refusal, SchoolNo};
use std::alloc::AllocError;

/// The header of an input.
pub(crate) fn header_words(source: Source) -> &'static str
    ensures { result.now ≡ header_words source }
{
    match source {
        Source::Schools => "the header school,zone,seats is expected",
        Source::Roster => {
            "the header student,zone,siblings is expected, or student,zone,siblings,continuing"
        }
        Source::Lists => "the header student,choices is expected",
        _ => "one byte order mark at most is expected",
    }
}

/// Whether a text has this byte.
pub(crate) fn has_byte(byte: u8, text: &[u8]) -> bool
    ensures { result ≡ has_byte byte text.now }
{
    memchr(byte, text).is_some()
}

/// Whether a text has a capital letter.
fn has_capital(text: &[u8]) -> bool
    ensures { result ≡ has_capital text.now }
{
    for byte in text {
        if 65 <= *byte && *byte <= 90 {
            return true;
        }
    }
    false
}

/// Why a line, without the blanks around it, may be no header, where it can be seen.
pub(crate) fn hint_words(line: &[u8]) -> &'static str
    ensures { result.now ≡ hint_words line.now }
{
    if is_marked(line) {
        return "; a byte order mark stands here";
    }
    if has_byte(0, line) {
        return "; this is UTF-16, and UTF-8 is expected";
    }
    if has_byte(b';', line) {
        return "; the fields stand between semicolons";
    }
    if has_byte(b'\t', line) && !has_byte(b',', line) {
        return "; the fields stand between tabs";
    }
    if has_capital(line) {
        return "; it has capital letters";
    }
    ""
}

/// How many fields a form has.
pub(crate) fn count_words(form: Form) -> &'static str
    ensures { result.now ≡ count_words form }
{
    match form {
        Form::SchoolRow => "3 fields are expected",
        Form::RosterRow => "as many fields as in the header are expected",
        Form::ListRow => "2 fields are expected",
        Form::Enter => "6 or 7 fields are expected",
        Form::Withdraw => "3 fields are expected",
        Form::Rerank => "4 fields are expected",
        Form::AddOrClose => "4 fields are expected",
        Form::Correct => "5 or 6 fields are expected",
        Form::Unknown => {
            "one of the words enter, withdraw, rerank, add, close and correct is expected"
        }
    }
}

/// The number, or the numbers, of a column.
fn number_words(column: Column) -> &'static str
    ensures { result.now ≡ number_words column }
{
    match column {
        Column::Siblings | Column::Choices => {
            "numbers of 1 to 9 digits with spaces between them are expected"
        }
        Column::Continuing => "one number of 1 to 9 digits, or nothing, is expected",
        _ => "a number of 1 to 9 digits is expected",
    }
}

/// The range of a column's numbers.
fn range_words(column: Column) -> &'static str
    ensures { result.now ≡ range_words column }
{
    match column {
        Column::School => "a number from 1 to 99999 is expected",
        Column::Zone => "a number from 0 to 9999 is expected",
        Column::Seats => "a number from 0 to 10000 is expected",
        Column::Student => "a number from 1 to 999999999 is expected",
        Column::Siblings | Column::Choices => "numbers from 1 to 99999 are expected",
        Column::Continuing => "a number from 1 to 99999 is expected",
        Column::Stamp => "a number from 0 to 999999999 is expected",
        Column::Word => "a word is expected",
        Column::Count => "a number from 1 to 10000 is expected",
    }
}

/// What is expected of a column.
pub(crate) fn column_words(cause: &Cause, column: Column) -> &'static str
    ensures { result.now ≡ column_words cause.now column }
{
    match cause {
        Cause::Range => range_words(column),
        _ => number_words(column),
    }
}

/// How long an input may be.
fn limit_words(source: Source) -> &'static str
    ensures { result.now ≡ limit_words source }
{
    match source {
        Source::Schools => "5000 schools and 67108864 bytes at most are expected",
        Source::Roster => "200000 students and 67108864 bytes at most are expected",
        Source::Lists => "200000 students and 67108864 bytes at most are expected",
        _ => "67108864 bytes at most are expected",
    }
}

/// Whose earlier row there is.
fn twice_words(source: Source) -> &'static str
    ensures { result.now ≡ twice_words source }
{
    match source {
        Source::Schools => "an earlier row has this school",
        _ => "an earlier row has this student",
    }
}

/// Adds a school's number between words.
fn push_school(
    text: &mut Vec<u8>,
    before: &str,
    school: SchoolNo,
    after: &str,
) -> Result<(), AllocError>
    ensures { OnOk result (text.new.items ≡ text.old.items ++ (before.now ++ decimal school ++ after.now)) }
{
    text.extend_from_slice(before.as_bytes())?;
    push_number(text, u64::from(school.get()))?;
    text.extend_from_slice(after.as_bytes())
}

/// Adds why the papers refuse a student.
pub(crate) fn push_refusal_words(text: &mut Vec<u8>, refusal: &Refusal) -> Result<(), AllocError>
    ensures { OnOk result (text.new.items ≡ text.old.items ++ refusal_words refusal.now) }
{
    match refusal {
        Refusal::EmptyList => text.extend_from_slice(b"a list of 1 to 20 schools is expected"),
        Refusal::ListTooLong => text.extend_from_slice(b"a list of at most 20 schools is expected"),
        Refusal::UnknownSchool { school } => push_school(
            text,
            "a row with school ",
            *school,
            " is expected in the schools",
        ),
        Refusal::SchoolTwice { school } => {
            push_school(text, "the list names school ", *school, " twice")
        }
        _ => text.extend_from_slice(b"the papers refuse the student"),
    }
}

/// Adds what is expected, whatever stands in the row.
pub(crate) fn push_general_words(
    text: &mut Vec<u8>,
    source: Source,
    cause: &Cause,
) -> Result<(), AllocError>
    ensures { OnOk result (text.new.items ≡ text.old.items ++ general_words source cause.now) }
{
    match cause {
        Cause::TooLong => text.extend_from_slice(limit_words(source).as_bytes()),
        Cause::Header => text.extend_from_slice(header_words(source).as_bytes()),
        Cause::Fields => text.extend_from_slice(b"as many fields as its form has are expected"),
        Cause::Number => text.extend_from_slice(b"numbers of 1 to 9 digits are expected"),
        Cause::Range => text.extend_from_slice(b"numbers within their ranges are expected"),
        Cause::Twice => text.extend_from_slice(twice_words(source).as_bytes()),
        Cause::NoList => text.extend_from_slice(
            b"a row without a fault is expected for this student in the lists",
        ),
        Cause::NotInRoster => text.extend_from_slice(
            b"a row without a fault is expected for this student in the roster",
        ),
        Cause::Refused(refusal) => push_refusal_words(text, refusal),
        Cause::OutOfMemory => text.extend_from_slice(b"more memory is expected"),
    }
}
