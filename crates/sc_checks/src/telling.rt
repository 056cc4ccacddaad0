//! What is told of a row that has a fault.
ghost use Rattle.std.specs.Prelude.{◌≡◌, ◌++◌, [], OnOk, codes, decimal, option_map};
ghost use Rattle.sc_decimal.specs.Number.{read_number};
ghost use Rattle.sc_intake.specs.Plain.{fields_from};
ghost use Rattle.sc_checks.specs.FaultLines.{about_count, about_field, about_fields, about_header, about_line, about_refused, about_row, about_subject, field_text, is_read, place_text, refused_text, school_text, shown_text, student_text, subject_text};
ghost use Rattle.sc_checks.specs.Words.{general_words};
ghost use Rattle.sc_checks.specs.Representation.{field_view, row_view};

use crate::columns::{Column, ToldField, first_with};
use crate::fields::{field_text, fields_len};
use crate::forms::{Form, columns_of, form_of};
use crate::lines::RowLine;
use crate::quoting::push_quoted;
use crate::words::{
    column_words, count_words, header_words, hint_words, push_general_words, push_refusal_words,
};
use sc_decimal::{push_number, read_number};
use sc_intake::{Blanks, Cause, Source, trimmed};
use sc_papers::{Refusal, SchoolNo, StudentNo};
use std::alloc::AllocError;

/// Adds where a row stands.
pub(crate) fn push_place(
    text: &mut Vec<u8>,
    name: &str,
    number: u64,
    row: Option<RowLine<'_>>,
) -> Result<(), AllocError>
    ensures { OnOk result (text.new.items ≡ text.old.items
        ++ place_text name.now number (option_map row_view row.entry)) }
{
    text.extend_from_slice(name.as_bytes())?;
    match row {
        Some(row) => {
            text.extend_from_slice(b" line ")?;
            push_number(text, row.line)
        }
        None => {
            text.extend_from_slice(b" row ")?;
            push_number(text, number)
        }
    }
}

/// Adds a number behind a word.
fn push_named(text: &mut Vec<u8>, word: &[u8], number: u32) -> Result<(), AllocError>
    ensures { OnOk result (text.new.items ≡ text.old.items ++ (word.now ++ decimal number)) }
{
    text.extend_from_slice(word)?;
    push_number(text, u64::from(number))
}

/// Adds the school that a field names, if it names one.
#[tactic(auto, unfolding(sc_intake::specs::Field::number_of))]
fn push_school(text: &mut Vec<u8>, field: &[u8]) -> Result<(), AllocError>
    ensures { OnOk result (text.new.items ≡ text.old.items ++ school_text field.now) }
{
    match read_number(field) {
        Some(number) if 1 <= number && number <= SchoolNo::GREATEST => {
            push_named(text, b", school ", number)
        }
        _ => Ok(()),
    }
}

/// Adds the student whom a field names, if it names one.
#[tactic(auto, unfolding(sc_intake::specs::Field::number_of))]
fn push_student(text: &mut Vec<u8>, field: &[u8]) -> Result<(), AllocError>
    ensures { OnOk result (text.new.items ≡ text.old.items ++ student_text field.now) }
{
    match read_number(field) {
        Some(number) if 1 <= number && number <= StudentNo::GREATEST => {
            push_named(text, b", student ", number)
        }
        _ => Ok(()),
    }
}

/// Adds whom a row is of.
fn push_subject(text: &mut Vec<u8>, form: Form, line: &[u8]) -> Result<(), AllocError>
    ensures { OnOk result (text.new.items ≡ text.old.items ++ subject_text form (fields_from [] line.now)) }
{
    match form {
        Form::SchoolRow => push_school(text, field_text(line, 0)),
        Form::RosterRow | Form::ListRow => push_student(text, field_text(line, 0)),
        Form::Enter | Form::Withdraw | Form::Rerank | Form::Correct => {
            push_student(text, field_text(line, 2))
        }
        Form::AddOrClose => push_school(text, field_text(line, 2)),
        Form::Unknown => Ok(()),
    }
}

/// Adds what is wrong with a row that is no header, without the blanks around it.
fn push_header(text: &mut Vec<u8>, source: Source, line: &[u8]) -> Result<(), AllocError>
    ensures { OnOk result (text.new.items ≡ text.old.items ++ about_header source line.now) }
{
    text.extend_from_slice(b" ")?;
    push_quoted(text, line)?;
    text.extend_from_slice(b": ")?;
    text.extend_from_slice(header_words(source).as_bytes())?;
    text.extend_from_slice(hint_words(line).as_bytes())
}

/// Adds what is wrong with a record of a script whose word is none.
fn push_word(text: &mut Vec<u8>, line: &[u8]) -> Result<(), AllocError>
    ensures { OnOk result (text.new.items ≡ text.old.items ++ about_count Form.Unknown (fields_from [] line.now)) }
{
    text.extend_from_slice(b", word ")?;
    push_quoted(text, field_text(line, 1))?;
    text.extend_from_slice(b": ")?;
    text.extend_from_slice(count_words(Form::Unknown).as_bytes())
}

/// Adds what is wrong with a row that has not as many fields as it is to have, or a word that is none.
fn push_count(text: &mut Vec<u8>, form: Form, line: &[u8]) -> Result<(), AllocError>
    ensures { OnOk result (text.new.items ≡ text.old.items ++ about_count form (fields_from [] line.now)) }
{
    if let Form::Unknown = form {
        return push_word(text, line);
    }
    push_subject(text, form, line)?;
    text.extend_from_slice(b": ")?;
    text.extend_from_slice(count_words(form).as_bytes())?;
    text.extend_from_slice(b", not ")?;
    push_number(text, fields_len(line) as u64)
}

/// Adds a field in print, with its column.
pub(crate) fn push_shown(text: &mut Vec<u8>, column: Column, value: &[u8]) -> Result<(), AllocError>
    ensures { OnOk result (text.new.items ≡ text.old.items
        ++ shown_text (record { column = column; value = value.now })) }
{
    text.extend_from_slice(b", ")?;
    text.extend_from_slice(column.name().as_bytes())?;
    text.extend_from_slice(b" ")?;
    push_quoted(text, value)
}

/// Adds a field, and what is expected there.
fn push_value(
    text: &mut Vec<u8>,
    cause: &Cause,
    column: Column,
    value: &[u8],
) -> Result<(), AllocError>
    ensures { OnOk result (text.new.items ≡ text.old.items
        ++ field_text cause.now (record { column = column; value = value.now })) }
{
    push_shown(text, column, value)?;
    text.extend_from_slice(b": ")?;
    text.extend_from_slice(column_words(cause, column).as_bytes())
}

/// Adds what is expected, whatever stands in the row.
fn push_general(text: &mut Vec<u8>, source: Source, cause: &Cause) -> Result<(), AllocError>
    ensures { OnOk result (text.new.items ≡ text.old.items ++ (codes ": " ++ general_words source cause.now)) }
{
    text.extend_from_slice(b": ")?;
    push_general_words(text, source, cause)
}

/// Adds a field that is told, and what is expected there.
fn push_field(
    text: &mut Vec<u8>,
    source: Source,
    cause: &Cause,
    field: &Option<ToldField<'_>>,
) -> Result<(), AllocError>
    ensures { OnOk result (text.new.items ≡ text.old.items
        ++ about_field source cause.now (option_map field_view field.now)) }
{
    match field {
        Some(field) => push_value(text, cause, field.column, field.value),
        None => push_general(text, source, cause),
    }
}

/// Adds what is wrong with a row of which a field is faulty.
fn push_fields(
    text: &mut Vec<u8>,
    source: Source,
    cause: &Cause,
    form: Form,
    line: &[u8],
) -> Result<(), AllocError>
    ensures { OnOk result (text.new.items ≡ text.old.items
        ++ about_fields source cause.now form (fields_from [] line.now)) }
{
    push_subject(text, form, line)?;
    let field = first_with(cause, line, columns_of(form));
    push_field(text, source, cause, &field)
}

/// Adds what is wrong with a row, where what stands in it is no matter.
fn push_whole(
    text: &mut Vec<u8>,
    source: Source,
    cause: &Cause,
    form: Form,
    line: &[u8],
) -> Result<(), AllocError>
    ensures { OnOk result (text.new.items ≡ text.old.items
        ++ about_subject source cause.now form (fields_from [] line.now)) }
{
    push_subject(text, form, line)?;
    push_general(text, source, cause)
}

/// Whether a field is the number of this school.
fn names_school(school: SchoolNo, field: &[u8]) -> bool
    ensures { result ≡ is_read school (read_number field.now) }
{
    match read_number(field) {
        Some(number) => number == school.get(),
        None => false,
    }
}

/// Adds the field of a row of the roster for which the papers refuse the student, where it is not their choices.
fn push_refused_field(text: &mut Vec<u8>, refusal: &Refusal, line: &[u8]) -> Result<(), AllocError>
    ensures { OnOk result (text.new.items ≡ text.old.items ++ refused_text refusal.now (fields_from [] line.now)) }
{
    match refusal {
        Refusal::ListTooLong | Refusal::SchoolTwice { .. } => {
            push_shown(text, Column::Siblings, field_text(line, 2))
        }
        Refusal::UnknownSchool { school } => {
            if names_school(*school, field_text(line, 3)) {
                return push_shown(text, Column::Continuing, field_text(line, 3));
            }
            push_shown(text, Column::Siblings, field_text(line, 2))
        }
        _ => Ok(()),
    }
}

/// Adds what is wrong with a row of the roster whose student the papers refuse.
fn push_refused(
    text: &mut Vec<u8>,
    refusal: &Refusal,
    form: Form,
    line: &[u8],
) -> Result<(), AllocError>
    ensures { OnOk result (text.new.items ≡ text.old.items
        ++ about_refused refusal.now form (fields_from [] line.now)) }
{
    push_subject(text, form, line)?;
    push_refused_field(text, refusal, line)?;
    text.extend_from_slice(b": ")?;
    push_refusal_words(text, refusal)
}

/// Adds what is wrong with a line.
fn push_line(
    text: &mut Vec<u8>,
    source: Source,
    cause: &Cause,
    line: &[u8],
) -> Result<(), AllocError>
    ensures { OnOk result (text.new.items ≡ text.old.items ++ about_line source cause.now line.now) }
{
    let form = form_of(source, line);
    match cause {
        Cause::Header => push_header(text, source, trimmed(line, Blanks::InLine)),
        Cause::Fields => push_count(text, form, line),
        Cause::Number | Cause::Range => push_fields(text, source, cause, form, line),
        Cause::Refused(refusal) => push_refused(text, refusal, form, line),
        _ => push_whole(text, source, cause, form, line),
    }
}

/// Adds what is wrong with a row, where it is told by its line or not.
pub(crate) fn push_row(
    text: &mut Vec<u8>,
    source: Source,
    cause: &Cause,
    row: Option<RowLine<'_>>,
) -> Result<(), AllocError>
    ensures { OnOk result (text.new.items ≡ text.old.items
        ++ about_row source cause.now (option_map row_view row.entry)) }
{
    match row {
        Some(row) => push_line(text, source, cause, row.bytes),
        None => push_general(text, source, cause),
    }
}
