//! The columns of the files and of a script's records, and what a field of each reads as by itself.
ghost use Rattle.std.specs.Prelude.{◌≡◌, [], IfErr, IfOk, option_map};
ghost use Rattle.sc_intake.specs.Field.{first_number, listed};
ghost use Rattle.sc_intake.specs.Plain.{fields_from};
ghost use Rattle.sc_checks.specs.Columns.{cause_in, cause_of_list, cause_of_range, first_with, is_cause, number_cause, optional_cause};
ghost use Rattle.sc_checks.specs.Representation.{field_view};

use crate::fields::field_text;
use sc_decimal::{number_at_front, read_number};
use sc_intake::Cause;
use sc_papers::{Count, SchoolNo, Seats, Stamp, StudentNo, Zone};

/// A column of a file, or a field of a script's record.
#[derive(Clone, Copy)]
pub(crate) enum Column {
    School,
    Zone,
    Seats,
    Student,
    Siblings,
    Continuing,
    Choices,
    Stamp,
    Word,
    Count,
}

impl Column {
    ghost use Rattle.std.specs.Prelude.{◌≡◌};
    ghost use Rattle.sc_checks.specs.Columns.{column_name};

    /// The column's name.
    pub(crate) fn name(self) -> &'static str
        ensures { result.now ≡ column_name self }
    {
        match self {
            Column::School => "school",
            Column::Zone => "zone",
            Column::Seats => "seats",
            Column::Student => "student",
            Column::Siblings => "siblings",
            Column::Continuing => "continuing",
            Column::Choices => "choices",
            Column::Stamp => "stamp",
            Column::Word => "word",
            Column::Count => "count",
        }
    }
}

/// A field that is told: its column, and what stands in it.
#[derive(Clone, Copy)]
pub(crate) struct ToldField<'a> {
    pub(crate) column: Column,
    pub(crate) value: &'a [u8],
}

/// The cause of a field that is to be a number of a range.
#[tactic(auto, unfolding(sc_intake::specs::Field::number_of))]
fn number_cause(text: &[u8], least: u32, greatest: u32) -> Option<Cause>
    ensures { result ≡ number_cause least greatest text.now }
{
    match read_number(text) {
        None => Some(Cause::Number),
        Some(number) if number < least || number > greatest => Some(Cause::Range),
        Some(_) => None,
    }
}

/// The cause of a field that is to be a school's number or empty.
#[tactic(auto, unfolding(sc_intake::specs::Field::number_of, sc_intake::specs::Field::number_or_none))]
fn optional_cause(text: &[u8]) -> Option<Cause>
    ensures { result ≡ optional_cause text.now }
{
    if text.is_empty() {
        return None;
    }
    number_cause(text, 1, SchoolNo::GREATEST)
}

/// The number that a text begins with, and how many digits write it: they end at the first space, or at the end of the
/// text. `Number` where they are not 1 to 9 decimal digits.
fn first_number(text: &[u8]) -> Result<(u32, usize), Cause>
    ensures { result ≡ first_number text.now }
{
    let Some((number, digits)) = number_at_front(text) else {
        return Err(Cause::Number);
    };
    if digits < text.len() && text[digits] != b' ' {
        return Err(Cause::Number);
    }
    Ok((number, digits))
}

/// Whether each number of a list is a school's, or `Number` where one of them is no number.
fn are_schools(text: &[u8]) -> Result<bool, Cause>
    ensures read { IfOk result (λ in_range. cause_of_list (listed text.now) ≡ cause_of_range in_range) }
    ensures bad { IfErr result (λ cause. listed text.now ≡ Err cause) }
{
    let mut in_range = true;
    let mut start = 0;
    while start < text.len() {
        match first_number(&text[start..]) {
            Ok((number, digits)) => {
                match SchoolNo::new(number) {
                    Some(_) => {}
                    None => in_range = false,
                }
                start += digits + 1;
            }
            Err(_) if text[start] == b' ' => start += 1,
            Err(cause) => return Err(cause),
        }
    }
    Ok(in_range)
}

/// The cause of a field that is to be a list of schools.
fn list_cause(text: &[u8]) -> Option<Cause>
    ensures { result ≡ cause_of_list (listed text.now) }
{
    match are_schools(text) {
        Ok(true) => None,
        Ok(false) => Some(Cause::Range),
        Err(cause) => Some(cause),
    }
}

/// The cause that a field of this column, without the blanks around it, has by itself, if it has one.
fn cause_in(column: Column, text: &[u8]) -> Option<Cause>
    ensures { result ≡ cause_in column text.now }
{
    match column {
        Column::School => number_cause(text, 1, SchoolNo::GREATEST),
        Column::Zone => number_cause(text, 0, Zone::GREATEST),
        Column::Seats => number_cause(text, 0, Seats::GREATEST),
        Column::Student => number_cause(text, 1, StudentNo::GREATEST),
        Column::Siblings | Column::Choices => list_cause(text),
        Column::Continuing => optional_cause(text),
        Column::Stamp => number_cause(text, 0, Stamp::GREATEST),
        Column::Word => None,
        Column::Count => number_cause(text, 1, Count::GREATEST),
    }
}

/// Whether a field by itself has the cause of its row.
fn is_cause(cause: &Cause, found: Option<Cause>) -> bool
    ensures { result ≡ is_cause cause.now found }
{
    match cause {
        Cause::Number => matches!(found, Some(Cause::Number)),
        Cause::Range => matches!(found, Some(Cause::Range)),
        _ => false,
    }
}

/// The first of the columns of a line whose field by itself has the cause of the line, if one has.
pub(crate) fn first_with<'a>(
    cause: &Cause,
    line: &'a [u8],
    columns: &[Column],
) -> Option<ToldField<'a>>
    ensures { option_map field_view result ≡ first_with cause.now (fields_from [] line.now) 0 columns.now }
{
    for index in 0..columns.len() {
        let column = columns[index];
        let value = field_text(line, index);
        if is_cause(cause, cause_in(column, value)) {
            return Some(ToldField { column, value });
        }
    }
    None
}
