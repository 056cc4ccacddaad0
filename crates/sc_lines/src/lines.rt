//! The line of an amendment.
ghost use Rattle.std.specs.Prelude.{◌≡◌, ◌∷◌, ◌++◌, IfOk, OnOk, codes, decimal, flat_map};
ghost use Rattle.std.specs.List.{join_with_byte};
ghost use Rattle.sc_lines.specs.Line.{amendment_text, continuing_fields, further_text, line_text, list_text};

use crate::line_no::LineNo;
use sc_decimal::push_number;
use sc_papers::{Amendment, SchoolList, SchoolNo, Zone};
use std::alloc::{AllocError, Global};

/// Adds the schools that follow the first of a list.
fn push_further(text: &mut Vec<u8>, schools: &[SchoolNo]) -> Result<(), AllocError>
    ensures { OnOk result (text.new.items ≡ text.old.items ++ flat_map further_text schools.now) }
{
    for school in schools {
        text.extend_from_slice(b" ")?;
        push_number(text, u64::from(school.get()))?;
    }
    Ok(())
}

/// Adds a list of schools to a text: their numbers, with one space between each two. The only error is
/// want of memory, after which a part of it may have been added.
pub fn push_list(text: &mut Vec<u8>, schools: &[SchoolNo]) -> Result<(), AllocError>
    ensures { OnOk result (text.new.items ≡ text.old.items ++ list_text schools.now) }
{
    match schools {
        [] => Ok(()),
        [first, further @ ..] => {
            push_number(text, u64::from(first.get()))?;
            push_further(text, further)
        }
    }
}

/// Adds a comma and a number.
fn push_number_field(text: &mut Vec<u8>, number: u32) -> Result<(), AllocError>
    ensures { OnOk result (text.new.items ≡ text.old.items ++ codes "," ++ decimal number) }
{
    text.extend_from_slice(b",")?;
    push_number(text, u64::from(number))
}

/// Adds a comma and a list of schools.
fn push_list_field(text: &mut Vec<u8>, schools: &SchoolList) -> Result<(), AllocError>
    ensures { OnOk result (text.new.items ≡ text.old.items ++ codes "," ++ list_text schools.now) }
{
    text.extend_from_slice(b",")?;
    push_list(text, schools.as_slice())
}

/// Adds a zone and the schools of siblings, each after a comma.
fn push_home(text: &mut Vec<u8>, zone: Zone, siblings: &SchoolList) -> Result<(), AllocError>
    ensures { OnOk result (text.new.items ≡ text.old.items
        ++ (codes "," ++ decimal zone ++ (codes "," ++ list_text siblings.now))) }
{
    push_number_field(text, zone.get())?;
    push_list_field(text, siblings)
}

/// Adds a comma and a list of schools, and after another comma the school at which a student
/// continues, if there is one.
fn push_last_fields(
    text: &mut Vec<u8>,
    schools: &SchoolList,
    continuing: Option<SchoolNo>,
) -> Result<(), AllocError>
    ensures { OnOk result (text.new.items ≡ text.old.items ++ codes ","
        ++ join_with_byte 44 (list_text schools.now ∷ continuing_fields continuing)) }
{
    push_list_field(text, schools)?;
    match continuing {
        Some(school) => push_number_field(text, school.get()),
        None => Ok(()),
    }
}

/// Adds the record of an amendment.
fn push_amendment(text: &mut Vec<u8>, amendment: &Amendment) -> Result<(), AllocError>
    ensures { OnOk result (text.new.items ≡ text.old.items ++ amendment_text amendment.now) }
{
    match amendment {
        Amendment::Enter {
            student,
            zone,
            siblings,
            choices,
            continuing,
        } => {
            text.extend_from_slice(b"enter")?;
            push_number_field(text, student.get())?;
            push_home(text, *zone, siblings)?;
            push_last_fields(text, choices, *continuing)
        }
        Amendment::Withdraw { student } => {
            text.extend_from_slice(b"withdraw")?;
            push_number_field(text, student.get())
        }
        Amendment::Rerank { student, choices } => {
            text.extend_from_slice(b"rerank")?;
            push_number_field(text, student.get())?;
            push_list_field(text, choices)
        }
        Amendment::Add { school, count } => {
            text.extend_from_slice(b"add")?;
            push_number_field(text, school.get())?;
            push_number_field(text, count.get())
        }
        Amendment::Close { school, count } => {
            text.extend_from_slice(b"close")?;
            push_number_field(text, school.get())?;
            push_number_field(text, count.get())
        }
        Amendment::Correct {
            student,
            zone,
            siblings,
            continuing,
        } => {
            text.extend_from_slice(b"correct")?;
            push_number_field(text, student.get())?;
            push_number_field(text, zone.get())?;
            push_last_fields(text, siblings, *continuing)
        }
    }
}

/// The line of an amendment without its newline.
fn spelling(alloc: Global, number: LineNo, amendment: &Amendment) -> Result<Vec<u8>, AllocError>
    ensures { IfOk result (λ text. text.items ≡ line_text number amendment.now) }
{
    let mut text = Vec::new(alloc);
    push_number(&mut text, u64::from(number.get()))?;
    text.extend_from_slice(b",")?;
    push_amendment(&mut text, amendment)?;
    Ok(text)
}

/// The line of an accepted amendment, with its newline: its number, a comma, and the amendment's
/// record. Each amendment has this one spelling: decimal digits without leading zeros, one space
/// between the numbers of a list, an empty field for an empty list, no field for a student who
/// continues at no school, and no quotes. The only error is want of memory; the cost is the length of
/// the line.
pub fn line(alloc: Global, number: LineNo, amendment: &Amendment) -> Result<Vec<u8>, AllocError>
    ensures { IfOk result (λ text. text.items ≡ line_text number amendment.now ++ codes "\n") }
{
    let mut text = spelling(alloc, number, amendment)?;
    text.extend_from_slice(b"\n")?;
    Ok(text)
}
