//! Rows of tidy texts: digits alone, one space between two numbers of a list, one comma between two fields.
//!
//! Most rows are so, and are read where they stand: no end of a field or of a line is looked for before it is come to.

ghost use Rattle.std.specs.Prelude.{◌≡◌, ◌∷◌, ℕ, [], false, Bool, IfSome};
ghost use Rattle.std.specs.Bool.{OnTrue};
ghost use Rattle.sc_intake.specs.File.{is_marked};
ghost use Rattle.sc_intake.specs.Plain.{cut, first_line};
ghost use Rattle.sc_intake.specs.Roster.{student_of};
ghost use Rattle.sc_intake.specs.Tidy.{AreSchools, EndsRow, IsSchoolOrNone, TakesField, TakesList, TakesNumber};
ghost use Rattle.sc_intake.specs.Tidy.{TakesRejection, TakesRow};
ghost use Rattle.sc_papers.specs.Market.{schools_of};
ghost use Rattle.sc_papers.specs.Placed.{schools_at, AreOfSchools};

use crate::plain_records::ends_line;
use crate::ranges;
use crate::roster::RosterRow;
use sc_decimal::number_at_front;
use sc_papers::{
    FlatPapers, LONGEST_LIST, PlacedChoices, Rejection, SchoolList, SchoolNo, StudentNo,
};
use std::alloc::Global;

/// How many digits the longest number has.
const LONGEST_NUMBER: usize = 9;

/// The number whose digits a text begins with, and the text after them.
#[inline(always)]
fn take_number(text: &[u8]) -> Option<(u32, &[u8])>
    ensures { IfSome result (λ taken. TakesNumber text.now taken.1.now taken.0) }
{
    let (number, digits) = number_at_front(text)?;
    Some((number, &text[digits..]))
}

/// The text after the comma that it begins with.
fn after_comma(text: &[u8]) -> Option<&[u8]>
    ensures { IfSome result (λ rest. text.now ≡ 44 ∷ rest.now) }
{
    match text {
        [b',', rest @ ..] => Some(rest),
        _ => None,
    }
}

/// Whether a text begins with a line end, or is at its own end.
fn is_at_line_end(text: &[u8]) -> bool
    ensures { OnTrue result (first_line text.now ≡ []) }
{
    match text {
        [byte, ..] => ends_line(*byte),
        [] => true,
    }
}

/// The schools that a text begins with, at least one and no more than a list of the papers may have, and the text after
/// them.
///
/// It is not inlined, so that what its loop uses stays in registers.
#[inline(never)]
fn take_schools(alloc: Global, text: &[u8]) -> Option<(SchoolList, &[u8])>
    ensures { IfSome result (λ taken. TakesField text.now taken.1.now (AreSchools taken.0)) }
{
    let filler = SchoolNo::new(1)?;
    let mut schools = [filler; LONGEST_LIST];
    let mut rest = text;
    for count in 0..LONGEST_LIST {
        let (number, after) = take_number(rest)?;
        schools[count] = SchoolNo::new(number)?;
        match after {
            [b' ', more @ ..] => rest = more,
            _ => {
                let Ok(list) = Vec::from_slice(alloc, &schools[..count + 1]) else {
                    return None;
                };
                return Some((SchoolList::from_vec(list), after));
            }
        }
    }
    None
}

/// Reads the schools that a text begins with, at least one, puts where each stands in the papers into `placed`, in place
/// of what was there, and answers the text after them. `None` says nothing of the text: it begins with no such number or
/// ends soon, there are more of them than a list may have, or a school is not in the papers or comes twice.
///
/// It is not inlined, so that what its loop uses stays in registers.
#[inline(never)]
fn place_schools<'a>(
    papers: &FlatPapers,
    text: &'a [u8],
    placed: &mut PlacedChoices,
) -> Option<&'a [u8]>
    ensures schools { IfSome result (λ rest. TakesField text.now rest.now
        (AreSchools (schools_at (schools_of papers.now) placed.new))) }
    ensures within { IfSome result (λ _. AreOfSchools papers.now placed.new) }
{
    placed.clear();
    let mut rest = text;
    for _ in 0..LONGEST_LIST {
        if rest.len() <= LONGEST_NUMBER {
            // A row so near the end of the text is read the other way, so that here no digit is tested for that end.
            return None;
        }
        let (number, after) = take_number(rest)?;
        let school = SchoolNo::new(number)?;
        if !placed.push(papers, school) {
            return None;
        }
        match after {
            [b' ', further @ ..] => rest = further,
            _ => return Some(after),
        }
    }
    None
}

/// The schools that a text begins with, none where it begins with no digit, and the text after them.
fn take_siblings(alloc: Global, text: &[u8]) -> Option<(SchoolList, &[u8])>
    ensures { IfSome result (λ taken. TakesField text.now taken.1.now (AreSchools taken.0)) }
{
    match text {
        [byte, ..] if byte.is_ascii_digit() => take_schools(alloc, text),
        _ => Some((SchoolList::from_vec(Vec::new(alloc)), text)),
    }
}

/// The school that a text begins with, none where it begins with no digit, and the text after it.
fn take_continuing(text: &[u8]) -> Option<(Option<SchoolNo>, &[u8])>
    ensures { IfSome result (λ taken. TakesField text.now taken.1.now (IsSchoolOrNone taken.0)) }
{
    match text {
        [byte, ..] if byte.is_ascii_digit() => {
            let (number, after) = take_number(text)?;
            Some((Some(SchoolNo::new(number)?), after))
        }
        _ => Some((None, text)),
    }
}

/// The school at which a student continues, by what stands after the third field of so many, and the text from the line
/// end on.
fn end_row(width: usize, text: &[u8]) -> Option<(Option<SchoolNo>, &[u8])>
    ensures { IfSome result (λ ended. EndsRow width text.now ended.1.now ended.0) }
{
    match width {
        3 if is_at_line_end(text) => Some((None, text)),
        4 => match take_continuing(after_comma(text)?) {
            Some((continuing, after)) if is_at_line_end(after) => Some((continuing, after)),
            _ => None,
        },
        _ => None,
    }
}

/// The student of the row of the lists that the first record of a text is, under a header of so many fields, and the
/// text from its line end on. Where the schools of the choices stand is put into `placed`, in place of what was there.
/// `None` says nothing of the text: the record is not tidy, or no student may have such choices.
pub(crate) fn take_placed<'a>(
    papers: &FlatPapers,
    width: usize,
    text: &'a [u8],
    placed: &mut PlacedChoices,
) -> Option<(StudentNo, &'a [u8])>
    ensures row { IfSome result (λ taken. (by_lines : Bool) → (row : ℕ) → TakesList width row (cut by_lines text.now)
        (cut by_lines taken.1.now) taken.0 (schools_at (schools_of papers.now) placed.new)) }
    ensures within { IfSome result (λ _. AreOfSchools papers.now placed.new) }
    ensures unmarked { IfSome result (λ taken. is_marked taken.1.now ≡ false) }
{
    if width != 2 {
        return None;
    }
    let (number, after) = take_number(text)?;
    let rest = place_schools(papers, after_comma(after)?, placed)?;
    if !is_at_line_end(rest) {
        return None;
    }
    let Ok(student) = ranges::student(number) else {
        return None;
    };
    Some((student, rest))
}

/// The rejection that the first record of a text is, and the text from its line end on. `None` says nothing of the text:
/// the record is not tidy, or no rejection.
pub(crate) fn take_rejection(text: &[u8]) -> Option<(Rejection, &[u8])>
    ensures rejection { IfSome result (λ taken. (by_lines : Bool) → TakesRejection (cut by_lines text.now)
        (cut by_lines taken.1.now) taken.0) }
    ensures unmarked { IfSome result (λ taken. is_marked taken.1.now ≡ false) }
{
    let (student, after) = take_number(text)?;
    let (school, rest) = take_number(after_comma(after)?)?;
    if !is_at_line_end(rest) {
        return None;
    }
    let Ok(student) = ranges::student(student) else {
        return None;
    };
    let Ok(school) = ranges::school(school) else {
        return None;
    };
    Some((Rejection { student, school }, rest))
}

/// The row of the roster that the first record of a text is, under a header of so many fields, and the text from its line
/// end on. `None` says nothing of the text: the record is not tidy, or memory is wanting.
pub(crate) fn take_student(
    alloc: Global,
    row: u64,
    width: usize,
    text: &[u8],
) -> Option<(RosterRow, &[u8])>
    ensures row { IfSome result (λ taken. (by_lines : Bool) → TakesRow student_of width row (cut by_lines text.now)
        (cut by_lines taken.1.now) taken.0) }
    ensures unmarked { IfSome result (λ taken. is_marked taken.1.now ≡ false) }
{
    let (number, after) = take_number(text)?;
    let (zone, after) = take_number(after_comma(after)?)?;
    let (siblings, after) = take_siblings(alloc, after_comma(after)?)?;
    let Some((continuing, rest)) = end_row(width, after) else {
        return None;
    };
    let Ok(student) = ranges::student(number) else {
        return None;
    };
    let Ok(zone) = ranges::zone(zone) else {
        return None;
    };
    Some((
        RosterRow {
            row,
            student,
            zone,
            siblings,
            continuing,
        },
        rest,
    ))
}
