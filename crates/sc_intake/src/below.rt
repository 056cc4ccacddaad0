//! A file below its header, row by row.

ghost use Rattle.std.specs.Prelude.{◌≡◌, ℕ, [], IfNone, IfSome, Ok};
ghost use Rattle.std.specs.Bool.{OnTrue};
ghost use Rattle.sc_intake.specs.File.{records_below};
ghost use Rattle.sc_intake.specs.Roster.{student_of};
ghost use Rattle.sc_intake.specs.Rows.{row_at};
ghost use Rattle.sc_intake.specs.Tidy.{IsNextList, IsNextRow, TakesList, TakesRow};
ghost use Rattle.sc_papers.specs.Market.{schools_of};
ghost use Rattle.sc_papers.specs.Placed.{schools_at, AreOfSchools};

use crate::byte_count::count_of;
use crate::input::records_in;
use crate::lists::ListRow;
use crate::records::Records;
use crate::roster::RosterRow;
use crate::rows::{Row, take_header};
use crate::tidy_rows::{take_placed, take_student};
use sc_papers::{FlatPapers, MOST_STUDENTS, PlacedChoices, StudentNo};
use std::alloc::Global;

/// A file below its header: its records, each of which is to have as many fields as that.
#[derive(Drop)]
pub(crate) struct Below<'a> {
    pub(crate) width: usize,
    pub(crate) records: Records<'a>,
}

/// The records of a file below its header. `None` says nothing of the file: `read_rows` tells what is wrong.
pub(crate) fn below_header<'a, R: Row>(alloc: Global, text: &'a [u8]) -> Option<Below<'a>>
    ensures { IfSome result (λ below. records_below R.source R.is_header text.now
        ≡ Ok (below.width, below.records.left)) }
{
    let mut records = records_in(alloc, R::source(), text).ok()?;
    let width = take_header::<R>(&mut records).ok()?;
    Some(Below { width, records })
}

/// The row that the record of a file that was read last is, in this row and under a header of so many fields. `None` says
/// nothing: it is none, or memory is wanting.
fn row_at<R: Row>(alloc: Global, row: u64, width: usize, records: &Records<'_>) -> Option<R>
    ensures { IfSome result (λ found. row_at R.reading width row records.now.current ≡ Ok found) }
{
    if records.len() != width {
        return None;
    }
    R::read(alloc, row, records).ok()
}

/// The row that the next record of the roster is, where that is tidy. `None` says nothing of it, and leaves the records
/// as they were.
fn tidy_student(
    alloc: Global,
    row: u64,
    width: usize,
    records: &mut Records<'_>,
) -> Option<RosterRow>
    ensures row { IfSome result (TakesRow student_of width row records.old.left records.new.left) }
    ensures unchanged { IfNone result (records.new ≡ records.old) }
{
    let text = records.text()?;
    let (found, rest) = take_student(alloc, row, width, text)?;
    records.go_on(rest);
    Some(found)
}

/// The student of the row that the next record of the lists is, where that is tidy and a student may have its choices;
/// where their schools stand is put into `placed`. `None` says nothing of the record, and leaves the records as they were.
fn placed_row(
    papers: &FlatPapers,
    width: usize,
    records: &mut Records<'_>,
    placed: &mut PlacedChoices,
) -> Option<StudentNo>
    ensures row { IfSome result (λ student. (row : ℕ) → TakesList width row
        records.old.left records.new.left student (schools_at (schools_of papers.now) placed.new)) }
    ensures within { IfSome result (λ _. AreOfSchools papers.now placed.new) }
    ensures unchanged { IfNone result (records.new ≡ records.old) }
{
    let text = records.text()?;
    let Some((student, left)) = take_placed(papers, width, text, placed) else {
        return None;
    };
    records.go_on(left);
    Some(student)
}

/// The row that the next record of a file is, if there is one, however it is written. `None` says nothing: it is none,
/// or memory is wanting.
fn any_row<R: Row>(
    alloc: Global,
    row: u64,
    width: usize,
    records: &mut Records<'_>,
) -> Option<Option<R>>
    ensures { IfSome result (IsNextRow R.reading width row records.old.left records.new.left) }
{
    match records.read() {
        Ok(true) => Some(Some(row_at(alloc, row, width, records)?)),
        Ok(false) => Some(None),
        Err(_) => None,
    }
}

/// The row that the next record of the roster is, if there is one. `None` says nothing: it is none, or memory is wanting.
pub(crate) fn next_student(
    alloc: Global,
    row: u64,
    below: &mut Below<'_>,
) -> Option<Option<RosterRow>>
    ensures row { IfSome result (IsNextRow student_of below.old.width row
        below.old.records.left below.new.records.left) }
    ensures width { below.new.width ≡ below.old.width }
{
    match tidy_student(alloc, row, below.width, &mut below.records) {
        Some(found) => Some(Some(found)),
        None => any_row(alloc, row, below.width, &mut below.records),
    }
}

/// The student of the row that the next record of the lists is, if there is one; where the schools of its choices stand
/// is put into `placed`, in place of what was there. `None` says nothing: it is none, no student may have its choices, or
/// memory is wanting.
pub(crate) fn next_placed(
    alloc: Global,
    row: u64,
    papers: &FlatPapers,
    below: &mut Below<'_>,
    placed: &mut PlacedChoices,
) -> Option<Option<StudentNo>>
    ensures row { IfSome result (IsNextList below.old.width row below.old.records.left below.new.records.left
        (schools_at (schools_of papers.now) placed.new)) }
    ensures within { IfSome result (λ next. IfSome next (λ _. AreOfSchools papers.now placed.new)) }
    ensures width { below.new.width ≡ below.old.width }
{
    if let Some(student) = placed_row(papers, below.width, &mut below.records, placed) {
        return Some(Some(student));
    }
    let Some(list) = any_row::<ListRow>(alloc, row, below.width, &mut below.records)? else {
        return Some(None);
    };
    placed.clear();
    if !placed.push_all(papers, list.choices.as_slice()) {
        return None;
    }
    Some(Some(list.student))
}

/// Whether no record of a file is left. `false` says nothing: there is one, or memory is wanting.
pub(crate) fn is_at_end(below: &mut Below<'_>) -> bool
    ensures { OnTrue result (below.old.records.left ≡ []) }
{
    matches!(below.records.read(), Ok(false))
}

/// How many students a roster may have, by its line ends: a guess, for which room is made at once.
pub(crate) fn likely_students(roster: &[u8]) -> usize {
    count_of(b'\n', roster).min(MOST_STUDENTS)
}
