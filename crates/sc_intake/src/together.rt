//! The papers of the texts of the three files.

ghost use Rattle.std.specs.Prelude.{◌≡◌, ◌⊎◌, [], Err, IfErr, IfOk, IfSome, Ok};
ghost use Rattle.std.specs.Bool.{OnTrue};
ghost use Rattle.sc_intake.specs.Papers.{opening, papers_in, IsWantOfMemory};
ghost use Rattle.sc_intake.specs.Together.{papers_below, EntersNext, Fill};

use crate::any_order::papers_in_any_order;
use crate::below::{Below, below_header, is_at_end, likely_students, next_placed, next_student};
use crate::fault::IntakeFault;
use crate::lists::{ListRow, read_lists};
use crate::papers::{enter_placed, flat_papers_of, open_papers, with_records};
use crate::roster::{RosterRow, read_roster};
use crate::schools::{SchoolRows, read_schools};
use sc_papers::{FlatPapers, Papers, PlacedChoices, Seed};
use std::alloc::Global;

/// Enters a student of the roster with the next list, whose number this is, and says whether the list is the student's,
/// who may enter by it. Otherwise, or where memory is wanting, the papers are no longer to be used. What stands in
/// `placed` before is of no account.
pub(crate) fn enter_next(
    alloc: Global,
    number: u64,
    papers: &mut FlatPapers,
    row: RosterRow,
    lists: &mut Below<'_>,
    placed: &mut PlacedChoices,
) -> bool
    ensures entered { OnTrue result (EntersNext lists.old.width number lists.old.records.left lists.new.records.left
        papers.old row papers.new) }
    ensures width { lists.new.width ≡ lists.old.width }
{
    match next_placed(alloc, number, papers, lists, placed) {
        Some(Some(student)) => {
            student == row.student && enter_placed(papers, row, placed.chosen())
        }
        _ => false,
    }
}

/// Enters the students of both files, and says whether each row of the one is of the same student as that row of the
/// other, and each of them may enter. Otherwise, or where memory is wanting, the papers are no longer to be used.
fn enter_together(
    alloc: Global,
    papers: &mut FlatPapers,
    roster: &mut Below<'_>,
    lists: &mut Below<'_>,
) -> bool
    requires { papers.old.students ≡ [] }
    ensures { OnTrue result (Fill roster.old.width lists.old.width
        roster.old.records.left lists.old.records.left papers.old papers.new) }
{
    let mut placed = PlacedChoices::new();
    'rows: loop {
        let number = papers.students_len() as u64 + 2;
        let Some(next) = next_student(alloc, number, roster) else {
            return false;
        };
        let Some(row) = next else {
            return is_at_end(lists);
        };
        if !enter_next(alloc, number, papers, row, lists, &mut placed) {
            return false;
        }
    }
}

/// The papers with these schools, and room for so many students, filled by a roster and lists below their headers that
/// have no fault and whose rows are of the same students, row by row. `None` says nothing of them.
fn papers_filled(
    alloc: Global,
    seed: Seed,
    schools: &SchoolRows,
    room: usize,
    roster: &mut Below<'_>,
    lists: &mut Below<'_>,
) -> Option<FlatPapers>
    ensures { IfSome result (λ papers. Fill roster.old.width lists.old.width
        roster.old.records.left lists.old.records.left (opening seed schools.now) papers) }
{
    let mut papers = open_papers(alloc, seed, schools.as_slice(), room).ok()?;
    if !enter_together(alloc, &mut papers, roster, lists) {
        return None;
    }
    Some(papers)
}

/// The papers of a roster and lists that have no fault and whose rows are of the same students, row by row. `None` says
/// nothing of them.
fn papers_together(
    alloc: Global,
    seed: Seed,
    schools: &SchoolRows,
    roster: &[u8],
    lists: &[u8],
) -> Option<FlatPapers>
    ensures { IfSome result (λ papers. papers_below seed schools.now roster.now lists.now ≡ Ok papers) }
{
    let room = likely_students(roster);
    let mut roster = below_header::<RosterRow>(alloc, roster)?;
    let mut lists = below_header::<ListRow>(alloc, lists)?;
    papers_filled(alloc, seed, schools, room, &mut roster, &mut lists)
}

/// The papers that the texts of the three files make under a seed, or the first fault: of the schools, the roster, the
/// lists, and then of what they say together, as `papers_of` tells it. Beside that the only error is want of memory, of
/// row 0 and the file in whose reading it was wanted, or of the roster where it was in making the papers.
///
/// There are three ways, each tried where the one before gave up. Where the lists stand in the order of the roster, row
/// by row, and nothing is wrong, both are read together: no row is kept, no list is copied and none is looked up. Then
/// the cost is the length of the texts, a look-up for each school named, and a draw of the lottery for each student.
/// Where they stand in any other order and nothing is wrong, it is noted where each list begins, the numbers of both are
/// sorted, and each list is read as its student enters; a text with a quote is first written again without, in as much
/// memory. Otherwise the roster and the lists are read once more, each alone, which finds the first fault where there is
/// one, and what is more than reading is the cost of `papers_of` without its records.
pub fn read_flat_papers(
    alloc: Global,
    seed: Seed,
    schools: &[u8],
    roster: &[u8],
    lists: &[u8],
) -> Result<FlatPapers, IntakeFault>
    ensures read { IfOk result (λ papers. papers_in seed schools.now roster.now lists.now ≡ Ok papers) }
    ensures fault { IfErr result (λ fault. (papers_in seed schools.now roster.now lists.now ≡ Err fault)
        ⊎ IsWantOfMemory fault) }
{
    let schools = read_schools(alloc, schools)?;
    if let Some(papers) = papers_together(alloc, seed, &schools, roster, lists) {
        return Ok(papers);
    }
    if let Some(papers) = papers_in_any_order(alloc, seed, &schools, roster, lists) {
        return Ok(papers);
    }
    let roster = read_roster(alloc, roster)?;
    let lists = read_lists(alloc, lists)?;
    flat_papers_of(alloc, seed, &schools, &roster, &lists)
}

/// The papers that the texts of the three files make under a seed, with a record of each student, or the first fault,
/// as `read_flat_papers` finds them. Want of memory for the records is of the roster, row 0.
///
/// The cost is that of `read_flat_papers`, and that of making the records.
pub fn read_papers(
    alloc: Global,
    seed: Seed,
    schools: &[u8],
    roster: &[u8],
    lists: &[u8],
) -> Result<Papers, IntakeFault>
    ensures read { IfOk result (λ papers. papers_in seed schools.now roster.now lists.now ≡ Ok papers) }
    ensures fault { IfErr result (λ fault. (papers_in seed schools.now roster.now lists.now ≡ Err fault)
        ⊎ IsWantOfMemory fault) }
{
    let papers = read_flat_papers(alloc, seed, schools, roster, lists)?;
    with_records(papers)
}
