//! The papers of a roster and lists of the same students, in whatever order either stands.
//!
//! Where each line of the lists begins is noted, and the numbers of both files are sorted: who has the same rank in both
//! orders is taken for the same student. That is a guess: whether it is right is seen as the students enter, each by the
//! list that is read where their line begins, and so is that no number comes twice. So what is proved here does not rest on
//! the sort. Where each student of the roster has a list, and there are as many lists as students, no list is left.

ghost use Rattle.std.specs.Prelude.{◌≡◌, [], IfSome, Ok};
ghost use Rattle.std.specs.Bool.{OnTrue};
ghost use Rattle.std.specs.Cow.{cow_slice_items};
ghost use Rattle.sc_intake.specs.File.{records_below};
ghost use Rattle.sc_intake.specs.Papers.{opening};
ghost use Rattle.sc_intake.specs.Plain.{plain_records};
ghost use Rattle.sc_intake.specs.Together.{papers_below, Fill};

use crate::below::{Below, below_header, likely_students, next_student};
use crate::lists::ListRow;
use crate::papers::open_papers;
use crate::records::Records;
use crate::roster::RosterRow;
use crate::rows::Row;
use crate::schools::SchoolRows;
use crate::text_lines::{TextLines, likely_numbers};
use crate::together::enter_next;
use crate::unquoted::unquoted_text;
use sc_papers::{FlatPapers, PlacedChoices, Seed};
use std::alloc::Global;
use std::borrow::CowSlice;

/// For how many students the lines of their lists are brought into near memory together.
const AHEAD: usize = 16;

/// For each line of the roster which line of the lists is its student's, if both files are of the same students; a guess
/// otherwise. To search for each number would take longer than to sort them all.
fn likely_lists(alloc: Global, roster: &[u8], lists: &TextLines<'_>) -> Option<Vec<u32>> {
    let students = likely_numbers(alloc, roster, lists.len())?;
    let listed = lists.by_number(alloc)?;
    let mut likely = Vec::from_elem(alloc, 0, students.len()).ok()?;
    for (student, list) in students.iter().zip(listed.iter()) {
        *likely.get_mut(student.line as usize)? = list.line;
    }
    Some(likely)
}

/// The lines of the next students, as many as are looked at together.
fn next_lines(likely: &[u32], entered: usize) -> &[u32] {
    let from = entered.min(likely.len());
    &likely[from..likely.len().min(from + AHEAD)]
}

/// Enters the students of the roster, each with the list of the line that stands there, and says whether it is theirs, each of
/// them may enter, and no list is left. Otherwise, or where memory is wanting, the papers are no longer to be used.
fn enter_each(
    alloc: Global,
    papers: &mut FlatPapers,
    roster: &mut Below<'_>,
    width: usize,
    lists: &TextLines<'_>,
    likely: &[u32],
) -> bool
    requires { papers.old.students ≡ [] }
    ensures { OnTrue result (Fill roster.old.width width roster.old.records.left lists.now papers.old papers.new) }
{
    let mut list = Below {
        width,
        records: Records::none(),
    };
    let mut placed = PlacedChoices::new();
    'rows: loop {
        let entered = papers.students_len();
        let Some(next) = next_student(alloc, entered as u64 + 2, roster) else {
            return false;
        };
        let Some(row) = next else {
            return entered == lists.len();
        };
        if entered % AHEAD == 0 && !lists.begin_with_digits(next_lines(likely, entered)) {
            return false;
        }
        let Some(line) = likely.get(entered) else {
            return false;
        };
        let Some(text) = lists.from(*line as usize) else {
            return false;
        };
        list.records.go_on_by_lines(text);
        if !enter_next(alloc, *line as u64 + 2, papers, row, &mut list, &mut placed) {
            return false;
        }
    }
}

/// A file below its header, as a text without a quote.
#[derive(Drop)]
struct PlainFile<'a> {
    width: usize,
    text: CowSlice<'a, u8>,
}

/// A file below its header, which is written again where it has a quote. `None` says nothing of it.
fn plain_file<'a, R: Row>(alloc: Global, text: &'a [u8]) -> Option<PlainFile<'a>>
    ensures { IfSome result (λ file. records_below R.source R.is_header text.now
        ≡ Ok (file.width, plain_records (cow_slice_items file.text))) }
{
    let mut below = below_header::<R>(alloc, text)?;
    let room = text.len();
    let width = below.width;
    Some(PlainFile {
        width,
        text: unquoted_text(alloc, &mut below.records, width, room)?,
    })
}

/// The papers with these schools, filled by a roster and lists that have no fault and are of the same students. `None`
/// says nothing of them.
fn papers_of_plain(
    alloc: Global,
    seed: Seed,
    schools: &SchoolRows,
    roster: &PlainFile<'_>,
    lists: &PlainFile<'_>,
) -> Option<FlatPapers>
    ensures { IfSome result (λ papers. Fill roster.now.width lists.now.width
        (plain_records (cow_slice_items roster.now.text)) (plain_records (cow_slice_items lists.now.text))
        (opening seed schools.now) papers) }
{
    let text = roster.text.as_slice();
    let listed = TextLines::of(alloc, lists.text.as_slice(), likely_students(text))?;
    let likely = likely_lists(alloc, text, &listed)?;
    let mut rows = Below {
        width: roster.width,
        records: Records::plain(text),
    };
    let mut papers = open_papers(alloc, seed, schools.as_slice(), listed.len()).ok()?;
    if !enter_each(
        alloc,
        &mut papers,
        &mut rows,
        lists.width,
        &listed,
        likely.as_slice(),
    ) {
        return None;
    }
    Some(papers)
}

/// The papers of a roster and lists that have no fault and are of the same students. `None` says nothing of them.
pub(crate) fn papers_in_any_order(
    alloc: Global,
    seed: Seed,
    schools: &SchoolRows,
    roster: &[u8],
    lists: &[u8],
) -> Option<FlatPapers>
    ensures { IfSome result (λ papers. papers_below seed schools.now roster.now lists.now ≡ Ok papers) }
{
    let roster = plain_file::<RosterRow>(alloc, roster)?;
    let lists = plain_file::<ListRow>(alloc, lists)?;
    papers_of_plain(alloc, seed, schools, &roster, &lists)
}
