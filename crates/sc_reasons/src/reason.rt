//! Reasons: why a student does not have a choice that they prefer to what they have.
ghost use Rattle.std.specs.Prelude.{◌≡◌, ◌<◌, ◌++◌, ℕ, flat_map, length, slice_get, Some, All, IfOk, OnOk};
ghost use Rattle.std.specs.List.{position_or_len};
ghost use Rattle.sc_papers.specs.Market.{Market, choices_of};
ghost use Rattle.sc_papers.specs.Matching.{Matching, has};
ghost use Rattle.sc_papers.specs.declared.key.Key.{Key as Keyed};
ghost use Rattle.sc_reasons.specs.Cutoff.{rows_in_order};
ghost use Rattle.sc_reasons.specs.Entrants.{numbers_of, Holds, StandsAt};
ghost use Rattle.sc_reasons.specs.Reason.{reason_by, reason_rows, reasons_of, AreMissed, IsMissed};
ghost use Rattle.sc_tallies.specs.Places.{ArePlaces};

use crate::cutoff::{Cutoff, CutoffRow, rows_in_order};
use crate::entrants::{Entrant, rising_entrants};
use sc_papers::{ClassedChoice, FlatPapers, Key, SchoolNo, StudentNo};
use std::alloc::{AllocError, Global};

/// Why a student does not have a school.
#[derive(Clone, Copy, Debug, PartialEq, Eq)]
pub enum Reason {
    /// The school has no seats.
    Seats,
    /// The last class that the school admits is better than the student's.
    Class,
    /// The class is the same, and the student's key is after the last one that the school admits.
    Lottery,
}

/// A student, a choice that they prefer to what they have, and why they do not have it.
#[derive(Clone, Copy, Debug, PartialEq, Eq)]
pub struct ReasonRow {
    pub student: StudentNo,
    pub school: SchoolNo,
    pub reason: Reason,
}

/// Why a key of this class does not get past a cutoff.
fn reason_in(cutoff: Cutoff, class: u8) -> Reason
    ensures { (key : Keyed) → key.class ≡ class → result ≡ reason_by cutoff key }
{
    match cutoff {
        Cutoff::Closed => Reason::Seats,
        Cutoff::Full { key: last } if last.class < class => Reason::Class,
        _ => Reason::Lottery,
    }
}

/// Why a key does not get past a cutoff.
pub fn reason_by(cutoff: Cutoff, key: Key) -> Reason
    ensures { result ≡ reason_by cutoff key }
{
    reason_in(cutoff, key.class)
}

/// How many choices stand before what a student has: all where they have none.
fn held_rank(papers: &FlatPapers, entrant: Entrant) -> usize
    requires { StandsAt papers.now entrant }
    ensures { (a : Matching) → Holds a entrant → result
        ≡ position_or_len (λ s. has a s entrant.student) (choices_of papers.now entrant.student) }
{
    let student = entrant.position as usize;
    let count = papers.classed_choices_at(student).len();
    match entrant.held {
        Some(school) => papers.choice_rank_at(student, school).unwrap_or(count),
        None => count,
    }
}

/// The choices that a student prefers to what they have, best first. The cost is a pass over them.
pub fn missed<'a>(papers: &'a FlatPapers, entrant: &Entrant) -> &'a [ClassedChoice]
    requires { StandsAt papers.now entrant.now }
    ensures { (a : Matching) → Holds a entrant.now → AreMissed papers.now a entrant.now.student result.now }
{
    let choices = papers.classed_choices_at(entrant.position as usize);
    &choices[..held_rank(papers, *entrant)]
}

/// A student's row of a choice, by the rows of all schools in order of entry.
fn row_of(rows: &[CutoffRow], student: StudentNo, choice: &ClassedChoice) -> ReasonRow
    requires { choice.now.position < length rows.now }
    // By whichever papers and matching the rows were made.
    ensures { (m : Market) (a : Matching) (rank : ℕ) → rows.now ≡ rows_in_order m a
        → IsMissed m a student rank choice.now → slice_get (reasons_of m a student) rank ≡ Some result }
{
    let row = rows[choice.position()];
    ReasonRow {
        student,
        school: row.school,
        reason: reason_in(row.cutoff, choice.class()),
    }
}

/// Adds a student's rows, in order of choice, by the rows of all schools in order of entry.
fn push_reasons(
    reasons: &mut Vec<ReasonRow>,
    rows: &[CutoffRow],
    papers: &FlatPapers,
    entrant: &Entrant,
) -> Result<(), AllocError>
    requires rows { length rows.now ≡ length papers.now.schools }
    requires stands { StandsAt papers.now entrant.now }
    // By whichever matching the rows were made.
    ensures { OnOk result ((a : Matching) → rows.now ≡ rows_in_order papers.now a → Holds a entrant.now
        → reasons.new.items ≡ reasons.old.items ++ reasons_of papers.now a entrant.now.student) }
{
    let choices = missed(papers, entrant);
    for choice in choices {
        reasons.push(row_of(rows, entrant.student, choice))?;
    }
    Ok(())
}

/// Why no student has a choice that they prefer to what they have, by the schools that the students have, given in their
/// order of entry: one row for each such choice, the students by rising number, and a student's rows in order of choice. The
/// only error is want of memory. The cost is one pass over the students, a sort of their numbers, and a look-up for each row.
pub fn reason_rows(
    alloc: Global,
    papers: &FlatPapers,
    places: &[Option<SchoolNo>],
) -> Result<Vec<ReasonRow>, AllocError>
    requires { length places.now ≡ length papers.now.students }
    ensures { IfOk result (λ rows. (a : Matching) → ArePlaces papers.now a places.now
        → rows.items ≡ reason_rows papers.now a) }
{
    let rising = rising_entrants(alloc, papers, places)?;
    let in_order = rows_in_order(alloc, papers, places)?;
    let entrants = rising.as_slice();
    let rows = in_order.as_slice();
    let mut reasons = Vec::new(alloc);
    for entrant in entrants {
        push_reasons(&mut reasons, rows, papers, entrant)?;
    }
    Ok(reasons)
}
