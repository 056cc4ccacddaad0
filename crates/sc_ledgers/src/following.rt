//! Who stands elsewhere, followed along the entries of a turn in either run.

ghost use Rattle.std.specs.Prelude.{◌≡◌, ◌==◌, ◌+◌, ◌++◌, ℕ, All, Bool, List, Contains, IfOk, OnOk, length, position, slice_get, Some, true};
ghost use Rattle.sc_papers.specs.Market.{choices_of, Market};
ghost use Rattle.sc_papers.specs.Log.{IsValidAfter, IsValidLog};
ghost use Rattle.sc_papers.specs.WellFormed.{WellFormed};
ghost use Rattle.sc_papers.specs.declared.rejection.Rejection.{Rejection};
ghost use Rattle.sc_ledgers.specs.Elsewhere.{is_aside, row_in, AreAmong, HasRows, InStep};

use crate::elsewhere::{Run, Stances};
use crate::proposals::choice_after;
use sc_papers::{FlatPapers, Rejection, SchoolNo, StudentNo};
use std::alloc::AllocError;

/// The rank of a school in a list, from 0, if it is there.
fn rank_in(choices: &[SchoolNo], school: SchoolNo) -> Option<usize>
    ensures { result ≡ position (λ t. t == school) choices.now }
{
    choices.iter().position(|choice| *choice == school)
}

/// The school after this one in a list, if there is one.
fn listed_after(choices: &[SchoolNo], school: SchoolNo) -> Option<SchoolNo>
    ensures { (rank : ℕ) → position (λ t. t == school) choices.now ≡ Some rank → result ≡ slice_get choices.now (rank + 1) }
{
    let rank = rank_in(choices, school)?;
    choices.get(rank + 1).copied()
}

/// The choice after the school that rejected a student who lists it, if there is one.
fn next_listed(papers: &FlatPapers, entry: &Rejection) -> Option<SchoolNo>
    ensures { (rank : ℕ) → position (λ t. t == entry.now.school) (choices_of papers.now entry.now.student) ≡ Some rank
        → result ≡ slice_get (choices_of papers.now entry.now.student) (rank + 1) }
{
    // Where they stand is not known.
    choice_after(papers, 0, entry)
}

/// The rows of the students in either run: those of the papers, but that whoever is amended had other choices in the old one, and
/// perhaps does not enter in the new one.
#[derive(Drop)]
pub struct Rows<'a> {
    pub papers: &'a FlatPapers,
    pub amended: Option<StudentNo>,
    pub before: &'a [SchoolNo],
    pub leaves: bool,
}

/// The choice after the school that rejected a student in a run.
fn next_after(rows: &Rows<'_>, run: Run, entry: &Rejection) -> Option<SchoolNo>
    ensures { (rank : ℕ) → position (λ t. t == entry.now.school) (row_in run rows.now entry.now.student) ≡ Some rank
        → result ≡ slice_get (row_in run rows.now entry.now.student) (rank + 1) }
{
    match run {
        Run::Old if rows.amended == Some(entry.student) => listed_after(rows.before, entry.school),
        _ => next_listed(rows.papers, entry),
    }
}

/// Moves on whom the entries of a turn reject in a run. After a refused growth the stances are to be given up.
pub(crate) fn follow(
    rows: &Rows<'_>,
    stances: &mut Stances,
    run: Run,
    entries: &[Rejection],
) -> Result<(), AllocError>
    ensures kept { OnOk result ((j : ℕ) → is_aside stances.old j ≡ true → is_aside stances.new j ≡ true) }
    ensures among { OnOk result ((test : ℕ → Bool) → All (λ e. test e.student ≡ true) entries.now
        → AreAmong test stances.old → AreAmong test stances.new) }
    ensures followed { OnOk result ((m n : Market) (log other : List Rejection) → WellFormed m → HasRows m (row_in run rows.now)
        → IsValidLog m log → IsValidAfter m log entries.now
        → InStep run m n log other stances.old → InStep run m n (log ++ entries.now) other stances.new) }
{
    for entry in entries {
        let next = next_after(rows, run, entry);
        stances.move_on(run, entry, next)?;
    }
    Ok(())
}
