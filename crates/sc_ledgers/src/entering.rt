//! A newcomer, who enters after all others.

ghost use Rattle.std.specs.Prelude.{◌≡◌, ◌<◌, ◌+◌, ℕ, List, [], OnOk, length, slice_get};
ghost use Rattle.sc_papers.specs.Market.{choices_of, student_at};
ghost use Rattle.sc_papers.specs.Restriction.{cut};
ghost use Rattle.sc_papers.specs.declared.rejection.Rejection.{Rejection};
ghost use Rattle.sc_ledgers.specs.Cohort.{cohort};
ghost use Rattle.sc_ledgers.specs.Course.{labels_of};
ghost use Rattle.sc_ledgers.specs.Elsewhere.{HasPut};
ghost use Rattle.sc_ledgers.specs.Ends.{AreEnds};
ghost use Rattle.sc_ledgers.specs.Entered.{HasEntered};
ghost use Rattle.sc_ledgers.specs.Opening.{everybody};
ghost use Rattle.sc_ledgers.specs.Whole.{AreWhole};

use crate::elsewhere::{Stance, Stances};
use crate::following::Rows;
use crate::opened::Ledgers;
use crate::passage::turn_at;
use crate::proposals::end_place;
use crate::sweep::run_turn;
use sc_papers::{FlatPapers, MOST_STUDENTS, Rejection};
use std::alloc::AllocError;

/// Notes that the student at a position stands at their first choice, if they have one. A refused growth changes nothing.
fn stand_first(
    papers: &FlatPapers,
    stances: &mut Stances,
    position: usize,
) -> Result<(), AllocError>
    requires { position < length papers.now.students }
    ensures { OnOk result (HasPut stances.old stances.new (record {
      student = student_at papers.now position;
      old = slice_get (choices_of papers.now (student_at papers.now position)) 0;
      new = slice_get (choices_of papers.now (student_at papers.now position)) 0;
    })) }
{
    let Some(student) = papers.student_at(position) else {
        unreachable!()
    };
    let old = papers.choice_at(position, 0);
    let new = old;
    stances.put(Stance { student, old, new })
}

/// Lets the last student of the papers enter, after all others, whose run the labels are of: their chain runs, each school
/// notes whom it takes, it is kept where the chain ends, and the stances tell who stands elsewhere afterwards; the newcomer
/// has one in any case. The list for the chain is empty before it. After a refused growth the ledgers and the stances are to
/// be given up.
pub fn enter_last(
    papers: &FlatPapers,
    ledgers: &mut Ledgers,
    stances: &mut Stances,
    position: usize,
    chain: &mut Vec<Rejection>,
) -> Result<(), AllocError>
    requires one_each { length ledgers.old.schools.items ≡ length papers.now.schools }
    requires last { length papers.now.students ≡ position + 1 }
    requires none { chain.old.items ≡ [] }
    requires nobody { stances.old ≡ [] }
    requires whole { (segments : List (List Rejection))
        × AreWhole (cohort (cut papers.now position) everybody) segments (labels_of papers.now ledgers.old.schools.items)
        × AreEnds (cut papers.now position) segments ledgers.old.ends }
    ensures one_each { length ledgers.new.schools.items ≡ length papers.now.schools }
    ensures entered { OnOk result ((segments : List (List Rejection))
        → AreWhole (cohort (cut papers.now position) everybody) segments (labels_of papers.now ledgers.old.schools.items)
        → AreEnds (cut papers.now position) segments ledgers.old.ends
        → HasEntered papers.now (student_at papers.now position) segments chain.new.items
        (labels_of papers.now ledgers.new.schools.items) ledgers.new.ends stances.new) }
{
    // This call tells that the papers are well-formed.
    prove!(papers.students_len() <= MOST_STUDENTS);
    let turn = turn_at(papers, position);
    stand_first(papers, stances, position)?;
    let rows = Rows {
        papers,
        amended: None,
        before: &[],
        leaves: false,
    };
    let schools = &mut ledgers.schools;
    run_turn(&rows, schools, stances, turn, chain)?;
    let end = end_place(papers, position, chain.as_slice());
    ledgers.ends.push(end)?;
    Ok(())
}
