//! A sweep over the turns of a region.

ghost use Rattle.std.specs.Prelude.{◌≡◌, ◌⊎◌, ◌<◌, ◌+◌, ℕ, Bool, List, [], Contains, OnOk, length, true};
ghost use Rattle.sc_papers.specs.Market.{student_at};
ghost use Rattle.sc_papers.specs.declared.rejection.Rejection.{Rejection};
ghost use Rattle.sc_checkpoint.specs.Chains.{logs_in, students_in};
ghost use Rattle.sc_ledgers.specs.Cohort.{Cohort};
ghost use Rattle.sc_ledgers.specs.Renewed.{AreTheirs, IsSweeping, IsUnderWay};

use crate::elsewhere::Stances;
use crate::following::Rows;
use crate::marks::Marks;
use crate::opened::Ledgers;
use crate::patience::Patience;
use crate::proposals::end_place;
use crate::renewal::Renewal;
use crate::sweep::take_turn;
use sc_checkpoint::Segments;
use sc_papers::{FlatPapers, MOST_STUDENTS, Rejection};
use std::alloc::{AllocError, Global};

/// The turn at a position.
pub(crate) fn turn_at(papers: &FlatPapers, position: usize) -> u32
    requires { position < length papers.now.students }
    ensures { result ≡ position }
{
    // This call tells that the papers are within their limits, so that a turn can be counted.
    prove!(papers.students_len() <= MOST_STUDENTS);
    position as u32
}

/// Takes the turn of the student at a position, and notes its segment if it was taken anew. The list for the chain is empty before it
/// and after it. The answer is about how many questions were put to schools, times the schools. After a refused growth all is to be
/// given up.
fn take_next(
    rows: &Rows<'_>,
    ledgers: &mut Ledgers,
    stances: &mut Stances,
    marks: &mut Marks,
    segments: &Segments,
    position: usize,
    renewal: &mut Renewal,
    chain: &mut Vec<Rejection>,
) -> Result<usize, AllocError>
    requires one_each { length ledgers.old.schools.items ≡ length rows.now.papers.now.schools }
    requires none { chain.old.items ≡ [] }
    requires flagged { length marks.old.flags ≡ length rows.now.papers.now.schools }
    requires within { position < length segments.now }
    requires sweeping { (m : Cohort) × (reseated : ℕ → Bool) × (test : ℕ → Bool) × (inner : ℕ → Bool)
        × IsSweeping m rows.now reseated test inner (logs_in segments.now) renewal.old position ledgers.old stances.old marks.old }
    ensures one_each { length ledgers.new.schools.items ≡ length rows.now.papers.now.schools }
    ensures none { OnOk result (chain.new.items ≡ []) }
    ensures here { OnOk result ((p : ℕ) → Contains renewal.new.positions p → Contains renewal.old.positions p ⊎ (p ≡ position)) }
    ensures flagged { OnOk result (length marks.new.flags ≡ length rows.now.papers.now.schools) }
    ensures swept { OnOk result ((m : Cohort) (reseated test inner : ℕ → Bool)
        → IsSweeping m rows.now reseated test inner (logs_in segments.now) renewal.old position ledgers.old stances.old marks.old
        → test (student_at rows.now.papers.now position) ≡ true
        → IsSweeping m rows.now reseated test inner (logs_in segments.now) renewal.new (position + 1) ledgers.new stances.new marks.new) }
    ensures owners { OnOk result (AreTheirs (students_in segments.now) renewal.old → AreTheirs (students_in segments.now) renewal.new) }
{
    let turn = turn_at(rows.papers, position);
    let old = segments.segment(position);
    let end = ledgers.ends.get(position);
    let schools = &mut ledgers.schools;
    let mut asked = old.len().saturating_mul(marks.count());
    if take_turn(rows, schools, stances, marks, turn, old, end, chain)? {
        let end = end_place(rows.papers, position, chain.as_slice());
        ledgers.ends.set(position, end);
        renewal.push(position, segments.student(position), chain.as_slice())?;
        let both = old.len().saturating_add(chain.len());
        asked = both
            .saturating_add(2)
            .saturating_mul(rows.papers.schools_len());
        chain.clear();
    }
    Ok(asked)
}

/// Takes the turns of a region in turn, from the rewind point on: their positions rise. Whatever is taken anew is noted. It ends with an
/// error where a growth is refused, and where it has cost twice as much as a settling from scratch. All is to be given up then.
pub(crate) fn sweep(
    alloc: Global,
    rows: &Rows<'_>,
    ledgers: &mut Ledgers,
    stances: &mut Stances,
    marks: &mut Marks,
    segments: &Segments,
    positions: &[usize],
    renewal: &mut Renewal,
) -> Result<(), AllocError>
    requires one_each { length ledgers.old.schools.items ≡ length rows.now.papers.now.schools }
    requires flagged { length marks.old.flags ≡ length rows.now.papers.now.schools }
    requires start { (m : Cohort) × (reseated : ℕ → Bool) × (test : ℕ → Bool) × (inner : ℕ → Bool)
        × IsUnderWay m rows.now reseated test inner (logs_in segments.now) renewal.old ledgers.old stances.old marks.old positions.now }
    ensures one_each { length ledgers.new.schools.items ≡ length rows.now.papers.now.schools }
    ensures theirs { OnOk result ((p : ℕ) → Contains renewal.new.positions p → Contains renewal.old.positions p ⊎ Contains positions.now p) }
    ensures swept { OnOk result ((m : Cohort) (reseated test inner : ℕ → Bool)
        → IsUnderWay m rows.now reseated test inner (logs_in segments.now) renewal.old ledgers.old stances.old marks.old positions.now
        → IsUnderWay m rows.now reseated test inner (logs_in segments.now) renewal.new ledgers.new stances.new marks.new []) }
    ensures owners { OnOk result (AreTheirs (students_in segments.now) renewal.old → AreTheirs (students_in segments.now) renewal.new) }
{
    let mut chain = Vec::new(alloc);
    let mut patience = Patience::new(rows.papers);
    for position in positions {
        let at = *position;
        let asked = take_next(
            rows, ledgers, stances, marks, segments, at, renewal, &mut chain,
        )?;
        if patience.is_over(asked, rows.papers, ledgers.schools.as_slice()) {
            return Err(AllocError);
        }
    }
    Ok(())
}
