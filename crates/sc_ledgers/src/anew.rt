//! The turns of a region, taken anew after an amendment.

ghost use Rattle.std.specs.Prelude.{◌≡◌, ◌<◌, ℕ, Bool, List, Contains, IfOk, IfSome, OnOk, false, get_or, length, true};
ghost use Rattle.sc_papers.specs.Market.{Market};
ghost use Rattle.sc_checkpoint.specs.Chains.{logs_in, students_in};
ghost use Rattle.sc_ledgers.specs.Anew.{EndsAnew, StartsAnew};
ghost use Rattle.sc_ledgers.specs.Course.{labels_of};
ghost use Rattle.sc_ledgers.specs.Renewed.{AreTheirs};
ghost use Rattle.sc_ledgers.specs.declared.ledger.Label.{Label};

use crate::elsewhere::Stances;
use crate::following::Rows;
use crate::marks::Marks;
use crate::opened::Ledgers;
use crate::passage::sweep;
use crate::renewal::Renewal;
use sc_checkpoint::Segments;
use sc_papers::FlatPapers;
use std::alloc::{AllocError, Global};

/// What became of the turns of a region: those that were taken anew, and who stands elsewhere.
#[derive(Drop)]
pub struct Outcome {
    pub renewal: Renewal,
    pub stances: Stances,
}

/// Takes the turns of a region anew, at these positions, where they can differ: those of papers that an amendment changed, of which the
/// segments are still those of the old ones. The labels of who is amended have been struck. The place is that of the school whose seats
/// were changed, if there is one. An error is want of memory, or tells that the turns have cost twice what a settling from scratch costs
/// and were not gone through to the end: the ledgers are then to be given up.
///
/// The cost is a look at each turn's segment and at where it ended, with an offer for each refusal by a school that is looked at; for each
/// turn that differs an offer for each proposal of its old and its new chain, and a look at the schools where somebody stands elsewhere;
/// beside it a byte is cleared for each school.
pub fn take_anew(
    alloc: Global,
    rows: &Rows<'_>,
    ledgers: &mut Ledgers,
    segments: &Segments,
    positions: &[usize],
    place: Option<usize>,
) -> Result<Outcome, AllocError>
    requires one_each { length ledgers.old.schools.items ≡ length rows.now.papers.now.schools }
    requires within { IfSome place (λ p. p < length ledgers.old.schools.items) }
    requires start { (m : Market) × (test : ℕ → Bool) × (inner : ℕ → Bool) × (point : ℕ) × (labels : ℕ → List Label)
        × StartsAnew m rows.now test inner (logs_in segments.now) point labels (labels_of rows.now.papers.now ledgers.old.schools.items) ledgers.old.ends positions.now place }
    ensures one_each { length ledgers.new.schools.items ≡ length rows.now.papers.now.schools }
    ensures anew { IfOk result (λ outcome. (m : Market) (test inner : ℕ → Bool) (point : ℕ) (labels : ℕ → List Label)
        → StartsAnew m rows.now test inner (logs_in segments.now) point labels (labels_of rows.now.papers.now ledgers.old.schools.items) ledgers.old.ends positions.now place
        → EndsAnew m rows.now test (logs_in segments.now) point outcome.renewal (labels_of rows.now.papers.now ledgers.new.schools.items) ledgers.new.ends outcome.stances) }
    ensures owners { IfOk result (λ outcome. AreTheirs (students_in segments.now) outcome.renewal) }
{
    let mut marks = Marks::new(alloc, rows.papers.schools_len(), place)?;
    let mut stances = Stances::of(alloc, rows.amended)?;
    let mut renewal = Renewal::new(alloc)?;
    sweep(
        alloc,
        rows,
        ledgers,
        &mut stances,
        &mut marks,
        segments,
        positions,
        &mut renewal,
    )?;
    Ok(Outcome { renewal, stances })
}
