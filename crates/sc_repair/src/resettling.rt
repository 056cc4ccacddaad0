//! Settling a region anew, by the ledgers.

ghost use Rattle.std.specs.Prelude.{◌≡◌, ◌<◌, ℕ, Bool, List, IfSome, OnErr, OnOk, length};
ghost use Rattle.sc_papers.specs.Market.{Market};
ghost use Rattle.sc_checkpoint.specs.Chains.{logs_in};
ghost use Rattle.sc_ledgers.specs.Anew.{StartsAnew};
ghost use Rattle.sc_ledgers.specs.Course.{labels_of};
ghost use Rattle.sc_ledgers.specs.declared.ledger.Label.{Label};
ghost use Rattle.sc_repair.specs.Anew.{HavePlaces, IsSettledAnew};

use crate::places::Places;
use crate::replacing::{move_all, place_new};
use sc_checkpoint::Segments;
use sc_ledgers::{Ledgers, Rows, take_anew};
use std::alloc::{AllocError, Global};

/// Settles a region anew, of papers that an amendment changed, at the positions of its students from the rewind point on: their turns are
/// taken anew where they can differ, whoever stands elsewhere then is given that place, and the new segments take the place of the old
/// ones. The labels of who is amended have been struck. An error is one of `take_anew`, or want of memory, and changes neither places
/// nor segments; the ledgers are then to be given up.
///
/// The cost is that of `take_anew`, two look-ups by number for each student who stands elsewhere, and that of the new segments.
pub(crate) fn resettle(
    alloc: Global,
    rows: &Rows<'_>,
    ledgers: &mut Ledgers,
    positions: &[usize],
    place: Option<usize>,
    places: &mut Places,
    segments: &mut Segments,
) -> Result<(), AllocError>
    requires one_each { length ledgers.old.schools.items ≡ length rows.now.papers.now.schools }
    requires within { IfSome place (λ p. p < length ledgers.old.schools.items) }
    requires start { (m : Market) × (test : ℕ → Bool) × (inner : ℕ → Bool) × (point : ℕ) × (labels : ℕ → List Label)
        × StartsAnew m rows.now test inner (logs_in segments.old) point labels (labels_of rows.now.papers.now ledgers.old.schools.items) ledgers.old.ends positions.now place }
    ensures one_each { length ledgers.new.schools.items ≡ length rows.now.papers.now.schools }
    ensures anew { OnOk result ((m : Market) (test inner : ℕ → Bool) (point : ℕ) (labels : ℕ → List Label)
        → StartsAnew m rows.now test inner (logs_in segments.old) point labels (labels_of rows.now.papers.now ledgers.old.schools.items) ledgers.old.ends positions.now place
        → HavePlaces m (logs_in segments.old) places.old
        → IsSettledAnew rows.now test point segments.old segments.new places.old places.new
        (labels_of rows.now.papers.now ledgers.new.schools.items) ledgers.new.ends) }
    ensures unchanged { OnErr result ((places.new ≡ places.old) × (segments.new ≡ segments.old)) }
{
    let outcome = take_anew(alloc, rows, ledgers, segments, positions, place)?;
    let stances = outcome.stances.as_slice();
    let before = places.len();
    place_new(rows.papers, stances, places)?;
    if let Err(refused) = outcome.renewal.put_in(segments) {
        places.truncate(before);
        return Err(refused);
    }
    move_all(rows.papers, stances, places);
    Ok(())
}
