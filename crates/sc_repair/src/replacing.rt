//! Gives the students who stand elsewhere after an amendment the schools at which they stand.

ghost use Rattle.std.specs.Prelude.{◌≡◌, ◌++◌, ◌∷◌, ℕ, List, [], OnErr, OnOk};
ghost use Rattle.sc_papers.specs.Assignment.{assigned};
ghost use Rattle.sc_ledgers.specs.Elsewhere.{AreApart};
ghost use Rattle.sc_repair.specs.Replacing.{with_given, with_replaced};

use crate::places::Places;
use sc_ledgers::Stance;
use sc_papers::FlatPapers;
use std::alloc::AllocError;

/// Gives a student who has no school the one at which they stand now, if there is one, at the end of the order.
fn put_one(papers: &FlatPapers, stance: &Stance, places: &mut Places) -> Result<(), AllocError>
    ensures grown { (more : List (ℕ × ℕ)) × (places.new ≡ places.old ++ more) }
    ensures given { OnOk result ((j : ℕ)
        → assigned places.new j ≡ with_given (stance.now ∷ []) (assigned places.old) j) }
{
    // Who stands at none needs nothing here, and is not looked up.
    let Some(school) = stance.new else {
        return Ok(());
    };
    let at = papers.student_position(stance.student).unwrap_or(0);
    if places.get_near(stance.student, at).is_some() {
        return Ok(());
    }
    places.put(stance.student, at, school)?;
    Ok(())
}

/// Gives those of the stances' students who have no school the ones at which they stand now, at the end of the order.
/// Where a growth is refused, some may have been given theirs.
fn put_all(papers: &FlatPapers, stances: &[Stance], places: &mut Places) -> Result<(), AllocError>
    requires apart { AreApart stances.now }
    ensures grown { (more : List (ℕ × ℕ)) × (places.new ≡ places.old ++ more) }
    ensures given { OnOk result ((j : ℕ)
        → assigned places.new j ≡ with_given stances.now (assigned places.old) j) }
{
    for stance in stances {
        put_one(papers, stance, places)?;
    }
    Ok(())
}

/// Gives those of the stances' students who have no school the ones at which they stand now, at the end of the order; one
/// who stands at none stays without. The only error is want of memory, which changes nothing.
///
/// The cost is a look-up of the position of each student who stands at a school now, and of what they have.
pub(crate) fn place_new(
    papers: &FlatPapers,
    stances: &[Stance],
    places: &mut Places,
) -> Result<(), AllocError>
    requires apart { AreApart stances.now }
    ensures grown { OnOk result ((more : List (ℕ × ℕ)) × (places.new ≡ places.old ++ more)) }
    ensures given { OnOk result ((j : ℕ)
        → assigned places.new j ≡ with_given stances.now (assigned places.old) j) }
    ensures unchanged { OnErr result (places.new ≡ places.old) }
{
    let before = places.len();
    if let Err(refused) = put_all(papers, stances, places) {
        places.truncate(before);
        return Err(refused);
    }
    Ok(())
}

/// Gives each of the stances' students who have a school the one at which they stand now in its place, or none. It takes no
/// memory.
///
/// The cost is a look-up of the position of each of the students, and of what they have.
pub(crate) fn move_all(papers: &FlatPapers, stances: &[Stance], places: &mut Places)
    requires apart { AreApart stances.now }
    ensures { (j : ℕ) → assigned places.new j ≡ with_replaced stances.now (assigned places.old) j }
{
    for stance in stances {
        let at = papers.student_position(stance.student).unwrap_or(0);
        places.move_near(stance.student, at, stance.new);
    }
}
