//! The rolls of the schools of a round, by position.

ghost use Rattle.std.specs.Prelude.{◌≡◌, ℕ, ◌<◌, ◌≤◌, true, [], Contains, Some, length, slice_get, IfOk, OnOk};
ghost use Rattle.sc_papers.specs.Market.{schools_of, seats_of};
ghost use Rattle.sc_papers.specs.Matching.{Matching};
ghost use Rattle.sc_seats.specs.Roll.{IsAscending};
ghost use Rattle.sc_tallies.specs.Tally.{AreTallies};
ghost use Rattle.sc_engine.specs.RoundView.{OffersAt, RollFits, roll_at, roll_of, AreEmpty};
ghost use Rattle.sc_engine.specs.Rolls.{roll_tally, rolls_of};

use sc_papers::{FlatPapers, Key, MOST_STUDENTS, Seats};
use sc_seats::{HeldKey, Roll};
use sc_tallies::Tally;
use std::alloc::{AllocError, Global};

/// The seats of the school at the position.
pub(super) fn seats_at(papers: &FlatPapers, position: usize) -> Seats
    requires { position < length papers.now.schools }
    ensures { (s : ℕ) → slice_get (schools_of papers.now) position ≡ Some s → result ≡ seats_of papers.now s }
{
    let Some(seats) = papers.seats_at(position) else {
        unreachable!()
    };
    seats
}

/// A roll of its capacity for each school, on which nobody is.
pub(super) fn empty_rolls<R: Roll>(alloc: Global, papers: &FlatPapers) -> Result<Vec<R>, AllocError>
    ensures length { IfOk result (λ rolls. length rolls.items ≡ length papers.now.schools) }
    ensures empty { IfOk result (λ rolls. AreEmpty papers.now (rolls_of R.keys R.seats rolls.items)
        (length papers.now.schools)) }
{
    let mut rolls = Vec::with_capacity(alloc, papers.schools_len())?;
    for position in 0..papers.schools_len() {
        rolls.push(R::with_capacity(alloc, seats_at(papers, position)))?;
    }
    Ok(rolls)
}

/// Whether an offer of a seat of the school at the position would put out the key itself. Most would, and then nothing
/// has to be changed or copied.
#[inline]
pub(super) fn is_refused<R: Roll>(rolls: &Vec<R>, at: usize, key: &Key) -> bool
    requires within { at < length rolls.now.items }
    requires new { ¬ Contains (roll_at (rolls_of R.keys R.seats rolls.now.items) at).keys key.now }
    ensures { result ≡ true → OffersAt (rolls_of R.keys R.seats rolls.now.items)
        (rolls_of R.keys R.seats rolls.now.items) at key.now (Some key.now) }
{
    rolls[at].refuses(key)
}

/// How many keys a roll holds, and the last of them.
fn tally_of<R: Roll>(roll: &R) -> Tally
    ensures tally { result ≡ roll_tally (R.keys roll.now) }
    ensures ascending { IsAscending (R.keys roll.now) }
{
    // A roll holds no more keys than there are seats, which `u32` counts.
    prove!(roll.len() <= roll.capacity().get() as usize);
    Tally {
        held: roll.len() as u32,
        last: roll.worst(),
    }
}

/// How many students have each school, and the last key among them, by the schools' rolls.
pub(super) fn tallies_of<R: Roll>(
    alloc: Global,
    rolls: &Vec<R>,
    papers: &FlatPapers,
) -> Result<Vec<Tally>, AllocError>
    requires { length rolls.now.items ≡ length papers.now.schools }
    // By whichever matching the rolls hold.
    ensures { IfOk result (λ tallies. (a : Matching)
        → ((s : ℕ) → RollFits papers.now a s (roll_of papers.now (rolls_of R.keys R.seats rolls.now.items) s))
        → AreTallies papers.now a tallies.items) }
{
    // This call tells that the papers are well-formed: no school stands twice.
    prove!(papers.students_len() <= MOST_STUDENTS);
    let mut tallies = Vec::with_capacity(alloc, papers.schools_len())?;
    for position in 0..papers.schools_len() {
        let roll = &rolls[position];
        tallies.push(tally_of(roll))?;
    }
    Ok(tallies)
}

/// Offers a seat of the school at the position to the key. Whoever is put out comes with the guess with which they were
/// offered a seat.
pub(super) fn offer_to<R: Roll>(
    rolls: &mut Vec<R>,
    at: usize,
    key: HeldKey,
) -> Result<Option<HeldKey>, AllocError>
    requires within { at < length rolls.old.items }
    requires new { ¬ Contains (roll_at (rolls_of R.keys R.seats rolls.old.items) at).keys key }
    ensures { IfOk result (λ out. OffersAt (rolls_of R.keys R.seats rolls.old.items)
        (rolls_of R.keys R.seats rolls.new.items) at key out) }
{
    let roll = &mut rolls[at];
    let out = roll.offer_held(key)?;
    Ok(out)
}
