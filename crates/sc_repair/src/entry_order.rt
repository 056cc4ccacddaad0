//! Papers and stamps whose students stand in an order of their own, and the turns in which they entered.

ghost use Rattle.std.specs.Prelude.{◌≡◌, ◌<◌, None, Some, length, IfSome, OnErr, OnOk};
ghost use Rattle.sc_papers.specs.EntryOrder.{with_swapped_students};
ghost use Rattle.sc_papers.specs.Verdict.{after, verdict};
ghost use Rattle.sc_papers.specs.declared.stamp.TheConstants.Stamp.{GREATEST};
ghost use Rattle.sc_stamps.specs.Stamps.{stamps_after, with_swapped_stamps};
ghost use Rattle.sc_repair.specs.Turns.{last_papers, last_stamps, last_turns, papers_in_turn, position_of_leaver, stamps_in_turn, swapped, AreInTurn};

use crate::stamping::ended;
use crate::turns::Turns;
use sc_papers::{Amendment, Papers};
use sc_stamps::{Marking, Stamps, marking_of};
use std::alloc::AllocError;

/// Makes an amendment of papers that nothing is said against, and of their stamps. The only error is want of memory, after which both are as before.
pub(crate) fn make(
    papers: &mut Papers,
    stamps: &mut Stamps,
    amendment: Amendment,
) -> Result<(), AllocError>
    requires allowed { verdict papers.old amendment ≡ None }
    requires room { stamps.old.accepted < GREATEST }
    ensures papers { OnOk result (papers.new ≡ after papers.old amendment) }
    ensures stamps { OnOk result (stamps.new ≡ stamps_after papers.old amendment stamps.old) }
    ensures papers_stay { OnErr result (papers.new ≡ papers.old) }
    ensures stamps_stay { OnErr result (stamps.new ≡ stamps.old) }
{
    let marking = marking_of(papers, &amendment);
    stamps.begin(marking)?;
    let made = papers.apply_allowed(amendment);
    ended(stamps, marking, made)
}

/// Changes the students at two positions for one another, with their stamps and their turns. It takes no memory. In
/// constant time.
fn swap_students(papers: &mut Papers, stamps: &mut Stamps, turns: &mut Turns, a: usize, b: usize)
    requires in_turn { AreInTurn turns.old papers.old stamps.old }
    requires a { a < length papers.old.students }
    requires b { b < length papers.old.students }
    ensures papers { papers.new ≡ with_swapped_students papers.old a b }
    ensures stamps { stamps.new ≡ with_swapped_stamps stamps.old a b }
    ensures turns { turns.new ≡ swapped a b turns.old }
{
    if a != b {
        papers.swap_students(a, b);
        stamps.swap_students(a, b);
        turns.swap(a, b);
    }
}

/// The position of the student who leaves by an amendment, if there is one.
pub(crate) fn position_of_leaver(marking: Marking) -> Option<usize>
    ensures { result ≡ position_of_leaver marking }
{
    match marking {
        Marking::StudentLeaves(position) => position,
        Marking::Newcomer | Marking::StudentStays(_) | Marking::School(_) => None,
    }
}

/// Puts the student at a position last, if there is one, so that nobody has to move up when they go. It takes no
/// memory. In constant time.
pub(crate) fn put_last(
    papers: &mut Papers,
    stamps: &mut Stamps,
    turns: &mut Turns,
    leaver: Option<usize>,
)
    requires in_turn { AreInTurn turns.old papers.old stamps.old }
    requires there { IfSome leaver (λ position. position < length papers.old.students) }
    ensures papers { papers.new ≡ last_papers leaver papers.old }
    ensures stamps { stamps.new ≡ last_stamps leaver stamps.old }
    ensures turns { turns.new ≡ last_turns leaver turns.old }
{
    if let Some(position) = leaver {
        let last = papers.students_len() - 1;
        swap_students(papers, stamps, turns, position, last);
    }
}

/// Puts the students in order of entry, and their stamps with them. It takes no memory. One pass over the turns.
pub(crate) fn put_in_order(papers: &mut Papers, stamps: &mut Stamps, turns: &mut Turns)
    requires { AreInTurn turns.old papers.old stamps.old }
    ensures papers { papers.new ≡ papers_in_turn turns.old.positions papers.old }
    ensures stamps { stamps.new ≡ stamps_in_turn turns.old.positions stamps.old }
{
    let mut place = 0;
    for turn in 0..turns.len() {
        if let Some(position) = turns.position(turn) {
            swap_students(papers, stamps, turns, place, position);
            place += 1;
        }
    }
}
