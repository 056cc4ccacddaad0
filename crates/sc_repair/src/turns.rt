ghost use Rattle.std.specs.Prelude.{◌≡◌, ◌<◌, Some, length, map, slice_get, IfOk, OnOk, OnErr};
ghost use Rattle.std.specs.List.{range_with_len};
ghost use Rattle.sc_repair.specs.Turns.{TurnsOfEntry, begun_turns, entered, finished_turns, first_turns, left, swapped, AreTurns};

use sc_stamps::Marking;
use std::alloc::{AllocError, Global};
use std::marker::Model;

/// In which order students entered who stand in an order of their own: of each turn, in which one student
/// entered, the position where that student stands, and back.
pub(crate) struct Turns {
    // By turn; `None` where the student of the turn withdrew.
    positions: Vec<Option<usize>>,
    // By position.
    turns: Vec<usize>,
}

impl Drop for Turns {
    fn drop(self) {
        let Turns {
            positions: _,
            turns: _,
        } = self;
    }
}

impl Model for Turns {
    ghost Value = { TurnsOfEntry };

    ghost view = { λ t. record { positions = t.positions.items; turns = t.turns.items } };
}

/// So many turns, each of a student who stands at the position of the same number.
fn own_positions(alloc: Global, count: usize) -> Result<Vec<Option<usize>>, AllocError>
    ensures { IfOk result (λ positions. positions.items ≡ map Some (range_with_len 0 count)) }
{
    (0..count).map(Some).collect(alloc)
}

impl Turns {
    /// So many students who entered in the order in which they stand. The only error is want of memory.
    pub(crate) fn first(alloc: Global, count: usize) -> Result<Self, AllocError>
        ensures { IfOk result (λ turns. turns ≡ first_turns count) }
    {
        let positions = own_positions(alloc, count)?;
        let turns = (0..count).collect(alloc)?;
        Ok(Turns { positions, turns })
    }

    /// How many turns there were.
    pub(crate) fn len(&self) -> usize
        ensures { result ≡ length self.now.positions }
    {
        self.positions.len()
    }

    /// The position of the student of a turn, or `None` where they withdrew.
    pub(crate) fn position(&self, turn: usize) -> Option<usize>
        requires { turn < length self.now.positions }
        ensures { slice_get self.now.positions turn ≡ Some result }
    {
        self.positions[turn]
    }

    /// Lets whoever stands last go.
    fn leave(&mut self)
        requires { AreTurns self.old }
        ensures { self.new ≡ left self.old }
    {
        if let Some(turn) = self.turns.pop() {
            self.positions[turn] = None;
        }
    }

    /// Changes those at two positions for one another. It takes no memory.
    pub(crate) fn swap(&mut self, a: usize, b: usize)
        requires turns { AreTurns self.old }
        requires a { a < length self.old.turns }
        requires b { b < length self.old.turns }
        ensures { self.new ≡ swapped a b self.old }
    {
        let first = self.turns[a];
        let second = self.turns[b];
        self.positions[first] = Some(b);
        self.positions[second] = Some(a);
        self.turns.swap(a, b);
    }

    /// Makes ready for an amendment: a newcomer, who will stand last, gets the next turn. The only error is want of memory, after which the
    /// turns are as before.
    pub(crate) fn begin(&mut self, marking: Marking) -> Result<(), AllocError>
        ensures begun { OnOk result (self.new ≡ begun_turns marking self.old) }
        ensures unchanged { OnErr result (self.new ≡ self.old) }
    {
        if let Marking::Newcomer = marking {
            let turn = self.positions.len();
            let position = self.turns.len();
            self.positions.reserve(1)?;
            self.turns.push(turn)?;
            self.positions.push_reserved(Some(position));
        }
        Ok(())
    }

    /// Ends what `begin` made ready, and answers what making the amendment did: whoever stands last goes where a
    /// student leaves by it, and a newcomer's turn is taken back where it was refused. It takes no memory.
    pub(crate) fn ended(
        &mut self,
        marking: Marking,
        made: Result<(), AllocError>,
    ) -> Result<(), AllocError>
        requires { AreTurns self.old }
        ensures made { result ≡ made }
        ensures finished { OnOk result (self.new ≡ finished_turns marking self.old) }
        ensures as_before { OnErr result
            ((before : TurnsOfEntry) → self.old ≡ begun_turns marking before → self.new ≡ before) }
    {
        match (&made, marking) {
            (Ok(()), Marking::StudentLeaves(_)) => self.leave(),
            (Err(_), Marking::Newcomer) => {
                let _ = self.positions.pop();
                let _ = self.turns.pop();
            }
            _ => {}
        }
        made
    }
}
