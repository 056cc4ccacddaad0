ghost use Rattle.std.specs.Prelude.{◌≡◌, false};
ghost use Rattle.std.specs.Option.{option_map_or};
ghost use Rattle.sc_papers.specs.Key.{is_before};

use crate::held::Held;
use crate::held_key::HeldKey;
use crate::roll::Roll;
use sc_papers::{Key, Seats};
use std::alloc::{AllocError, Global};
use std::marker::Model;

/// A roll kept as a list until it puts out a key that it held, and from then on as a heap with the last key on top.
/// An offer with a free seat costs a comparison and the room of a key, which the first one takes for several, and one that
/// is refused a comparison. One that puts out another key costs the logarithm of the seats, and the first such one the
/// seats, since it makes the heap.
/// A full roll takes no memory for an offer.
pub struct HeapRoll {
    alloc: Global,
    held: Held,
    capacity: Seats,
}

impl Drop for HeapRoll {
    fn drop(self) {
        let HeapRoll {
            alloc: _,
            held: _,
            capacity: _,
        } = self;
    }
}

impl Model for HeapRoll {
    ghost use Rattle.sc_seats.specs.Roll.{RollView};

    ghost Value = { RollView };

    ghost use Rattle.sc_seats.specs.Heap.{view_of, IsKept};

    ghost view = { view_of };

    ghost invariant = { IsKept };
}

/// For how many keys a roll takes room when its first key comes, unless it has few seats. A block of so many the C
/// library's allocator gives back whole. Of smaller ones it keeps some of each size for the next that are asked for, and
/// as these lie among the others, what many rolls let go could not serve again in large pieces.
const FIRST_ROOM: usize = 65;

/// How many seats are no longer few.
const MANY_SEATS: usize = 16;

/// For how many keys a roll of so many seats takes room when its first key comes.
fn first_room(capacity: Seats) -> usize {
    match capacity.get() as usize {
        few @ 0..MANY_SEATS => few,
        _ => FIRST_ROOM,
    }
}

/// Whether the key is ahead of the last of those held, if there is one.
fn is_ahead_of_last(last: &Option<HeldKey>, key: &HeldKey) -> bool
    ensures { result ≡ option_map_or (is_before key.now) last.now false }
{
    match last {
        Some(last) => key.is_ahead_of(last),
        None => false,
    }
}

impl Roll for HeapRoll {
    ghost keys = { λ r. r.keys };

    ghost seats = { λ r. r.seats };

    fn with_capacity(alloc: Global, capacity: Seats) -> Self {
        HeapRoll {
            alloc,
            held: Held::Nobody,
            capacity,
        }
    }

    fn offer_held(&mut self, key: HeldKey) -> Result<Option<HeldKey>, AllocError> {
        if self.held.len() < self.capacity.get() as usize {
            self.held.add(self.alloc, first_room(self.capacity), key)?;
            return Ok(None);
        }
        if is_ahead_of_last(&self.held.last(), &key) {
            return Ok(Some(self.held.replace_last(key)));
        }
        Ok(Some(key))
    }

    fn refuses(&self, key: &Key) -> bool {
        self.held.len() >= self.capacity.get() as usize
            && !is_ahead_of_last(&self.held.last(), &HeldKey::of(*key, 0))
    }

    fn worst(&self) -> Option<Key> {
        self.held.last().map(|last| last.key())
    }

    fn len(&self) -> usize {
        self.held.len()
    }

    fn capacity(&self) -> Seats {
        self.capacity
    }

    fn copy(&self) -> Result<Self, AllocError> {
        Ok(HeapRoll {
            alloc: self.alloc,
            held: self.held.copy()?,
            capacity: self.capacity,
        })
    }
}
