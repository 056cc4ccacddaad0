//! Students' numbers in order of entry, and a table of where each of them stands.

ghost use Rattle.std.specs.Prelude.{◌≡◌, true, Some, map, nat_eq, position};
ghost use Rattle.std.specs.List.{list_any};
ghost use Rattle.sc_papers.specs.NumberTable.{moved};

use crate::flat_papers::order::{move_item, swap_items};
use crate::seeded_hash::SeededHash;
use indexmap::IndexSet;
use sc_lottery::StudentNumber;
use std::alloc::{AllocError, Global};
use std::marker::Model;

/// Different numbers in order of entry, and where each of them stands.
pub(crate) struct NumberTable {
    order: Vec<StudentNumber>,
    // The same numbers, each found by its hash. They stand in any order, so that one that goes moves one other at most.
    slots: IndexSet<StudentNumber, SeededHash>,
    // Where the number of each slot stands in the order of entry.
    positions: Vec<u32>,
}

impl Drop for NumberTable {
    fn drop(self) {
        let NumberTable {
            order: _,
            slots: _,
            positions: _,
        } = self;
    }
}

impl Model for NumberTable {
    ghost use Rattle.std.specs.Prelude.{ℕ, List};
    ghost use Rattle.sc_papers.specs.NumberTable.{IsTable};

    ghost Value = { List ℕ };

    ghost view = { λ t. t.order.items };

    ghost invariant = { λ t. IsTable t.order.items t.slots.keys t.positions.items };
}

/// The slot of a number that has one.
fn slot_of(slots: &IndexSet<StudentNumber, SeededHash>, number: StudentNumber) -> usize
    requires { list_any (nat_eq number) slots.now.keys ≡ true }
    ensures { position (nat_eq number) slots.now.keys ≡ Some result }
{
    let Some(slot) = slots.get_index_of(&number) else {
        unreachable!()
    };
    slot
}

/// Where what stands at a position stands once what stands at one position has moved to another one.
fn moved(position: u32, from: u32, to: u32) -> u32
    ensures { result ≡ moved from to position }
{
    if position == from {
        return to;
    }
    let taken_out = if from < position {
        position - 1
    } else {
        position
    };
    if to <= taken_out {
        taken_out + 1
    } else {
        taken_out
    }
}

/// Moves on what stands at each of these positions, once what stands at one position has moved to another one.
fn renumber(positions: &mut Vec<u32>, from: u32, to: u32)
    ensures { positions.new.items ≡ map (moved from to) positions.old.items }
{
    for position in positions.iter_mut() {
        *position = moved(*position, from, to);
    }
}

impl NumberTable {
    ghost use Rattle.std.specs.Prelude.{◌≡◌, ◌<◌, ◌++◌, ◌∷◌, [], false, length, nat_eq, position, remove, swap, IfOk};
    ghost use Rattle.std.specs.List.{IsDistinct, list_any};
    ghost use Rattle.indexmap.specs.IndexMap.{move_index};
    ghost use Rattle.sc_papers.specs.Change.{ChangesTo};

    /// No numbers. It takes no memory.
    pub(crate) fn new(alloc: Global, hash: SeededHash) -> Self
        ensures { result ≡ [] }
    {
        NumberTable {
            order: Vec::new(alloc),
            slots: IndexSet::with_hasher(alloc, hash),
            positions: Vec::new(alloc),
        }
    }

    /// A table of different numbers, with the room that their list has, or the error of a refused growth.
    pub(crate) fn from_list(
        numbers: &Vec<StudentNumber>,
        hash: SeededHash,
    ) -> Result<Self, AllocError>
        requires { IsDistinct nat_eq numbers.now.items }
        ensures { IfOk result (λ table. table ≡ numbers.now.items) }
    {
        let mut table = NumberTable::new(*numbers.allocator(), hash);
        table.reserve(numbers.capacity())?;
        for number in numbers.iter() {
            table.push(*number)?;
        }
        Ok(table)
    }

    /// Where a number stands. In constant time.
    pub(crate) fn position(&self, number: StudentNumber) -> Option<usize>
        ensures { result ≡ position (nat_eq number) self.now }
    {
        let slot = self.slots.get_index_of(&number)?;
        Some(self.positions[slot] as usize)
    }

    /// Makes room for so many more. The numbers stay, also where the growth is refused.
    pub(crate) fn reserve(&mut self, count: usize) -> Result<(), AllocError>
        ensures { ChangesTo self.old self.new self.old result }
    {
        self.order.reserve(count)?;
        self.slots.reserve(count)?;
        self.positions.reserve(count)
    }

    /// Puts a number last that is not there. A refused growth leaves all as it was.
    pub(crate) fn push(&mut self, number: StudentNumber) -> Result<(), AllocError>
        requires { list_any (nat_eq number) self.old ≡ false }
        ensures { ChangesTo self.old self.new (self.old ++ number ∷ []) result }
    {
        let position = self.order.len();
        // A position has 32 bits.
        if position > u32::MAX as usize {
            return Err(AllocError);
        }
        self.order.reserve(1)?;
        self.positions.reserve(1)?;
        let _ = self.slots.insert(number)?;
        self.order.push_reserved(number);
        self.positions.push_reserved(position as u32);
        Ok(())
    }

    /// Moves the number at one position to another one, and those between by one position. It takes no memory. One pass
    /// over the positions, and none where the two are one.
    pub(crate) fn move_index(&mut self, from: usize, to: usize)
        requires from { from < length self.old }
        requires to { to < length self.old }
        ensures { self.new ≡ move_index self.old from to }
    {
        if from == to {
            return;
        }
        move_item(&mut self.order, from, to);
        renumber(&mut self.positions, from as u32, to as u32);
    }

    /// Changes the numbers at two positions for one another. It takes no memory. In constant time.
    pub(crate) fn swap(&mut self, a: usize, b: usize)
        requires a { a < length self.old }
        requires b { b < length self.old }
        ensures { self.new ≡ swap self.old a b }
    {
        let slot_a = slot_of(&self.slots, self.order[a]);
        let slot_b = slot_of(&self.slots, self.order[b]);
        // No number has two slots, as this call tells.
        let _ = self.slots.len();
        self.positions.swap(slot_a, slot_b);
        swap_items(&mut self.order, a, b);
    }

    /// Takes the last number out. In constant time.
    fn pop(&mut self) -> StudentNumber
        requires { 0 < length self.old }
        ensures { self.old ≡ self.new ++ result ∷ [] }
    {
        let Some(number) = self.order.pop() else {
            unreachable!()
        };
        let slot = slot_of(&self.slots, number);
        let _ = self.slots.swap_remove_index(slot);
        let _ = self.positions.swap_remove(slot);
        number
    }

    /// Removes the number at a position. Those behind it move up: one pass over the positions, and none for the last.
    pub(crate) fn remove(&mut self, position: usize)
        requires { position < length self.old }
        ensures { self.new ≡ remove self.old position }
    {
        let last = self.order.len() - 1;
        self.move_index(position, last);
        let _ = self.pop();
    }
}

impl Clone for NumberTable {
    ghost is_clone = { λ x y. y ≡ x };

    fn clone(&self) -> Result<Self, AllocError> {
        Ok(NumberTable {
            order: self.order.clone()?,
            slots: self.slots.clone()?,
            positions: self.positions.clone()?,
        })
    }
}
