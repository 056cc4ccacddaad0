//! Items of the students, as their rows and their records, in order of entry.

ghost use Rattle.std.specs.Prelude.{◌≡◌, IfOk};
ghost use Rattle.sc_papers.specs.Ordered.{slot_at, Reaches};

use crate::flat_papers::numbers::Finding;
use crate::flat_papers::order::{move_item, swap_items};
use crate::record_slots::{first_slots, remove_slotted};
use crate::student_row::StudentRow;
use std::alloc::{AllocError, Global};
use std::marker::Model;
use std::mem;

/// Items in order of entry.
#[derive(Drop)]
pub(crate) struct Ordered<T: Drop> {
    items: Vec<T>,
    // Where the item of each position lies, so that one that goes or moves takes four bytes an item behind it along,
    // and not an item. Without an order the items lie in order of entry: so it is with papers that are not amended.
    // No memory may be taken for one where a student goes, so papers that are amended have one from the first.
    order: Option<Vec<u32>>,
}

impl<T: Drop> Model for Ordered<T> {
    ghost use Rattle.std.specs.Prelude.{◌-◌, length};
    ghost use Rattle.sc_papers.specs.Ordered.{Kept, items_in, room_in, IsOrder};

    ghost Value = { Kept T };

    ghost view = { λ o. record { items = items_in o.order o.items.items; room = room_in o.order (o.items.cap - o.items.len) } };

    ghost invariant = { λ o. IsOrder o.order (length o.items.items) };
}

/// The slot of the item at a position.
#[inline]
fn slot_at(order: &Option<Vec<u32>>, position: usize) -> usize
    requires { Reaches order.now position }
    ensures { result ≡ slot_at order.now position }
{
    match order {
        None => position,
        Some(order) => order[position] as usize,
    }
}

impl Ordered<StudentRow> {
    ghost use Rattle.std.specs.Prelude.{◌≡◌, IfOk};

    /// Equal rows, kept alike, or the error of a refused growth.
    pub(crate) fn copy(&self) -> Result<Self, AllocError>
        ensures { IfOk result (λ copy. copy.items ≡ self.now.items) }
    {
        let order = match &self.order {
            None => None,
            Some(order) => Some(order.clone()?),
        };
        match self.items.clone() {
            Ok(items) => Ok(Ordered { items, order }),
            Err(refused) => {
                drop(order);
                Err(refused)
            }
        }
    }
}

impl<T: Drop> Ordered<T> {
    ghost use Rattle.std.specs.Prelude.{◌≡◌, ◌<◌, ◌≤◌, ◌^◌, ◌++◌, ◌∷◌, ◌==◌, [], length, remove, slice_get, slice_set, swap, Some, IfOk, OnOk};
    ghost use Rattle.std.specs.Option.{option_copied};
    ghost use Rattle.indexmap.specs.IndexMap.{move_index};

    /// No items, with an order where the students are found by a table, as in papers that are amended. It takes no memory.
    pub(crate) fn new(finding: Finding, alloc: Global) -> Self
        ensures { result.items ≡ [] }
    {
        Ordered {
            items: Vec::new(alloc),
            order: match finding {
                Finding::ByOrder => None,
                Finding::ByTable => Some(Vec::new(alloc)),
            },
        }
    }

    /// Items that lie in order of entry, with an order of them. The only error is want of memory.
    pub(crate) fn laid(items: Vec<T>) -> Result<Self, AllocError>
        requires { length items.items ≤ 2 ^ 32 }
        ensures { IfOk result (λ made. made.items ≡ items.items) }
    {
        let mut made = Ordered { items, order: None };
        match made.make_order() {
            Ok(()) => Ok(made),
            Err(refused) => {
                drop(made);
                Err(refused)
            }
        }
    }

    /// What the items take their memory from.
    pub(crate) fn allocator(&self) -> Global {
        *self.items.allocator()
    }

    /// How many items there are.
    pub(crate) fn len(&self) -> usize
        ensures { result ≡ length self.now.items }
    {
        self.items.len()
    }

    /// Whether there are none.
    pub(crate) fn is_empty(&self) -> bool
        ensures { result ≡ (length self.now.items == 0) }
    {
        self.items.is_empty()
    }

    /// The item at a position. In constant time.
    #[inline]
    pub(crate) fn at(&self, position: usize) -> &T
        requires { position < length self.now.items }
        ensures { slice_get self.now.items position ≡ Some result.now }
    {
        &self.items[slot_at(&self.order, position)]
    }

    /// The item at a position, or `None` past the last one. In constant time.
    #[inline]
    pub(crate) fn get(&self, position: usize) -> Option<&T>
        ensures { option_copied result ≡ slice_get self.now.items position }
    {
        if position < self.len() {
            Some(self.at(position))
        } else {
            None
        }
    }

    /// Makes room for so many more. The items stay, also where the growth is refused.
    pub(crate) fn reserve(&mut self, count: usize) -> Result<(), AllocError>
        ensures items { self.new.items ≡ self.old.items }
        ensures room { OnOk result (count ≤ self.new.room) }
    {
        if let Some(order) = &mut self.order {
            order.reserve(count)?;
        }
        self.items.reserve(count)
    }

    /// Puts an item last, for which there is room.
    pub(crate) fn push_reserved(&mut self, item: T)
        requires room { 0 < self.old.room }
        requires few { length self.old.items < 2 ^ 32 }
        ensures { self.new.items ≡ self.old.items ++ item ∷ [] }
    {
        match &mut self.order {
            None => self.items.push_reserved(item),
            Some(order) => {
                order.push_reserved(self.items.len() as u32);
                self.items.push_reserved(item);
            }
        }
    }

    /// Puts another item at a position, and answers the one that stood there.
    pub(crate) fn replace(&mut self, position: usize, item: T) -> T
        requires { position < length self.old.items }
        ensures put { self.new.items ≡ slice_set self.old.items position item }
        ensures before { slice_get self.old.items position ≡ Some result }
    {
        let slot = slot_at(&self.order, position);
        mem::replace(&mut self.items[slot], item)
    }

    /// Makes an order of items that lie in order of entry without one. A refused growth leaves them as they were.
    pub(crate) fn make_order(&mut self) -> Result<(), AllocError>
        requires { length self.old.items ≤ 2 ^ 32 }
        ensures { self.new.items ≡ self.old.items }
    {
        if self.order.is_none() {
            self.order = Some(first_slots(*self.items.allocator(), self.items.len())?);
        }
        Ok(())
    }

    /// Moves the item at one position to another one, and those between by one position. It takes no memory. The cost is
    /// that of the shift: with an order, of four bytes an item.
    pub(crate) fn move_index(&mut self, from: usize, to: usize)
        requires from { from < length self.old.items }
        requires to { to < length self.old.items }
        ensures { self.new.items ≡ move_index self.old.items from to }
    {
        match &mut self.order {
            None => move_item(&mut self.items, from, to),
            Some(order) => move_item(order, from, to),
        }
    }

    /// Changes the items at two positions for one another. It takes no memory. In constant time.
    pub(crate) fn swap(&mut self, a: usize, b: usize)
        requires a { a < length self.old.items }
        requires b { b < length self.old.items }
        ensures { self.new.items ≡ swap self.old.items a b }
    {
        // The items change places and the slots stay, so that the item of the last position stays the last.
        let slot_a = slot_at(&self.order, a);
        let slot_b = slot_at(&self.order, b);
        swap_items(&mut self.items, slot_a, slot_b);
    }

    /// Removes the item at a position. Those behind it move up: with an order, four bytes of each, after which one pass over
    /// the order notes that the last item has moved, unless it is the one that goes.
    pub(crate) fn remove(&mut self, position: usize)
        requires { position < length self.old.items }
        ensures { self.new.items ≡ remove self.old.items position }
    {
        match &mut self.order {
            None => {
                let _ = self.items.remove(position);
            }
            Some(order) => remove_slotted(order, &mut self.items, position),
        }
    }
}
