//! Where the records of students lie, or their rows, in order of entry.

ghost use Rattle.std.specs.Prelude.{◌≡◌, ◌<◌, ◌≤◌, ◌+◌, ◌^◌, length, map, remove, IfOk};
ghost use Rattle.std.specs.List.{range_with_len};
ghost use Rattle.sc_papers.specs.Slots.{in_order, new_slot, AreSlots};

use std::alloc::{AllocError, Global};

/// The slots of so many items that lie in order of entry.
pub(crate) fn first_slots(alloc: Global, count: usize) -> Result<Vec<u32>, AllocError>
    requires { count ≤ 2 ^ 32 }
    ensures { IfOk result (λ slots. slots.items ≡ range_with_len 0 count) }
{
    let mut slots = Vec::with_capacity(alloc, count)?;
    for slot in 0..count {
        slots.push(slot as u32)?;
    }
    Ok(slots)
}

/// The slot of what lay in this one, once what lay in the last slot is in one that was free.
fn new_slot(slot: u32, last: u32, free: u32) -> u32
    ensures { result ≡ new_slot last free slot }
{
    if slot == last { free } else { slot }
}

/// Notes that what lay in the last slot is in one that was free. One pass over the slots, and none where both are one.
fn redirect(slots: &mut Vec<u32>, last: u32, free: u32)
    ensures { slots.new.items ≡ map (new_slot last free) slots.old.items }
{
    if last == free {
        return;
    }
    for slot in slots.iter_mut() {
        *slot = new_slot(*slot, last, free);
    }
}

/// Removes the item of a position. The slots of those behind it move up, and the last item comes into the slot that is
/// free: four bytes a slot move, and one pass over the slots notes where the last item is, unless it is the one that goes.
pub(crate) fn remove_slotted<T: Drop>(slots: &mut Vec<u32>, items: &mut Vec<T>, position: usize)
    requires slots { AreSlots slots.old.items (length items.old.items) }
    requires few { length items.old.items ≤ 2 ^ 32 }
    requires position { position < length slots.old.items }
    ensures slots { AreSlots slots.new.items (length items.new.items) }
    ensures items { (none : T) → in_order none slots.new.items items.new.items
        ≡ remove (in_order none slots.old.items items.old.items) position }
    ensures fewer { length items.new.items + 1 ≡ length items.old.items }
{
    let free = slots.remove(position);
    let _ = items.swap_remove(free as usize);
    redirect(slots, items.len() as u32, free);
}
