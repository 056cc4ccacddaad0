ghost use Rattle.std.specs.Prelude.{◌≡◌, ◌<◌, false, List, ◌∷◌, length, All, Some, IfOk};
ghost use Rattle.std.specs.BinaryHeap.{heap_items, IsHeap};
ghost use Rattle.std.specs.List.Sorted.{IsPermutation};
ghost use Rattle.sc_papers.specs.Key.{is_before, key_cmp};
ghost use Rattle.sc_papers.specs.declared.key.Key.{Key as Priority};
ghost use Rattle.sc_papers.specs.LastKey.{IsLastOf};

use crate::held_key::HeldKey;
use std::alloc::AllocError;
use std::collections::BinaryHeap;
use std::marker::Model;
use std::mem;

/// Keys as a heap with the last of them on top. There is at least one.
#[derive(Drop)]
pub(crate) struct KeyHeap {
    keys: BinaryHeap<HeldKey>,
    // The top, so that an offer that is refused reads no heap.
    last: HeldKey,
}

impl Model for KeyHeap {
    ghost Value = { List Priority };

    ghost view = { λ heap. heap_items heap.keys };

    ghost invariant = { λ heap. IsHeap key_cmp (heap_items heap.keys) × IsLastOf (Some heap.last) (heap_items heap.keys) };
}

/// The last key of a heap.
fn last_of(keys: &BinaryHeap<HeldKey>) -> HeldKey
    requires some { 0 < length (heap_items keys.now) }
    requires heap { IsHeap key_cmp (heap_items keys.now) }
    ensures { IsLastOf (Some result) (heap_items keys.now) }
{
    match keys.peek() {
        Some(last) => last.copy(),
        None => unreachable!(),
    }
}

/// Takes the last key out of a heap and adds another in its room.
fn replace_last(keys: &mut BinaryHeap<HeldKey>, key: HeldKey) -> HeldKey
    requires some { 0 < length (heap_items keys.old) }
    requires heap { IsHeap key_cmp (heap_items keys.old) }
    ensures heap { IsHeap key_cmp (heap_items keys.new) }
    ensures together { IsPermutation (key ∷ heap_items keys.old) (result ∷ heap_items keys.new) }
    ensures last { All (λ held. is_before result held ≡ false) (heap_items keys.old) }
{
    let Some(mut top) = keys.peek_mut() else {
        unreachable!()
    };
    let last = mem::replace(&mut *top, key);
    drop(top);
    last
}

impl KeyHeap {
    /// The heap of these keys, in the memory that they have. The cost is their number.
    pub(crate) fn of(keys: Vec<HeldKey>) -> Self
        requires some { 0 < length keys.items }
        ensures { IsPermutation keys.items result }
    {
        let keys = BinaryHeap::from(keys);
        let last = last_of(&keys);
        KeyHeap { keys, last }
    }

    /// Puts a key in the place of the last one, which it answers. The cost is the logarithm of their number.
    pub(crate) fn replace_last(&mut self, key: HeldKey) -> HeldKey
        ensures together { IsPermutation (key ∷ self.old) (result ∷ self.new) }
        ensures last { All (λ held. is_before result held ≡ false) self.old }
    {
        let out = replace_last(&mut self.keys, key);
        self.last = last_of(&self.keys);
        out
    }

    /// How many keys there are.
    pub(crate) fn len(&self) -> usize
        ensures { result ≡ length self.now }
    {
        self.keys.len()
    }

    /// The last of the keys.
    pub(crate) fn last(&self) -> HeldKey
        ensures { IsLastOf (Some result) self.now }
    {
        self.last.copy()
    }

    /// An equal heap, or the error of a refused growth. The cost is its length.
    pub(crate) fn copy(&self) -> Result<Self, AllocError>
        ensures { IfOk result (λ heap. heap ≡ self.now) }
    {
        Ok(KeyHeap {
            keys: self.keys.clone()?,
            last: self.last.copy(),
        })
    }
}
