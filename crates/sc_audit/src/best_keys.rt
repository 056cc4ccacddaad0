ghost use Rattle.std.specs.Prelude.{◌≡◌, ◌<◌, true, false, List, [], ◌∷◌, length, All, OnOk, OnErr};
ghost use Rattle.std.specs.BinaryHeap.{heap_items, IsHeap};
ghost use Rattle.std.specs.List.Sorted.{IsPermutation};
ghost use Rattle.std.specs.Option.{option_map_or};
ghost use Rattle.sc_papers.specs.Key.{is_before, key_cmp};
ghost use Rattle.sc_papers.specs.LastKey.{IsLastOf};

use sc_papers::{Key, Seats};
use std::alloc::{AllocError, Global};
use std::collections::BinaryHeap;
use std::marker::Model;

/// The best keys that a school was offered, as many as it has seats.
pub(crate) struct BestKeys {
    keys: BinaryHeap<Key>,
    seats: Seats,
    // The last of the keys, if there is one, so that an offer that is refused reads no heap.
    last: Option<Key>,
}

impl Drop for BestKeys {
    fn drop(self) {
        let BestKeys {
            keys: _,
            seats: _,
            last: _,
        } = self;
    }
}

impl Model for BestKeys {
    ghost use Rattle.sc_audit.specs.BestKeys.{BestView, view_of, IsBest};

    ghost Value = { BestView };

    ghost view = { view_of };

    ghost invariant = { IsBest };
}

/// Adds a key.
fn add(keys: &mut BinaryHeap<Key>, key: Key) -> Result<(), AllocError>
    ensures added { OnOk result (IsPermutation (key ∷ heap_items keys.old) (heap_items keys.new)) }
    ensures heap { OnOk result (IsHeap key_cmp (heap_items keys.old) → IsHeap key_cmp (heap_items keys.new)) }
    ensures unchanged { OnErr result (heap_items keys.new ≡ heap_items keys.old) }
{
    keys.push(key)?;
    Ok(())
}

/// Puts a key in the place of the last, which it answers.
fn replace_last(keys: &mut BinaryHeap<Key>, key: Key) -> Key
    requires some { 0 < length (heap_items keys.old) }
    requires heap { IsHeap key_cmp (heap_items keys.old) }
    ensures heap { IsHeap key_cmp (heap_items keys.new) }
    ensures together { IsPermutation (key ∷ heap_items keys.old) (result ∷ heap_items keys.new) }
    ensures last { All (λ kept. is_before result kept ≡ false) (heap_items keys.old) }
{
    let Some(mut top) = keys.peek_mut() else {
        unreachable!()
    };
    let last = *top;
    *top = key;
    drop(top);
    last
}

/// The last of the keys, if there is one.
fn last_of(keys: &BinaryHeap<Key>) -> Option<Key>
    requires { IsHeap key_cmp (heap_items keys.now) }
    ensures { IsLastOf result (heap_items keys.now) }
{
    keys.peek().copied()
}

/// Whether the key is ahead of the last one, if there is one.
fn is_ahead_of_last(key: &Key, last: &Option<Key>) -> bool
    ensures { result ≡ option_map_or (is_before key.now) last.now false }
{
    match last {
        Some(last) => key.is_ahead_of(last),
        None => false,
    }
}

impl BestKeys {
    ghost use Rattle.std.specs.Prelude.{◌≡◌, [], Option, OnOk};
    ghost use Rattle.std.specs.List.{list_all};
    ghost use Rattle.sc_papers.specs.Key.{is_before};
    ghost use Rattle.sc_papers.specs.declared.key.Key.{Key as Priority};
    ghost use Rattle.sc_audit.specs.Offers.{Offers};

    /// Nothing was offered yet to a school of so many seats. It takes no memory: `offer` takes it.
    pub(crate) fn none(alloc: Global, seats: Seats) -> Self
        ensures keys { result.keys ≡ [] }
        ensures seats { result.seats ≡ seats }
    {
        BestKeys {
            keys: BinaryHeap::new(alloc),
            seats,
            last: None,
        }
    }

    /// Offers one of the seats to a key: the best are kept, and the last of all is not where they are more than the
    /// seats. The cost is the logarithm of the seats, and a comparison where the key itself is the last.
    pub(crate) fn offer(&mut self, key: Key) -> Result<(), AllocError>
        ensures offered { OnOk result ((out : Option Priority)
            × Offers self.old.keys self.old.seats key self.new.keys out) }
        ensures seats { self.new.seats ≡ self.old.seats }
    {
        if self.keys.len() < self.seats.get() as usize {
            add(&mut self.keys, key)?;
            self.last = last_of(&self.keys);
        } else if is_ahead_of_last(&key, &self.last) {
            let _out = replace_last(&mut self.keys, key);
            self.last = last_of(&self.keys);
        }
        Ok(())
    }

    /// Whether each of the keys is ahead of this one.
    pub(crate) fn are_ahead_of(&self, key: &Key) -> bool
        ensures { result ≡ list_all (λ kept. is_before kept key.now) self.now.keys }
    {
        match &self.last {
            Some(last) => last.is_ahead_of(key),
            None => true,
        }
    }
}
