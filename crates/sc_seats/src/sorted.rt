ghost use Rattle.std.specs.Prelude.{◌≡◌, ◌↔◌, ℕ, ◌+◌, ◌<◌, ◌≤◌, true, length, slice_index_or, Contains, vec_len, insert, All, IsTrue, OnOk, OnErr, IsSome, ◌++◌};
ghost use Rattle.std.specs.Option.{option_to_list};
ghost use Rattle.sc_papers.specs.Key.{is_before};
ghost use Rattle.sc_seats.specs.Roll.{IsAscending};

use crate::held_key::HeldKey;
use crate::roll::Roll;
use sc_papers::{Key, Seats};
use std::alloc::{AllocError, Global};
use std::marker::Model;

/// A roll kept as a sorted list. An offer moves as many keys as are behind the key.
pub struct SortedRoll {
    keys: Vec<HeldKey>,
    capacity: Seats,
}

impl Drop for SortedRoll {
    fn drop(self) {
        let SortedRoll {
            keys: _,
            capacity: _,
        } = self;
    }
}

impl Model for SortedRoll {
    ghost use Rattle.sc_seats.specs.Roll.{RollView, IsRoll};

    ghost Value = { RollView };

    ghost view = { λ r. record { keys = r.keys.items; seats = r.capacity } };

    ghost invariant = { λ r. IsRoll (record { keys = r.keys.items; seats = r.capacity }) };
}

/// How many of the keys are ahead of one that is not among them.
fn position_of(keys: &[HeldKey], key: &HeldKey) -> usize
    requires ascending { IsAscending keys.now }
    requires new { ¬ Contains keys.now key.now }
    ensures within { result ≤ length keys.now }
    ensures ahead { (k : ℕ) (d : Key) → k < result → is_before (slice_index_or keys.now k d) key.now ≡ true }
    ensures behind { (k : ℕ) (d : Key) → result ≤ k → k < length keys.now
        → is_before key.now (slice_index_or keys.now k d) ≡ true }
{
    match keys.binary_search(key) {
        Ok(position) => position,
        Err(position) => position,
    }
}

/// Puts the key in at the position.
fn put_in(keys: &mut Vec<HeldKey>, position: usize, key: HeldKey) -> Result<(), AllocError>
    requires { position ≤ vec_len keys.old }
    ensures put { OnOk result (keys.new.items ≡ insert keys.old.items position key) }
    ensures unchanged { OnErr result (keys.new.items ≡ keys.old.items) }
{
    keys.insert(position, key)?;
    Ok(())
}

/// Takes the last key out where there is one more than there are seats.
fn take_excess(keys: &mut Vec<HeldKey>, capacity: usize) -> Option<HeldKey>
    requires { vec_len keys.old ≤ capacity + 1 }
    ensures last { keys.old.items ≡ keys.new.items ++ option_to_list result }
    ensures within { vec_len keys.new ≤ capacity }
    ensures full { IsSome result → vec_len keys.old ≡ capacity + 1 }
{
    if keys.len() > capacity {
        keys.pop()
    } else {
        None
    }
}

/// Whether all of the keys are ahead of one that is not among them.
fn are_ahead(keys: &[HeldKey], key: &Key) -> bool
    requires ascending { IsAscending keys.now }
    requires new { ¬ Contains keys.now key.now }
    ensures { IsTrue result ↔ All (λ held. is_before held key.now ≡ true) keys.now }
{
    match keys.last() {
        Some(last) => last.key().is_ahead_of(key),
        None => true,
    }
}

impl Roll for SortedRoll {
    ghost keys = { λ r. r.keys };

    ghost seats = { λ r. r.seats };

    fn with_capacity(alloc: Global, capacity: Seats) -> Self {
        SortedRoll {
            keys: Vec::new(alloc),
            capacity,
        }
    }

    fn offer_held(&mut self, key: HeldKey) -> Result<Option<HeldKey>, AllocError> {
        let position = position_of(self.keys.as_slice(), &key);
        put_in(&mut self.keys, position, key)?;
        let capacity = self.capacity.get() as usize;
        Ok(take_excess(&mut self.keys, capacity))
    }

    fn refuses(&self, key: &Key) -> bool {
        self.len() >= self.capacity.get() as usize && are_ahead(self.keys.as_slice(), key)
    }

    fn worst(&self) -> Option<Key> {
        self.keys.as_slice().last().map(HeldKey::key)
    }

    fn len(&self) -> usize {
        self.keys.len()
    }

    fn capacity(&self) -> Seats {
        self.capacity
    }

    fn copy(&self) -> Result<Self, AllocError> {
        Ok(SortedRoll {
            keys: self.keys.clone()?,
            capacity: self.capacity,
        })
    }
}
