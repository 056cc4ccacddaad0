ghost use Rattle.std.specs.Prelude.{◌≡◌, List, [], ◌∷◌, ◌++◌, length, Some, IfOk};
ghost use Rattle.std.specs.List.Sorted.{IsPermutation};
ghost use Rattle.sc_papers.specs.Change.{ChangesTo};
ghost use Rattle.sc_papers.specs.declared.key.Key.{Key as Priority};
ghost use Rattle.sc_papers.specs.LastKey.{IsLastOf};

use crate::held_key::HeldKey;
use crate::key_heap::KeyHeap;
use std::alloc::{AllocError, Global};
use std::marker::Model;

/// Keys as they came, at least one, and the last of them.
#[derive(Drop)]
pub(crate) struct KeyList {
    keys: Vec<HeldKey>,
    last: HeldKey,
}

impl Model for KeyList {
    ghost Value = { List Priority };

    ghost view = { λ list. list.keys.items };

    ghost invariant = { λ list. IsLastOf (Some list.last) list.keys.items };
}

impl KeyList {
    /// The list of one key, with room for so many, or the error of a refused growth.
    pub(crate) fn of(alloc: Global, room: usize, key: HeldKey) -> Result<Self, AllocError>
        ensures { IfOk result (λ list. list ≡ key ∷ []) }
    {
        let last = key.copy();
        let mut keys = Vec::with_capacity(alloc, room)?;
        keys.push(key)?;
        Ok(KeyList { keys, last })
    }

    /// Appends a key, at the cost of one comparison. A refused growth changes nothing.
    pub(crate) fn append(&mut self, key: HeldKey) -> Result<(), AllocError>
        ensures { ChangesTo self.old self.new (self.old ++ key ∷ []) result }
    {
        let newest = key.copy();
        self.keys.push(key)?;
        if self.last.is_ahead_of(&newest) {
            self.last = newest;
        }
        Ok(())
    }

    /// How many keys there are.
    pub(crate) fn len(&self) -> usize
        ensures { result ≡ length self.now }
    {
        self.keys.len()
    }

    /// The last of the keys.
    pub(crate) fn last(&self) -> HeldKey
        ensures { IsLastOf (Some result) self.now }
    {
        self.last.copy()
    }

    /// The keys as a heap, which takes no memory. The cost is their number.
    pub(crate) fn into_heap(self) -> KeyHeap
        ensures { IsPermutation self result }
    {
        KeyHeap::of(self.keys)
    }

    /// An equal list, or the error of a refused growth. The cost is its length.
    pub(crate) fn copy(&self) -> Result<Self, AllocError>
        ensures { IfOk result (λ list. list ≡ self.now) }
    {
        Ok(KeyList {
            keys: self.keys.clone()?,
            last: self.last.copy(),
        })
    }
}
