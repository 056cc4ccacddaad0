ghost use Rattle.std.specs.Prelude.{◌≡◌, ◌<◌, false, List, [], ◌∷◌, length, All, IfOk, OnOk, OnErr};
ghost use Rattle.std.specs.List.Sorted.{IsPermutation};
ghost use Rattle.sc_papers.specs.Key.{is_before};
ghost use Rattle.sc_seats.specs.Held.{is_heap, keys_of};
ghost use Rattle.sc_papers.specs.LastKey.{IsLastOf};

use crate::held_key::HeldKey;
use crate::key_heap::KeyHeap;
use crate::key_list::KeyList;
use std::alloc::{AllocError, Global};
use std::mem;

/// The keys that a roll holds, in no order that anybody sees.
#[derive(Drop)]
pub(crate) enum Held {
    Nobody,
    /// Until one of them is put out. Most keys come after all those held, and would rise to the top of a heap.
    Listed(KeyList),
    /// From then on.
    Heaped(KeyHeap),
}

impl Held {
    /// Adds a key to those of which none was put out yet, at the cost of a comparison. The first key takes room
    /// for so many. A refused growth changes no key.
    pub(crate) fn add(&mut self, alloc: Global, room: usize, key: HeldKey) -> Result<(), AllocError>
        requires { is_heap self.old ≡ false }
        ensures added { OnOk result (IsPermutation (key ∷ keys_of self.old) (keys_of self.new)) }
        ensures listed { is_heap self.new ≡ false }
        ensures unchanged { OnErr result (self.new ≡ self.old) }
    {
        match self {
            Held::Nobody => *self = Held::Listed(KeyList::of(alloc, room, key)?),
            Held::Listed(keys) => keys.append(key)?,
            Held::Heaped(_) => unreachable!(),
        }
        Ok(())
    }

    /// Puts a key in the place of the last one, which it answers. It takes no memory. The cost is the logarithm of
    /// their number, and the first time their number.
    pub(crate) fn replace_last(&mut self, key: HeldKey) -> HeldKey
        requires { 0 < length (keys_of self.old) }
        ensures together { IsPermutation (key ∷ keys_of self.old) (result ∷ keys_of self.new) }
        ensures last { All (λ held. is_before result held ≡ false) (keys_of self.old) }
    {
        if let Held::Heaped(keys) = self {
            return keys.replace_last(key);
        }
        let Held::Listed(keys) = mem::replace(self, Held::Nobody) else {
            unreachable!()
        };
        let mut keys = keys.into_heap();
        let out = keys.replace_last(key);
        *self = Held::Heaped(keys);
        out
    }

    /// How many keys are held.
    pub(crate) fn len(&self) -> usize
        ensures { result ≡ length (keys_of self.now) }
    {
        match self {
            Held::Nobody => 0,
            Held::Listed(keys) => keys.len(),
            Held::Heaped(keys) => keys.len(),
        }
    }

    /// The last of the keys, or `None` where nobody is held.
    pub(crate) fn last(&self) -> Option<HeldKey>
        ensures { IsLastOf result (keys_of self.now) }
    {
        match self {
            Held::Nobody => None,
            Held::Listed(keys) => Some(keys.last()),
            Held::Heaped(keys) => Some(keys.last()),
        }
    }

    /// The same keys again, or the error of a refused growth. The cost is their number.
    pub(crate) fn copy(&self) -> Result<Self, AllocError>
        ensures { IfOk result (λ held. held ≡ self.now) }
    {
        Ok(match self {
            Held::Nobody => Held::Nobody,
            Held::Listed(keys) => Held::Listed(keys.copy()?),
            Held::Heaped(keys) => Held::Heaped(keys.copy()?),
        })
    }
}
