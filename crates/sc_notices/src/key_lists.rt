//! Lists of keys, one for each school.
ghost use Rattle.std.specs.Prelude.{◌≡◌, List, IfOk};
ghost use Rattle.sc_seats.specs.Roll.{in_order};

use sc_papers::Key;
use std::alloc::{AllocError, Global};
use std::marker::Model;

/// A list of keys for each school, by the school's position in the order of entry.
pub(crate) struct KeyLists {
    lists: Vec<Vec<Key>>,
}

impl Drop for KeyLists {
    fn drop(self) {
        let KeyLists { lists: _ } = self;
    }
}

impl Model for KeyLists {
    ghost use Rattle.std.specs.Prelude.{List};
    ghost use Rattle.sc_papers.specs.declared.key.Key.{Key as Priority};
    ghost use Rattle.sc_notices.specs.KeyLists.{keys_in};

    ghost Value = { List (List Priority) };

    ghost view = { λ lists. keys_in lists.lists.items };
}

impl KeyLists {
    ghost use Rattle.std.specs.Prelude.{◌≡◌, ◌<◌, ◌++◌, ◌∷◌, [], get_or, length, replicate, set, IfOk, OnOk};

    /// So many empty lists. The only error is want of memory.
    pub(crate) fn empty(alloc: Global, count: usize) -> Result<Self, AllocError>
        ensures { IfOk result (λ lists. lists ≡ replicate count []) }
    {
        let mut lists = Vec::with_capacity(alloc, count)?;
        for _added in 0..count {
            lists.push(Vec::new(alloc))?;
        }
        Ok(KeyLists { lists })
    }

    /// Adds a key at the end of the list at a position. The only error is want of memory.
    pub(crate) fn add(&mut self, at: usize, key: Key) -> Result<(), AllocError>
        requires { at < length self.old }
        ensures { OnOk result (self.new ≡ set self.old at (get_or self.old at [] ++ key ∷ [])) }
    {
        self.lists[at].push(key)?;
        Ok(())
    }

    /// The list at a position.
    pub(crate) fn at(&self, at: usize) -> &[Key]
        requires { at < length self.now }
        ensures { result.now ≡ get_or self.now at [] }
    {
        self.lists[at].as_slice()
    }
}

/// These keys, best first. The only error is want of memory.
pub(crate) fn sorted_keys(alloc: Global, keys: &[Key]) -> Result<Vec<Key>, AllocError>
    ensures { IfOk result (λ ordered. ordered.items ≡ in_order keys.now) }
{
    let mut ordered = Vec::from_slice(alloc, keys)?;
    ordered.sort_unstable();
    Ok(ordered)
}
