//! The numbers of the rows so far.

use std::alloc::{AllocError, Global};
use std::collections::BTreeSet;
use std::marker::Model;

/// Numbers that are all different, in a tree, which no choice of numbers makes slow.
#[derive(Drop)]
pub(crate) struct SeenNumbers {
    numbers: BTreeSet<u32>,
}

impl Model for SeenNumbers {
    ghost use Rattle.std.specs.Prelude.{ℕ, List};

    ghost Value = { List ℕ };

    ghost view = { λ s. s.numbers.keys };
}

impl SeenNumbers {
    ghost use Rattle.std.specs.Prelude.{◌≡◌, ℕ, ◌||◌, false, not, nat_eq, IfOk, OnOk};
    ghost use Rattle.std.specs.List.{list_any};

    /// No numbers. It takes no memory.
    pub(crate) fn new(alloc: Global) -> Self
        ensures { (n : ℕ) → list_any (nat_eq n) result ≡ false }
    {
        SeenNumbers {
            numbers: BTreeSet::new(alloc),
        }
    }

    /// Adds a number, and says whether it is a new one. The cost grows with the logarithm of how
    /// many there are.
    pub(crate) fn insert(&mut self, number: u32) -> Result<bool, AllocError>
        ensures new { IfOk result (λ new. new ≡ not (list_any (nat_eq number) self.old)) }
        ensures numbers { OnOk result ((n : ℕ)
            → list_any (nat_eq n) self.new ≡ (nat_eq n number || list_any (nat_eq n) self.old)) }
    {
        Ok(self.numbers.insert(number)?)
    }

    /// Whether a number was added. The cost grows with the logarithm of how many there are.
    pub(crate) fn contains(&self, number: u32) -> bool
        ensures { result ≡ list_any (nat_eq number) self.now }
    {
        self.numbers.contains(&number)
    }
}
