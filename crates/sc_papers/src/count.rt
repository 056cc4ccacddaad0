ghost use Rattle.std.specs.Prelude.{◌≡◌, ℕ, ◌≤◌, SomeIff};
ghost use Rattle.sc_papers.specs.declared.count.TheConstants.Count.{GREATEST};

use crate::seats::Seats;
use std::marker::Model;

/// How many seats an amendment adds or closes, from 1 to 10,000.
#[derive(Clone, Copy, Debug, PartialEq, Eq, PartialOrd, Ord, Hash)]
pub struct Count {
    number: u32,
}

impl Model for Count {
    ghost Value = { ℕ };

    ghost view = { λ n. n.number };

    ghost invariant = { λ n. (1 ≤ n.number) × (n.number ≤ GREATEST) };

    ghost inverse = { λ n. record { number = n } };
}

impl Count {
    /// The greatest of its range: as many seats as a school may have.
    pub const GREATEST: u32 = Seats::GREATEST;

    /// The number as a `Count`, or `None` outside 1 to 10,000.
    pub fn new(number: u32) -> Option<Self>
        ensures { SomeIff result ((1 ≤ number) × (number ≤ Self.GREATEST)) number }
    {
        if 1 <= number && number <= Self::GREATEST {
            Some(Count { number })
        } else {
            None
        }
    }

    /// The number, from 1 to 10,000.
    pub fn get(self) -> u32
        ensures value { result ≡ self }
        ensures least { 1 ≤ result }
        ensures greatest { result ≤ Self.GREATEST }
    {
        self.number
    }
}
