ghost use Rattle.std.specs.Prelude.{◌≡◌, ℕ, ◌≤◌, SomeIff};
ghost use Rattle.sc_papers.specs.declared.school_no.TheConstants.SchoolNo.{GREATEST};

use std::marker::Model;

/// A school's number, from 1 to 99,999.
#[derive(Clone, Copy, Debug, PartialEq, Eq, PartialOrd, Ord, Hash)]
pub struct SchoolNo {
    number: u32,
}

impl Model for SchoolNo {
    ghost Value = { ℕ };

    ghost view = { λ n. n.number };

    ghost invariant = { λ n. (1 ≤ n.number) × (n.number ≤ GREATEST) };

    ghost inverse = { λ n. record { number = n } };
}

impl SchoolNo {
    /// The greatest of its range.
    pub const GREATEST: u32 = 99_999;

    /// The number as a `SchoolNo`, or `None` outside 1 to 99,999.
    pub fn new(number: u32) -> Option<Self>
        ensures { SomeIff result ((1 ≤ number) × (number ≤ Self.GREATEST)) number }
    {
        if 1 <= number && number <= Self::GREATEST {
            Some(SchoolNo { number })
        } else {
            None
        }
    }

    /// The number, from 1 to 99,999.
    pub fn get(self) -> u32
        ensures value { result ≡ self }
        ensures least { 1 ≤ result }
        ensures greatest { result ≤ Self.GREATEST }
    {
        self.number
    }
}
