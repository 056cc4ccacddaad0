ghost use Rattle.std.specs.Prelude.{◌≡◌, ℕ, ◌≤◌, SomeIff};

use std::marker::Model;

/// A student's number, from 1 to 999,999,999.
#[derive(Clone, Copy, Debug, PartialEq, Eq, PartialOrd, Ord, Hash)]
pub struct StudentNumber {
    number: u32,
}

impl Model for StudentNumber {
    ghost Value = { ℕ };

    ghost view = { λ s. s.number };

    ghost invariant = { λ s. (1 ≤ s.number) × (s.number ≤ 999999999) };

    ghost inverse = { λ n. record { number = n } };
}

impl StudentNumber {
    /// The greatest number that a student may have.
    pub const GREATEST: u32 = 999_999_999;

    /// The student of this number, or `None` outside 1 to 999,999,999.
    pub fn new(number: u32) -> Option<Self>
        ensures { SomeIff result ((1 ≤ number) × (number ≤ 999999999)) number }
    {
        if 1 <= number && number <= Self::GREATEST {
            Some(StudentNumber { number })
        } else {
            None
        }
    }

    /// The number, from 1 to 999,999,999.
    pub fn get(self) -> u32
        ensures value { result ≡ self }
        ensures least { 1 ≤ result }
        ensures greatest { result ≤ 999999999 }
    {
        self.number
    }
}
