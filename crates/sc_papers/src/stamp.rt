ghost use Rattle.std.specs.Prelude.{◌≡◌, ℕ, ◌+◌, ◌<◌, ◌≤◌, SomeIff};
ghost use Rattle.sc_papers.specs.declared.stamp.TheConstants.Stamp.{GREATEST};

use std::marker::Model;

/// The stamp of a record, a student's or a school's: which of the accepted amendments, counted from 1, was
/// the last one of this record, or 0 where there was none. It is at most 999,999,999.
#[derive(Clone, Copy, Debug, PartialEq, Eq, PartialOrd, Ord, Hash)]
pub struct Stamp {
    number: u32,
}

impl Model for Stamp {
    ghost Value = { ℕ };

    ghost view = { λ n. n.number };

    ghost invariant = { λ n. n.number ≤ GREATEST };

    ghost inverse = { λ n. record { number = n } };
}

impl Stamp {
    /// The stamp of a record that no accepted amendment was of.
    pub const ZERO: Stamp = Stamp { number: 0 };

    /// The greatest of its range.
    pub const GREATEST: u32 = 999_999_999;

    /// The number as a `Stamp`, or `None` outside 0 to 999,999,999.
    pub fn new(number: u32) -> Option<Self>
        ensures { SomeIff result (number ≤ Self.GREATEST) number }
    {
        if number <= Self::GREATEST {
            Some(Stamp { number })
        } else {
            None
        }
    }

    /// The number, from 0 to 999,999,999.
    pub fn get(self) -> u32
        ensures value { result ≡ self }
        ensures greatest { result ≤ Self.GREATEST }
    {
        self.number
    }

    /// The stamp of the next accepted amendment, or `None` after 999,999,999.
    pub fn next(self) -> Option<Self>
        ensures { SomeIff result (self < Self.GREATEST) (self + 1) }
    {
        Stamp::new(self.number + 1)
    }
}
