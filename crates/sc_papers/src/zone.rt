ghost use Rattle.std.specs.Prelude.{◌≡◌, ℕ, ◌≤◌, SomeIff};
ghost use Rattle.sc_papers.specs.declared.zone.TheConstants.Zone.{GREATEST};

use std::marker::Model;

/// A zone's number, from 0 to 9,999, where 0 means no zone.
#[derive(Clone, Copy, Debug, Default, PartialEq, Eq, PartialOrd, Ord, Hash)]
pub struct Zone {
    number: u16,
}

impl Model for Zone {
    ghost Value = { ℕ };

    ghost view = { λ n. n.number };

    ghost invariant = { λ n. n.number ≤ GREATEST };

    ghost inverse = { λ n. record { number = n } };
}

impl Zone {
    /// The greatest of its range.
    pub const GREATEST: u32 = 9_999;

    /// The number as a `Zone`, or `None` outside 0 to 9,999.
    pub fn new(number: u32) -> Option<Self>
        ensures { SomeIff result (number ≤ Self.GREATEST) number }
    {
        if number <= Self::GREATEST {
            Some(Zone {
                number: number as u16,
            })
        } else {
            None
        }
    }

    /// The number, from 0 to 9,999.
    pub fn get(self) -> u32
        ensures value { result ≡ self }
        ensures greatest { result ≤ Self.GREATEST }
    {
        u32::from(self.number)
    }
}
