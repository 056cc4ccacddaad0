ghost use Rattle.std.specs.Prelude.{◌≡◌, ℕ, ◌≤◌, SomeIff};
ghost use Rattle.sc_papers.specs.declared.seats.TheConstants.Seats.{GREATEST};

use std::marker::Model;

/// The seats of a school, from 0 to 10,000.
#[derive(Clone, Copy, Debug, PartialEq, Eq, PartialOrd, Ord, Hash)]
pub struct Seats {
    number: u16,
}

impl Model for Seats {
    ghost Value = { ℕ };

    ghost view = { λ n. n.number };

    ghost invariant = { λ n. n.number ≤ GREATEST };

    ghost inverse = { λ n. record { number = n } };
}

impl Seats {
    /// No seats.
    pub const NONE: Seats = Seats { number: 0 };

    /// The greatest of its range.
    pub const GREATEST: u32 = 10_000;

    /// The number as a `Seats`, or `None` outside 0 to 10,000.
    pub fn new(number: u32) -> Option<Self>
        ensures { SomeIff result (number ≤ Self.GREATEST) number }
    {
        if number <= Self::GREATEST {
            Some(Seats {
                number: number as u16,
            })
        } else {
            None
        }
    }

    /// The number, from 0 to 10,000.
    pub fn get(self) -> u32
        ensures value { result ≡ self }
        ensures greatest { result ≤ Self.GREATEST }
    {
        u32::from(self.number)
    }
}
