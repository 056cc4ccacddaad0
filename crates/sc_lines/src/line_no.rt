ghost use Rattle.std.specs.Prelude.{◌≡◌, ℕ, ◌+◌, ◌<◌, ◌≤◌, SomeIff};
ghost use Rattle.sc_lines.specs.declared.line_no.TheConstants.LineNo.{GREATEST};

use std::marker::Model;

/// The number of a line of the journal, from 1 to 999,999,999.
#[derive(Clone, Copy, Debug, PartialEq, Eq, PartialOrd, Ord, Hash)]
pub struct LineNo {
    number: u32,
}

impl Model for LineNo {
    ghost Value = { ℕ };

    ghost view = { λ n. n.number };

    ghost invariant = { λ n. (1 ≤ n.number) × (n.number ≤ GREATEST) };

    ghost inverse = { λ n. record { number = n } };
}

impl LineNo {
    /// The greatest number that a line may have.
    pub const GREATEST: u32 = 999_999_999;

    /// The number as a `LineNo`, or `None` outside 1 to 999,999,999.
    pub fn new(number: u32) -> Option<Self>
        ensures { SomeIff result ((1 ≤ number) × (number ≤ Self.GREATEST)) number }
    {
        if 1 <= number && number <= Self::GREATEST {
            Some(LineNo { number })
        } else {
            None
        }
    }

    /// The number, from 1 to 999,999,999.
    pub fn get(self) -> u32
        ensures value { result ≡ self }
        ensures least { 1 ≤ result }
        ensures greatest { result ≤ Self.GREATEST }
    {
        self.number
    }

    /// The number of the next line, or `None` after line 999,999,999.
    pub fn next(self) -> Option<Self>
        ensures { SomeIff result (self < Self.GREATEST) (self + 1) }
    {
        LineNo::new(self.number + 1)
    }
}
