ghost use Rattle.std.specs.Prelude.{◌≡◌, ℕ, List, Some};
ghost use Rattle.sc_lottery.specs.Seed.{seed_of, refusal_text};

use hex::{FromHex, FromHexError};
use std::error::Error;
use std::fmt;
use std::marker::Model;

/// The 32 bytes from which every draw of a lottery follows.
#[derive(Clone, Copy, Debug, PartialEq, Eq)]
pub struct Seed {
    bytes: [u8; 32],
}

impl Model for Seed {
    ghost Value = { List ℕ };

    ghost view = { λ s. s.bytes };

    ghost inverse = { λ bytes. record { bytes = bytes } };
}

impl Seed {
    /// The seed that 64 hexadecimal digits spell, two of them a byte, in either case.
    ///
    /// Refused with `Length` where the text has not 64 bytes, and otherwise with `Digit` at the first
    /// byte that is no hexadecimal digit. It takes no memory.
    pub fn from_hex(text: &[u8]) -> Result<Self, SeedError>
        ensures { result ≡ seed_of text.now }
    {
        match <[u8; 32] as FromHex>::from_hex(text) {
            Ok(bytes) => Ok(Seed { bytes }),
            Err(FromHexError::OddLength) => Err(SeedError::Length),
            Err(FromHexError::InvalidStringLength) => Err(SeedError::Length),
            Err(FromHexError::InvalidHexCharacter { index, .. }) => {
                Err(SeedError::Digit { index })
            }
            // An array takes no memory.
            Err(FromHexError::OutOfMemory) => unreachable!(),
        }
    }

    /// The 32 bytes, in the order of the text.
    pub fn to_bytes(self) -> [u8; 32]
        ensures { result ≡ self }
    {
        self.bytes
    }
}

/// Why a text is no seed.
#[derive(Clone, Copy, Debug, PartialEq, Eq)]
pub enum SeedError {
    /// The text has not 64 bytes.
    Length,
    /// The byte at this index, counted from 0, is the first that is no hexadecimal digit.
    Digit { index: usize },
}

impl fmt::Display for SeedError {
    ghost output = { λ e. Some (refusal_text e) };

    fn fmt<W: fmt::Write>(&self, f: &mut fmt::Formatter<W>) -> fmt::Result {
        match *self {
            SeedError::Length => write!(f, "Length"),
            SeedError::Digit { index } => write!(f, "Digit {index}"),
        }
    }
}

impl Error for SeedError {}
