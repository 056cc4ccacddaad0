//! Short pieces of text, each in a block of constant size, so that none is copied by a call.
ghost use Rattle.std.specs.Prelude.{◌≡◌, ◌<◌, ◌≤◌, ◌+◌, ◌++◌, ◌∷◌, [], decimal, length, take};
ghost use Rattle.sc_report.specs.Endings.{piece_text};
ghost use Rattle.sc_report.specs.declared.piece.TheConstants.{LINE};

use itoa::write_digits;

/// Where the digits of a number end as it is written: there is room for each number before, and for a block after.
const DIGITS: usize = 15;

/// The room of a line, of two blocks.
pub(crate) const LINE: usize = 32;

/// A text of fewer than 16 bytes, and bytes of no meaning after it.
#[derive(Clone, Copy)]
pub(crate) struct Piece {
    pub(crate) bytes: [u8; 16],
    /// How many bytes the text has.
    pub(crate) count: u8,
}

impl Piece {
    /// The piece of a text.
    pub(crate) fn of(text: &[u8]) -> Piece
        requires { length text.now < 16 }
        ensures { piece_text result ≡ text.now }
    {
        let mut bytes = [0; 16];
        bytes[..text.len()].copy_from_slice(text);
        Piece {
            bytes,
            count: text.len() as u8,
        }
    }

    /// The piece of a number and of a byte after it.
    pub(crate) fn number_then(number: u32, byte: u8) -> Piece
        ensures { piece_text result ≡ decimal number ++ byte ∷ [] }
    {
        let mut digits = [byte; 32];
        let start = write_digits(u64::from(number), &mut digits, DIGITS);
        let Some(bytes) = digits[start..].first_chunk::<16>() else {
            unreachable!()
        };
        Piece {
            bytes: *bytes,
            count: (DIGITS + 1 - start) as u8,
        }
    }

    /// Writes the block over some bytes, and tells where the text ends there.
    fn put(self, over: &mut [u8], at: usize) -> usize
        requires { at + 16 ≤ length over.old }
        ensures text { take result over.new ≡ take at over.old ++ piece_text self }
        ensures room { length over.new ≡ length over.old }
        ensures end { result ≤ at + 16 }
    {
        over[at..at + 16].copy_from_slice(&self.bytes);
        // This is the count, and by the remainder the compiler knows it to be within the block.
        at + usize::from(self.count % 16)
    }
}

/// Writes a line over some bytes, and tells where it ends there.
///
/// It is taken into the loops that ask for it, so that the pieces stay in registers.
#[inline(always)]
pub(crate) fn put_line(over: &mut [u8], at: usize, number: Piece, ending: Piece) -> usize
    requires { at + LINE ≤ length over.old }
    ensures text { take result over.new ≡ take at over.old ++ (piece_text number ++ piece_text ending) }
    ensures room { length over.new ≡ length over.old }
    ensures end { result ≤ at + LINE }
{
    // Both blocks are within these bytes, as the compiler sees.
    let line = &mut over[at..at + LINE];
    let count = number.put(line, 0);
    at + ending.put(line, count)
}
