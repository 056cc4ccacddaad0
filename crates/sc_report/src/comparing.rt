//! Comparing an input with a text, piece by piece.
ghost use Rattle.std.specs.Prelude.{◌≡◌, ℕ, ◌+◌, ◌<◌, ◌≤◌, List, Option, length, take, IfOk};
ghost use Rattle.std.specs.Io.KnownBytes.{Consumes, IsAtEnd};
ghost use Rattle.sc_report.specs.Comparing.{common, line_ends, ComparesWith};
ghost use Rattle.sc_report.specs.Steps.{GoesOn, Meets, TakesAtMost};
ghost use Rattle.sc_report.specs.Watched.{device_of};
ghost use Rattle.sc_report.specs.Whole.{GivesAtMost, ReaderFailsAsTold};

use crate::watched::Watched;
use crate::whole::ReadFault;
use std::alloc::Global;
use std::io::Read;

/// The most bytes that one call asks a reader for: 60 KiB.
const PIECE: usize = 61440;

/// What one call of a reader gave.
#[derive(Clone, Copy)]
struct Met {
    /// How many bytes came.
    came: usize,
    /// How many of them are those that the text goes on with.
    alike: usize,
}

/// How many bytes two texts begin with alike.
fn alike_len(one: &[u8], other: &[u8]) -> usize
    ensures first { take result one.now ≡ common one.now other.now }
    ensures len { result ≡ length (common one.now other.now) }
{
    let end = one.len().min(other.len());
    for at in 0..end {
        if one[at] != other[at] {
            return at;
        }
    }
    end
}

/// The number of the line, from 1, in which a text goes on after so many of its bytes.
fn line_after(text: &[u8], len: usize) -> u64
    requires { len ≤ length text.now }
    ensures { result ≡ line_ends (take len text.now) + 1 }
{
    let mut line = 1;
    for at in 0..len {
        line += u64::from(text[at] == b'\n');
    }
    line
}

/// The line in which an input ends too early that has only the first bytes of a text, and `None` where it has all.
fn missing_line(text: &[u8], len: usize) -> Option<u64>
    requires { len ≤ length text.now }
    ensures { (bytes left : Option (List ℕ)) → Consumes bytes left (take len text.now) → IsAtEnd left
        → ComparesWith text.now bytes left result }
{
    if len < text.len() {
        Some(line_after(text, len))
    } else {
        None
    }
}

/// One call of the reader, into `piece`, and how much of what came begins `rest`.
fn meet_piece<R: Read>(
    from: &mut Watched<R>,
    piece: &mut [u8],
    rest: &[u8],
) -> Result<Met, ReadFault>
    ensures met { IfOk result (Meets rest.now (R.remaining (device_of from.old)) (R.remaining (device_of from.new))) }
    ensures bound { IfOk result (λ met. met.came ≤ length piece.old) }
    ensures end { IfOk result (λ met. met.came ≡ 0 → 0 < length piece.old
        → IsAtEnd (R.remaining (device_of from.new))) }
    ensures takes { TakesAtMost (length piece.old) R.remaining from.old from.new result }
{
    let came = from.read(piece)?;
    let alike = alike_len(rest, &piece[..came]);
    Ok(Met { came, alike })
}

/// What one more piece of an input came to.
#[derive(Clone, Copy)]
enum Meeting {
    /// The input is alike up to so many bytes of the text.
    Alike { len: usize },
    /// The input has ended, or is another text: the first line that differs, if one does.
    Ended { difference: Option<u64> },
}

/// One more call of a reader that has given the first bytes of a text, so many of them.
fn meet_next<R: Read>(
    from: &mut Watched<R>,
    piece: &mut [u8],
    text: &[u8],
    len: usize,
) -> Result<Meeting, ReadFault>
    requires within { len ≤ length text.now }
    requires room { 0 < length piece.old }
    ensures met { IfOk result (λ met. (bytes : Option (List ℕ))
        → Consumes bytes (R.remaining (device_of from.old)) (take len text.now)
        → GoesOn text.now len bytes (R.remaining (device_of from.new)) met) }
    ensures takes { TakesAtMost (length piece.old) R.remaining from.old from.new result }
    ensures room { length piece.new ≡ length piece.old }
{
    let met = meet_piece(from, piece, &text[len..])?;
    let alike = len + met.alike;
    if met.alike < met.came {
        return Ok(Meeting::Ended {
            difference: Some(line_after(text, alike)),
        });
    }
    if met.came == 0 {
        return Ok(Meeting::Ended {
            difference: missing_line(text, alike),
        });
    }
    Ok(Meeting::Alike { len: alike })
}

/// Compares what a reader has left, to its end, with a text: `None` where it is that text, and else the number of the
/// first line that differs, counted from 1. A line that ends too early, or goes on, differs, and so does one that is
/// missing or too many.
///
/// It reads by pieces of 60 KiB, keeps no more than one, and takes no more than one after the bytes that the text has,
/// so that no length of the input is too long. It answers `Device` where a call of the reader failed, and
/// `OutOfMemory` where room for a piece was refused. The cost is one pass over the text.
pub fn first_difference<R: Read>(
    alloc: Global,
    from: &mut Watched<R>,
    text: &[u8],
) -> Result<Option<u64>, ReadFault>
    ensures found { IfOk result (ComparesWith text.now
        (R.remaining (device_of from.old)) (R.remaining (device_of from.new))) }
    ensures limit { GivesAtMost (length text.now + 61440)
        (R.remaining (device_of from.old)) (R.remaining (device_of from.new)) }
    ensures failed { ReaderFailsAsTold from.old from.new result }
{
    // Room for a byte more than the text has is enough.
    let room = text.len().saturating_add(1).min(PIECE);
    let mut piece = vec![in alloc; 0u8; room]?;
    let mut len = 0;
    'pieces: loop {
        match meet_next(from, &mut piece, text, len)? {
            Meeting::Alike { len: more } => len = more,
            Meeting::Ended { difference } => return Ok(difference),
        }
    }
}
