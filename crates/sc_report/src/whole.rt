//! Writing a text whole and reading an input whole.
ghost use Rattle.std.specs.Prelude.{◌≡◌, ◌-◌, ◌<◌, ◌≤◌, ◌||◌, length, vec_items, vec_len, IfOk, is_err};
ghost use Rattle.std.specs.Io.KnownBytes.{IsAtEnd};
ghost use Rattle.sc_report.specs.Steps.{GivesMore, TakesAtMost};
ghost use Rattle.sc_report.specs.Watched.{device_of, has_failed};
ghost use Rattle.sc_report.specs.Whole.{ReaderFailsAsTold, ReadsWhole, WritesWhole};
ghost use Rattle.sc_report.specs.declared.whole.ReadFault.TheVariants.{Device, OutOfMemory};

use crate::watched::{DeviceFailed, Watched};
use std::alloc::{AllocError, Global};
use std::io::{Read, Write};
use thiserror::Error;

/// The most bytes that one call asks a reader for: 60 KiB. What is given grows by doubling from there, and 30 MiB come before a
/// block of 32 MiB, which the C library's allocator would give back to the system as soon as it is let go.
const PIECE: usize = 61440;

/// Why an input could not be read whole.
#[derive(Clone, Copy, Debug, PartialEq, Eq, Error)]
pub enum ReadFault {
    /// The device that is read failed.
    #[error("the device failed")]
    Device,
    /// Room for what came was refused.
    #[error("out of memory")]
    OutOfMemory,
}

impl From<DeviceFailed> for ReadFault {
    ghost from_gives = { λ _ fault. fault ≡ Device };

    fn from(_failed: DeviceFailed) -> ReadFault {
        ReadFault::Device
    }
}

impl From<AllocError> for ReadFault {
    ghost from_gives = { λ _ fault. fault ≡ OutOfMemory };

    fn from(_refused: AllocError) -> ReadFault {
        ReadFault::OutOfMemory
    }
}

/// Writes all of `text`, by as many calls as the writer needs.
///
/// It ends at the first call that fails; then a prefix of the text was written. It takes no memory.
pub fn write_whole<W: Write>(to: &mut Watched<W>, text: &[u8]) -> Result<(), DeviceFailed>
    ensures bytes { WritesWhole (W.contents (device_of to.old)) (W.contents (device_of to.new))
        result text.now }
    ensures failed { has_failed to.new ≡ (has_failed to.old || is_err result) }
{
    let mut at = 0;
    'calls: while at < text.len() {
        at += to.write(&text[at..])?;
    }
    Ok(())
}

/// Reads the input to its end, but at most `limit` bytes of it, and gives what came.
///
/// A caller that refuses inputs of more than some length passes one byte more than that. It answers
/// `Device` where a call of the reader failed, and `OutOfMemory` where room for what came was
/// refused; what had come is then given up. It takes memory for what came, at most about twice its
/// length, and for one piece of 60 KiB.
pub fn read_whole<R: Read>(
    alloc: Global,
    from: &mut Watched<R>,
    limit: usize,
) -> Result<Vec<u8>, ReadFault>
    ensures bytes { ReadsWhole vec_items limit (R.remaining (device_of from.old))
        (R.remaining (device_of from.new)) result }
    ensures within { IfOk result (λ given. vec_len given ≤ limit) }
    ensures failed { ReaderFailsAsTold from.old from.new result }
{
    let mut piece = vec![in alloc; 0u8; limit.min(PIECE)]?;
    let mut given = Vec::new(alloc);
    'pieces: while given.len() < limit {
        let room = piece.len().min(limit - given.len());
        if read_piece(from, &mut piece[..room], &mut given)? == 0 {
            return Ok(given);
        }
    }
    Ok(given)
}

// One call of the reader, into `piece`; what came is added to `given`, and its length is answered.
fn read_piece<R: Read>(
    from: &mut Watched<R>,
    piece: &mut [u8],
    given: &mut Vec<u8>,
) -> Result<usize, ReadFault>
    ensures came { IfOk result (λ count. GivesMore (R.remaining (device_of from.old))
        (R.remaining (device_of from.new)) given.old.items given.new.items count) }
    ensures bound { IfOk result (λ count. count ≤ length piece.old) }
    ensures end { IfOk result (λ count. count ≡ 0 → 0 < length piece.old →
        IsAtEnd (R.remaining (device_of from.new))) }
    ensures takes { TakesAtMost (length piece.old) R.remaining from.old from.new result }
{
    let count = from.read(piece)?;
    given.extend_from_slice(&piece[..count])?;
    Ok(count)
}
