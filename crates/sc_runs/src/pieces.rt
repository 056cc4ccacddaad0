//! Texts that are written in pieces, so that a long one is never held whole.

ghost use Rattle.std.specs.Prelude.{◌++◌, ℕ, List};
ghost use Rattle.sc_notices.specs.Telling.{header_of, joined, AreParts};
ghost use Rattle.sc_steps.specs.Steps.{OutputGets};
ghost use Rattle.sc_runs.specs.Pieces.{WritesInPieces, WritesTo};

use sc_notices::TextParts;
use sc_report::Watched;
use sc_steps::{RunFault, write_line, write_text};
use std::alloc::Global;
use std::io::Write;

/// How many bytes of a text are made before they are written: 64 KiB.
const PIECE: usize = 65_536;

/// Writes a text that is a piece and empties it, and does not flush it; a shorter one stays as it is.
fn write_piece<W: Write>(text: &mut Vec<u8>, out: &mut Watched<W>) -> Result<(), RunFault>
    ensures { OutputGets (WritesTo text.old.items text.new.items) W.contents out.old out.new result }
{
    if text.len() < PIECE {
        return Ok(());
    }
    if let Err(fault) = write_line(text.as_slice(), out) {
        return Err(fault);
    }
    text.clear();
    Ok(())
}

/// Writes a text that is told part by part, its header and then its parts, and flushes it. It is written in pieces of some
/// 64 KiB, or of one part where that is longer. An error is that the output failed, or want of memory; after either a prefix
/// of the text was written.
pub(crate) fn write_parts<W: Write>(
    alloc: Global,
    told: &TextParts<'_>,
    out: &mut Watched<W>,
) -> Result<(), RunFault>
    ensures { OutputGets (λ old new result. (parts : List (List ℕ)) → AreParts told.now parts
        → WritesInPieces (header_of told.now ++ joined parts) old new result) W.contents out.old out.new result }
{
    let mut text = Vec::new(alloc);
    if let Err(_) = text.extend_from_slice(told.header()) {
        return Err(RunFault::OutOfMemory);
    }
    for at in 0..told.count() {
        if let Err(_) = told.push_part(&mut text, at) {
            return Err(RunFault::OutOfMemory);
        }
        if let Err(fault) = write_piece(&mut text, out) {
            return Err(fault);
        }
    }
    write_text(text.as_slice(), out)
}
