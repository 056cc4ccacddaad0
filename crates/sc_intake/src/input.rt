//! An input before its first row: its length, its byte order marks, its records.

ghost use Rattle.std.specs.Prelude.{◌≡◌, MatchResult};
ghost use Rattle.sc_intake.specs.File.{records_in};

use crate::byte_order_mark::{is_marked, without_mark};
use crate::fault::{Cause, IntakeFault, Source};
use crate::records::Records;
use std::alloc::Global;

/// The most bytes that one input may have: 64 MiB.
pub const MOST_BYTES: usize = 67_108_864;

/// The records of an input. It is refused where it is too long, and where a second byte order mark
/// follows the first.
#[tactic(auto, unfolding(crate::specs::File::records_in))]
pub(crate) fn records_in<'a>(
    alloc: Global,
    source: Source,
    text: &'a [u8],
) -> Result<Records<'a>, IntakeFault>
    ensures { MatchResult result (λ records. records_in source text.now ≡ Ok records.left)
        (λ fault. records_in source text.now ≡ Err fault) }
{
    if text.len() > MOST_BYTES {
        return Err(IntakeFault::at(source, 0, Cause::TooLong));
    }
    let unmarked = without_mark(text);
    if is_marked(unmarked) {
        return Err(IntakeFault::at(source, 1, Cause::Header));
    }
    Ok(Records::new(alloc, unmarked))
}
