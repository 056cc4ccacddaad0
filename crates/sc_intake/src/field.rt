//! The fields of a record: numbers, and the first of several.

ghost use Rattle.std.specs.Prelude.{◌≡◌};
ghost use Rattle.sc_intake.specs.Field.{first_number, number_of, number_or_none};

use crate::fault::Cause;
use sc_decimal::{number_at_front, read_number};

/// The number that a field without blanks writes, or `Number` where it is not 1 to 9 decimal
/// digits.
#[tactic(auto, unfolding(crate::specs::Field::number_of))]
pub(crate) fn number(text: &[u8]) -> Result<u32, Cause>
    ensures { result ≡ number_of text.now }
{
    match read_number(text) {
        Some(number) => Ok(number),
        None => Err(Cause::Number),
    }
}

/// The number that a field without blanks writes, or `None` where it is empty; `Number` where it is neither empty
/// nor 1 to 9 decimal digits.
#[tactic(auto, unfolding(crate::specs::Field::number_of, crate::specs::Field::number_or_none))]
pub(crate) fn number_or_none(text: &[u8]) -> Result<Option<u32>, Cause>
    ensures { result ≡ number_or_none text.now }
{
    if text.is_empty() {
        return Ok(None);
    }
    match read_number(text) {
        Some(number) => Ok(Some(number)),
        None => Err(Cause::Number),
    }
}

/// The number that a text begins with, and how many digits write it: they end at the first space, or
/// at the end of the text. `Number` where they are not 1 to 9 decimal digits.
///
/// It is inlined into each loop over a list, which calls it for each number.
#[inline(always)]
pub(crate) fn first_number(text: &[u8]) -> Result<(u32, usize), Cause>
    ensures { result ≡ first_number text.now }
{
    let Some((number, digits)) = number_at_front(text) else {
        return Err(Cause::Number);
    };
    if digits < text.len() && text[digits] != b' ' {
        return Err(Cause::Number);
    }
    Ok((number, digits))
}
