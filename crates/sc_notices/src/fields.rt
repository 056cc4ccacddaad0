//! The fields that lines are made of.
ghost use Rattle.std.specs.Prelude.{◌≡◌, ◌++◌, codes, decimal, OnOk};

use sc_decimal::push_number;
use std::alloc::AllocError;

/// Adds a number and a comma.
pub(crate) fn push_field(text: &mut Vec<u8>, number: u32) -> Result<(), AllocError>
    ensures { OnOk result (text.new.items ≡ text.old.items ++ decimal number ++ codes ",") }
{
    push_number(text, u64::from(number))?;
    text.extend_from_slice(b",")
}

/// Adds a number and a newline.
pub(crate) fn push_last_field(text: &mut Vec<u8>, number: u32) -> Result<(), AllocError>
    ensures { OnOk result (text.new.items ≡ text.old.items ++ decimal number ++ codes "\n") }
{
    push_number(text, u64::from(number))?;
    text.extend_from_slice(b"\n")
}
