//! The parts that lines are made of.
ghost use Rattle.std.specs.Prelude.{◌≡◌, ◌++◌, OnOk};
ghost use Rattle.sc_report.specs.CutoffText.{draw_text};

use hex::encode_to_slice;
use std::alloc::AllocError;

/// Adds a draw in 16 hexadecimal digits. The only error is want of memory.
#[tactic(auto, unfolding(crate::specs::CutoffText::draw_text))]
pub fn push_draw(text: &mut Vec<u8>, draw: u64) -> Result<(), AllocError>
    ensures { OnOk result (text.new.items ≡ text.old.items ++ draw_text draw) }
{
    let mut digits = [0; 16];
    match encode_to_slice(draw.to_be_bytes(), &mut digits) {
        Ok(()) => text.extend_from_slice(&digits),
        Err(_) => unreachable!(),
    }
}
