//! The cutoffs as text.
ghost use Rattle.std.specs.Prelude.{◌≡◌, ◌++◌, IfOk, OnOk};
ghost use Rattle.sc_repair.specs.Standing.{matching_of};
ghost use Rattle.sc_report.specs.CutoffText.{cutoff_field, cutoff_line, cutoff_lines, cutoff_text, key_text};

use crate::lines::push_draw;
use crate::standing_rows::cutoffs;
use sc_decimal::push_number;
use sc_papers::Key;
use sc_reasons::{Cutoff, CutoffRow};
use sc_repair::Clearing;
use std::alloc::{AllocError, Global};

/// The line above the schools' lines.
const HEADER: &[u8; 37] = b"school,seats,held,class,draw,student\n";

/// Adds a key: its class, its draw and its student.
fn push_key(text: &mut Vec<u8>, key: Key) -> Result<(), AllocError>
    ensures { OnOk result (text.new.items ≡ text.old.items ++ key_text key) }
{
    push_number(text, u64::from(key.class))?;
    text.extend_from_slice(b",")?;
    push_draw(text, key.draw)?;
    text.extend_from_slice(b",")?;
    push_number(text, u64::from(key.student.get()))
}

/// Adds a cutoff as the cutoff text has it: its key, or what it is, and dashes. The only error is want of memory.
pub fn push_cutoff(text: &mut Vec<u8>, cutoff: Cutoff) -> Result<(), AllocError>
    ensures { OnOk result (text.new.items ≡ text.old.items ++ cutoff_field cutoff) }
{
    match cutoff {
        Cutoff::Closed => text.extend_from_slice(b"closed,-,-"),
        Cutoff::Free => text.extend_from_slice(b"free,-,-"),
        Cutoff::Full { key } => push_key(text, key),
    }
}

/// Adds the line of a school.
fn push_line(text: &mut Vec<u8>, row: &CutoffRow) -> Result<(), AllocError>
    ensures { OnOk result (text.new.items ≡ text.old.items ++ cutoff_line row.now) }
{
    push_number(text, u64::from(row.school.get()))?;
    text.extend_from_slice(b",")?;
    push_number(text, u64::from(row.seats.get()))?;
    text.extend_from_slice(b",")?;
    push_number(text, u64::from(row.held))?;
    text.extend_from_slice(b",")?;
    push_cutoff(text, row.cutoff)?;
    text.extend_from_slice(b"\n")
}

/// Adds the header and the line of each row.
pub(crate) fn push_cutoffs(text: &mut Vec<u8>, rows: &[CutoffRow]) -> Result<(), AllocError>
    ensures { OnOk result (text.new.items ≡ text.old.items ++ cutoff_lines rows.now) }
{
    text.extend_from_slice(HEADER)?;
    for row in rows {
        push_line(text, row)?;
    }
    Ok(())
}

/// The cutoff text: a header, and for each school by rising number a line with its seats, how many
/// students have it, and the key of its cutoff, or `closed` or `free` and dashes. The only error is
/// want of memory. The cost is that of `cutoffs`.
pub fn cutoff_text(alloc: Global, clearing: &Clearing) -> Result<Vec<u8>, AllocError>
    ensures { IfOk result (λ text. text.items
        ≡ cutoff_text clearing.now.standing.papers (matching_of clearing.now.standing)) }
{
    let rows = cutoffs(alloc, clearing)?;
    let mut text = Vec::new(alloc);
    push_cutoffs(&mut text, rows.as_slice())?;
    Ok(text)
}
