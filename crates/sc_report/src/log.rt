//! A rejection log as text.
ghost use Rattle.std.specs.Prelude.{◌≡◌, ◌++◌, IfOk, OnOk};
ghost use Rattle.sc_report.specs.LogText.{log_line, log_text};

use sc_decimal::push_number;
use sc_papers::Rejection;
use std::alloc::{AllocError, Global};

/// The most bytes of a line: two numbers, a comma and a newline.
const LONGEST_LINE: usize = 16;

/// Adds the line of an entry.
fn push_entry(text: &mut Vec<u8>, entry: Rejection) -> Result<(), AllocError>
    ensures { OnOk result (text.new.items ≡ text.old.items ++ log_line entry) }
{
    push_number(text, u64::from(entry.student.get()))?;
    text.extend_from_slice(b",")?;
    push_number(text, u64::from(entry.school.get()))?;
    text.extend_from_slice(b"\n")
}

/// The log text: for each entry a line with its student and its school, and no header. The only
/// error is want of memory. One pass.
pub fn log_text(alloc: Global, log: &[Rejection]) -> Result<Vec<u8>, AllocError>
    ensures { IfOk result (λ text. text.items ≡ log_text log.now) }
{
    let mut text = Vec::with_capacity(alloc, log.len().saturating_mul(LONGEST_LINE))?;
    for entry in log {
        push_entry(&mut text, *entry)?;
    }
    Ok(text)
}
