//! What a script's record is answered.
ghost use Rattle.std.specs.Prelude.{◌≡◌, ◌++◌, IfOk, OnOk};
ghost use Rattle.sc_report.specs.Reply.{number_text, refusal_text, reply_text};

use sc_decimal::push_number;
use sc_papers::Refusal;
use std::alloc::{AllocError, Global};

/// Adds a comma and a number, where there is one.
fn push_told(line: &mut Vec<u8>, number: Option<u32>) -> Result<(), AllocError>
    ensures { OnOk result (line.new.items ≡ line.old.items ++ number_text number) }
{
    if let Some(number) = number {
        line.extend_from_slice(b",")?;
        push_number(line, u64::from(number))?;
    }
    Ok(())
}

/// Adds a refusal's code, its name, and the number that it tells, if any.
fn push_refusal(line: &mut Vec<u8>, refusal: &Refusal) -> Result<(), AllocError>
    ensures { OnOk result (line.new.items ≡ line.old.items ++ refusal_text refusal.now) }
{
    push_number(line, u64::from(refusal.code()))?;
    line.extend_from_slice(b",")?;
    line.extend_from_slice(refusal.name().as_bytes())?;
    push_told(line, refusal.number())
}

/// The reply line of a script's record, given its number, counted from 1, and what it was answered:
/// `n,ok`, or `n,refused` with the refusal's code, its name, and the number that it tells, if any: that of
/// a school, or the stamp that stands. The only error is want of memory.
pub fn reply_line(
    alloc: Global,
    number: u64,
    reply: &Result<(), Refusal>,
) -> Result<Vec<u8>, AllocError>
    ensures { IfOk result (λ line. line.items ≡ reply_text number reply.now) }
{
    let mut line = Vec::new(alloc);
    push_number(&mut line, number)?;
    match reply {
        Ok(()) => line.extend_from_slice(b",ok\n")?,
        Err(refusal) => {
            line.extend_from_slice(b",refused,")?;
            push_refusal(&mut line, refusal)?;
            line.extend_from_slice(b"\n")?;
        }
    }
    Ok(line)
}
