//! The log: rejections, one a record.

ghost use Rattle.std.specs.Prelude.{◌≡◌, ◌<◌, [], IfNone, IfOk, IfSome, MatchBool, MatchResult, Ok, length, true};
ghost use Rattle.sc_intake.specs.Fault.{Gives, IsFault, no_memory};
ghost use Rattle.sc_intake.specs.Log.{log_after, log_in, rejection_of};
ghost use Rattle.sc_intake.specs.Rows.{added};
ghost use Rattle.sc_intake.specs.Tidy.{TakesRejection};
ghost use Rattle.sc_intake.specs.declared.fault.Cause.TheVariants.{OutOfMemory};
ghost use Rattle.sc_intake.specs.declared.fault.Source.TheVariants.{Log};

use crate::fault::{Cause, IntakeFault, Source};
use crate::field::number;
use crate::input::records_in;
use crate::ranges;
use crate::records::Records;
use crate::tidy_rows::take_rejection;
use sc_papers::Rejection;
use std::alloc::Global;

/// Adds the rejection that the record read last is to the log.
fn add_rejection(fields: &Records, log: &mut Vec<Rejection>) -> Result<(), Cause>
    ensures { Gives (λ _. log.new.items) OutOfMemory (added log.old.items (rejection_of fields.now.current)) result }
{
    if fields.len() != 2 {
        return Err(Cause::Fields);
    }
    let student = number(fields.field(0))?;
    let school = number(fields.field(1))?;
    log.push(Rejection {
        student: ranges::student(student)?,
        school: ranges::school(school)?,
    })?;
    Ok(())
}

/// The rejection that the next record is, where that is tidy. `None` says nothing of it, and leaves the records as they
/// were.
fn tidy_rejection(records: &mut Records) -> Option<Rejection>
    ensures rejection { IfSome result (TakesRejection records.old.left records.new.left) }
    ensures unchanged { IfNone result (records.new ≡ records.old) }
{
    let text = records.text()?;
    let Some((found, rest)) = take_rejection(text) else {
        return None;
    };
    records.go_on(rest);
    Some(found)
}

/// Adds the rejection that the next record is to the log, if there is one, and says whether there was.
fn add_next(records: &mut Records, log: &mut Vec<Rejection>) -> Result<bool, IntakeFault>
    ensures added { MatchResult result (λ found. MatchBool found
        (log_after log.old.items records.old.left ≡ log_after log.new.items records.new.left)
        (log_after log.old.items records.old.left ≡ Ok log.new.items))
        (IsFault (no_memory Log) (log_after log.old.items records.old.left)) }
    ensures fewer { IfOk result (λ found. found ≡ true → length records.new.left < length records.old.left) }
{
    if let Some(found) = tidy_rejection(records) {
        return match log.push(found) {
            Ok(()) => Ok(true),
            Err(_) => Err(IntakeFault::no_memory(Source::Log)),
        };
    }
    if !records.advance(Source::Log)? {
        return Ok(false);
    }
    let row = log.len() as u64 + 1;
    match add_rejection(records, log) {
        Ok(()) => Ok(true),
        Err(cause) => Err(IntakeFault::at(Source::Log, row, cause)),
    }
}

/// The rejections that the records are.
fn take_log(alloc: Global, records: &mut Records) -> Result<Vec<Rejection>, IntakeFault>
    ensures { Gives (λ log. log.items) (no_memory Log) (log_after [] records.old.left) result }
{
    let mut log = Vec::new(alloc);
    'log: while add_next(records, &mut log)? {}
    Ok(log)
}

/// Reads a log, which has no header: its rejections `STUDENT,SCHOOL` in order, or the first fault of
/// the first faulty row. The same rejection may stand twice.
///
/// The cost is the length of the log, and the memory that of its rejections.
pub fn read_log(alloc: Global, bytes: &[u8]) -> Result<Vec<Rejection>, IntakeFault>
    ensures { Gives (λ log. log.items) (no_memory Log) (log_in bytes.now) result }
{
    let mut records = records_in(alloc, Source::Log, bytes)?;
    let log = take_log(alloc, &mut records)?;
    Ok(log)
}
