//! The script: stamped amendments, one a record.

ghost use Rattle.std.specs.Prelude.{◌≡◌, ◌≢◌, ◌++◌, IfOk, OnOk};
ghost use Rattle.sc_papers.specs.declared.amendment.Refusal.TheVariants.{Shape};
ghost use Rattle.sc_intake.specs.Fault.{Gives, no_memory};
ghost use Rattle.sc_intake.specs.Script.{add_of, amendment_of, close_of, correct_of, enter_of, list_at, rerank_of, script_in, stamped_in, stamped_of, withdraw_of};
ghost use Rattle.sc_intake.specs.declared.fault.Cause.TheVariants.{OutOfMemory};
ghost use Rattle.sc_intake.specs.declared.fault.Source.TheVariants.{Script};

use crate::fault::{Cause, IntakeFault, Source};
use crate::field::{number, number_or_none};
use crate::ranges;
use crate::records::Records;
use crate::school_list::school_list;
use crate::script_records::ScriptRecords;
use sc_papers::{Amendment, Refusal, SchoolList, Stamped};
use std::alloc::{AllocError, Global};

/// The list of schools that a field writes.
#[tactic(auto, unfolding(crate::specs::Script::list_at))]
fn list_at(alloc: Global, fields: &Records, index: usize) -> Result<SchoolList, Cause>
    ensures { Gives (λ schools. schools) OutOfMemory (list_at fields.now.current index) result }
{
    Ok(school_list(alloc, fields.field(index))??)
}

/// `STAMP,enter,STUDENT,ZONE,SIBLINGS,CHOICES`, and with a comma the school at which the student continues.
#[tactic(auto, unfolding(crate::specs::Script::enter_of))]
fn enter_of(alloc: Global, fields: &Records) -> Result<Amendment, Cause>
    ensures { Gives (λ amendment. amendment) OutOfMemory (enter_of fields.now.current) result }
{
    if fields.len() != 6 && fields.len() != 7 {
        return Err(Cause::Fields);
    }
    Ok(Amendment::Enter {
        student: ranges::student(number(fields.field(2))?)?,
        zone: ranges::zone(number(fields.field(3))?)?,
        siblings: list_at(alloc, fields, 4)?,
        choices: list_at(alloc, fields, 5)?,
        continuing: ranges::school_or_none(number_or_none(fields.field(6))?)?,
    })
}

/// `STAMP,withdraw,STUDENT`
#[tactic(auto, unfolding(crate::specs::Script::withdraw_of))]
fn withdraw_of(fields: &Records) -> Result<Amendment, Cause>
    ensures { result ≡ withdraw_of fields.now.current }
{
    if fields.len() != 3 {
        return Err(Cause::Fields);
    }
    Ok(Amendment::Withdraw {
        student: ranges::student(number(fields.field(2))?)?,
    })
}

/// `STAMP,rerank,STUDENT,CHOICES`
#[tactic(auto, unfolding(crate::specs::Script::rerank_of))]
fn rerank_of(alloc: Global, fields: &Records) -> Result<Amendment, Cause>
    ensures { Gives (λ amendment. amendment) OutOfMemory (rerank_of fields.now.current) result }
{
    if fields.len() != 4 {
        return Err(Cause::Fields);
    }
    Ok(Amendment::Rerank {
        student: ranges::student(number(fields.field(2))?)?,
        choices: list_at(alloc, fields, 3)?,
    })
}

/// `STAMP,add,SCHOOL,COUNT`
#[tactic(auto, unfolding(crate::specs::Script::add_of))]
fn add_of(fields: &Records) -> Result<Amendment, Cause>
    ensures { result ≡ add_of fields.now.current }
{
    if fields.len() != 4 {
        return Err(Cause::Fields);
    }
    Ok(Amendment::Add {
        school: ranges::school(number(fields.field(2))?)?,
        count: ranges::count(number(fields.field(3))?)?,
    })
}

/// `STAMP,close,SCHOOL,COUNT`
#[tactic(auto, unfolding(crate::specs::Script::close_of))]
fn close_of(fields: &Records) -> Result<Amendment, Cause>
    ensures { result ≡ close_of fields.now.current }
{
    if fields.len() != 4 {
        return Err(Cause::Fields);
    }
    Ok(Amendment::Close {
        school: ranges::school(number(fields.field(2))?)?,
        count: ranges::count(number(fields.field(3))?)?,
    })
}

/// `STAMP,correct,STUDENT,ZONE,SIBLINGS`, and with a comma the school at which the student continues.
#[tactic(auto, unfolding(crate::specs::Script::correct_of))]
fn correct_of(alloc: Global, fields: &Records) -> Result<Amendment, Cause>
    ensures { Gives (λ amendment. amendment) OutOfMemory (correct_of fields.now.current) result }
{
    if fields.len() != 5 && fields.len() != 6 {
        return Err(Cause::Fields);
    }
    Ok(Amendment::Correct {
        student: ranges::student(number(fields.field(2))?)?,
        zone: ranges::zone(number(fields.field(3))?)?,
        siblings: list_at(alloc, fields, 4)?,
        continuing: ranges::school_or_none(number_or_none(fields.field(5))?)?,
    })
}

/// The amendment that the record read last is, by the word after its stamp.
#[tactic(auto, unfolding(crate::specs::Script::amendment_of))]
fn amendment_of(alloc: Global, fields: &Records) -> Result<Amendment, Cause>
    ensures { Gives (λ amendment. amendment) OutOfMemory (amendment_of fields.now.current) result }
{
    if fields.reads(1, b"enter") {
        return enter_of(alloc, fields);
    }
    if fields.reads(1, b"withdraw") {
        return withdraw_of(fields);
    }
    if fields.reads(1, b"rerank") {
        return rerank_of(alloc, fields);
    }
    if fields.reads(1, b"add") {
        return add_of(fields);
    }
    if fields.reads(1, b"close") {
        return close_of(fields);
    }
    if fields.reads(1, b"correct") {
        return correct_of(alloc, fields);
    }
    Err(Cause::Fields)
}

/// The stamped amendment that the record read last is: the stamp is in its first field.
#[tactic(auto, unfolding(crate::specs::Script::stamped_of))]
pub(crate) fn stamped_of(alloc: Global, fields: &Records) -> Result<Stamped, Cause>
    ensures { Gives (λ stamped. stamped) OutOfMemory (stamped_of fields.now.current) result }
{
    Ok(Stamped {
        stamp: ranges::stamp(number(fields.field(0))?)?,
        amendment: amendment_of(alloc, fields)?,
    })
}

/// The refusal of a record that is no amendment; want of memory is an error of its own.
fn shape(cause: Cause) -> Result<Refusal, AllocError>
    ensures { IfOk result (λ refusal. (refusal ≡ Shape) × (cause ≢ OutOfMemory)) }
{
    match cause {
        Cause::OutOfMemory => Err(AllocError),
        _ => Ok(Refusal::Shape),
    }
}

/// What the record read last is: a stamped amendment, or `Shape`.
pub(crate) fn stamped_in(
    alloc: Global,
    fields: &Records,
) -> Result<Result<Stamped, Refusal>, AllocError>
    ensures { IfOk result (λ found. found ≡ stamped_in fields.now.current) }
{
    match stamped_of(alloc, fields) {
        Ok(stamped) => Ok(Ok(stamped)),
        Err(cause) => Ok(Err(shape(cause)?)),
    }
}

/// Adds the records that are left of a script to those that were read.
fn take_script(
    records: &mut ScriptRecords<'_>,
    script: &mut Vec<Result<Stamped, Refusal>>,
) -> Result<(), AllocError>
    ensures { OnOk result (script.new.items ≡ script.old.items ++ records.old) }
{
    'records: while let Some(entry) = records.next_record()? {
        script.push(entry)?;
    }
    Ok(())
}

/// Reads a script, which has no header: each of its records is an amendment with the stamp of its record
/// in front, or `Shape` where it is none. The reading goes on after such a record.
///
/// The fault is `TooLong` of row 0 where the script is too long, and `Header` of row 1 where a
/// second byte order mark follows the first. Want of memory is of row 0.
///
/// The cost is the length of the script, and the memory that of its amendments; `ScriptRecords` reads them one at a
/// time.
pub fn read_script(
    alloc: Global,
    bytes: &[u8],
) -> Result<Vec<Result<Stamped, Refusal>>, IntakeFault>
    ensures { Gives (λ script. script.items) (no_memory Script) (script_in bytes.now) result }
{
    let mut records = ScriptRecords::open(alloc, bytes)?;
    let mut script = Vec::new(alloc);
    match take_script(&mut records, &mut script) {
        Ok(()) => Ok(script),
        Err(_) => Err(IntakeFault::no_memory(Source::Script)),
    }
}
