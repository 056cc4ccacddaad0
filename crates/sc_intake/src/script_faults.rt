//! A script, judged record by record: its faults one after the other.

ghost use Rattle.std.specs.Prelude.{◌≡◌, ◌∷◌, ◌≤◌, ◌+◌, [], length, IfOk, IfSome, MatchOption};
ghost use Rattle.sc_intake.specs.Checking.{script_faults, script_faults_from};
ghost use Rattle.sc_intake.specs.Sheets.{cause_in};
ghost use Rattle.sc_intake.specs.Fault.{fault_at};
ghost use Rattle.sc_intake.specs.Script.{stamped_of};
ghost use Rattle.sc_intake.specs.declared.fault.Source.TheVariants as source;

use crate::fault::{Cause, IntakeFault, Source};
use crate::input::records_in;
use crate::records::Records;
use crate::script::stamped_of;
use crate::sheet::of_a_row;
use std::alloc::{AllocError, Global};
use std::marker::Model;

/// The records of a script that are yet to be judged.
#[derive(Drop)]
struct Unjudged<'a> {
    records: Records<'a>,
    // The number of the record that was read last.
    row: u64,
}

/// The faults of a script that are left to be told. They are told one after the other, as they are found, and none is
/// kept.
#[derive(Drop)]
pub struct ScriptFaults<'a> {
    alloc: Global,
    // The fault of a script that has no records, until it is told.
    whole: Option<IntakeFault>,
    unjudged: Option<Unjudged<'a>>,
}

impl<'a> Model for ScriptFaults<'a> {
    ghost use Rattle.std.specs.Prelude.{List};
    ghost use Rattle.sc_intake.specs.Sheets.{script_left, AreFew};
    ghost use Rattle.sc_intake.specs.declared.fault.IntakeFault.{IntakeFault as Fault};

    ghost Value = { List Fault };

    ghost view = { λ s. script_left s.whole s.unjudged };

    ghost invariant = { λ s. AreFew s.unjudged };
}

/// Why the record of a script that was read last is no stamped amendment, where it is none.
fn judge_record(alloc: Global, fields: &Records) -> Result<Option<Cause>, AllocError>
    ensures { IfOk result (λ found. found ≡ cause_in (stamped_of fields.now.current)) }
{
    match stamped_of(alloc, fields) {
        Ok(stamped) => {
            drop(stamped);
            Ok(None)
        }
        Err(cause) => Ok(Some(of_a_row(cause)?)),
    }
}

/// Judges the records that are left of a script, as far as the next one that has a fault: why it has one.
fn next_cause(
    alloc: Global,
    row: &mut u64,
    records: &mut Records,
) -> Result<Option<Cause>, AllocError>
    requires few { row.old + length records.old.left ≤ 67108866 }
    ensures next { IfOk result (λ found. MatchOption found (script_faults_from (row.old + 1) records.old.left ≡ [])
        (λ cause. script_faults_from (row.old + 1) records.old.left
        ≡ fault_at source.Script row.new cause ∷ script_faults_from (row.new + 1) records.new.left)) }
    ensures few { IfOk result (λ found. IfSome found (λ cause. row.new + length records.new.left ≤ 67108866)) }
{
    'records: while records.read()? {
        *row += 1;
        if let Some(cause) = judge_record(alloc, records)? {
            return Ok(Some(cause));
        }
    }
    Ok(None)
}

/// The faults of the records of a script, of which none was judged yet.
fn judge_all(alloc: Global, records: Records<'_>) -> ScriptFaults<'_>
    requires { length records.left ≤ 67108866 }
    ensures { result ≡ script_faults_from 1 records.entry.left }
{
    ScriptFaults {
        alloc,
        whole: None,
        unjudged: Some(Unjudged { records, row: 0 }),
    }
}

/// The faults of a script, to be told one after the other: one of each record that is no stamped amendment, with its
/// first cause, from record 1 on; or the fault of a script that has no records, `TooLong` of row 0 or `Header` of row 1.
pub fn judge_script(alloc: Global, bytes: &[u8]) -> ScriptFaults<'_>
    ensures { result ≡ script_faults bytes.now }
{
    match records_in(alloc, Source::Script, bytes) {
        Ok(records) => judge_all(alloc, records),
        Err(fault) => ScriptFaults {
            alloc,
            whole: Some(fault),
            unjudged: None,
        },
    }
}

impl<'a> ScriptFaults<'a> {
    ghost use Rattle.std.specs.Prelude.{◌≡◌, ◌∷◌, [], IfOk, MatchOption};

    /// The next fault, or `None` where there is none left. The only error is want of memory, after which nothing is
    /// left.
    ///
    /// The cost is the length of the records up to the fault, and the memory that of one record.
    pub fn next_fault(&mut self) -> Result<Option<IntakeFault>, AllocError>
        ensures { IfOk result (λ found. MatchOption found ((self.old ≡ []) × (self.new ≡ []))
            (λ fault. self.old ≡ fault ∷ self.new)) }
    {
        if let Some(fault) = self.whole.take() {
            return Ok(Some(fault));
        }
        let Some(unjudged) = self.unjudged.take() else {
            return Ok(None);
        };
        let Unjudged {
            mut records,
            mut row,
        } = unjudged;
        match next_cause(self.alloc, &mut row, &mut records)? {
            Some(cause) => {
                self.unjudged = Some(Unjudged { records, row });
                Ok(Some(IntakeFault::at(Source::Script, row, cause)))
            }
            None => Ok(None),
        }
    }
}
