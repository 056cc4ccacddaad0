//! A file of rows, judged row by row: its faults one after the other, and then the rows that have none.

ghost use Rattle.std.specs.Prelude.{◌≡◌, ◌≢◌, ◌∷◌, ◌≤◌, ◌+◌, [], length, IfOk, IfSome, MatchOption, OnOk};
ghost use Rattle.sc_intake.specs.Checking.{faults_alone, good_of, judged_in, lists_judged, roster_judged, schools_judged, unjudged, with_row};
ghost use Rattle.sc_intake.specs.Fault.{Gives, fault_at, no_memory};
ghost use Rattle.sc_intake.specs.Rows.{added, next_row_at, AreRows};
ghost use Rattle.sc_intake.specs.Seen.{AreNumbers};
ghost use Rattle.sc_intake.specs.Sheets.{fault_by, left_from, left_of, with_told, IsSound};
ghost use Rattle.sc_intake.specs.declared.fault.Cause.TheVariants.{OutOfMemory};

use crate::fault::{Cause, IntakeFault};
use crate::input::records_in;
use crate::lists::ListRow;
use crate::records::Records;
use crate::roster::RosterRow;
use crate::rows::{Numbered, Row, Rows, add_row, take_header};
use crate::schools::SchoolRow;
use crate::seen::SeenNumbers;
use sc_papers::Refusal;
use std::alloc::{AllocError, Global};
use std::marker::Model;

/// The rows of a file while they are judged: each by the rows before it that have no fault.
#[derive(Drop)]
struct Underway<'a, R: Numbered> {
    width: usize,
    records: Records<'a>,
    // The number of the record that was read last.
    row: u64,
    rows: Vec<R>,
    seen: SeenNumbers,
}

/// A file of rows that is judged row by row. Its faults are told one after the other, as they are found, and none is
/// kept; then the rows that have none are there.
#[derive(Drop)]
pub struct Sheet<'a, R: Numbered> {
    alloc: Global,
    // The fault of a file that has no rows to judge, until it is told.
    whole: Option<IntakeFault>,
    // The rows while they are judged.
    underway: Option<Underway<'a, R>>,
    // The rows that have no fault, once all are judged.
    rows: Option<Rows<R>>,
}

impl<'a, R: Numbered> Model for Sheet<'a, R> {
    ghost use Rattle.sc_intake.specs.Checking.{Judging};
    ghost use Rattle.sc_intake.specs.Sheets.{judging_of, IsSoundIfAny};

    ghost Value = { Judging R };

    ghost view = { λ s. judging_of R.source R.MOST R.number R.reading s.whole s.underway s.rows };

    ghost invariant = { λ s. IsSoundIfAny R.MOST R.number s.underway };
}

/// A cause that is of a row; want of memory is an error of its own.
pub(crate) fn of_a_row(cause: Cause) -> Result<Cause, AllocError>
    ensures { IfOk result (λ found. (found ≡ cause) × (cause ≢ OutOfMemory)) }
{
    match cause {
        Cause::OutOfMemory | Cause::Refused(Refusal::OutOfMemory) => Err(AllocError),
        cause => Ok(cause),
    }
}

/// Judges the record read last: adds it to the rows before it, whose numbers were seen, or says why it is none.
fn judge_row<R: Row>(
    alloc: Global,
    row: u64,
    width: usize,
    fields: &Records,
    rows: &mut Vec<R>,
    seen: &mut SeenNumbers,
) -> Result<Option<Cause>, AllocError>
    requires rows { AreRows R.number R.MOST rows.old.items }
    requires seen { AreNumbers R.number rows.old.items seen.old }
    ensures judged { IfOk result (λ found. record { good = rows.new.items; faults = fault_by R.source row found }
        ≡ with_row R.source row (unjudged rows.old.items) (added rows.old.items
        (next_row_at R.MOST R.number R.reading width row rows.old.items fields.now.current))) }
    ensures rows { OnOk result (AreRows R.number R.MOST rows.new.items) }
    ensures seen { OnOk result (AreNumbers R.number rows.new.items seen.new) }
{
    match add_row(alloc, row, width, fields, rows, seen) {
        Ok(()) => Ok(None),
        Err(cause) => Ok(Some(of_a_row(cause)?)),
    }
}

/// Judges the records that are left, as far as the next one that has a fault: why it has one. Each of the others is
/// added to the rows.
fn next_cause<R: Row>(
    alloc: Global,
    width: usize,
    row: &mut u64,
    records: &mut Records,
    rows: &mut Vec<R>,
    seen: &mut SeenNumbers,
) -> Result<Option<Cause>, AllocError>
    requires rows { AreRows R.number R.MOST rows.old.items }
    requires seen { AreNumbers R.number rows.old.items seen.old }
    requires few { row.old + length records.old.left ≤ 67108866 }
    ensures next { IfOk result (λ found. MatchOption found
        (left_from R.source R.MOST R.number R.reading width row.old rows.old.items records.old.left
        ≡ unjudged rows.new.items)
        (λ cause. left_from R.source R.MOST R.number R.reading width row.old rows.old.items records.old.left
        ≡ with_told (fault_at R.source row.new cause ∷ [])
        (left_from R.source R.MOST R.number R.reading width row.new rows.new.items records.new.left))) }
    ensures rows { OnOk result (AreRows R.number R.MOST rows.new.items) }
    ensures seen { OnOk result (AreNumbers R.number rows.new.items seen.new) }
    ensures few { IfOk result (λ found. IfSome found (λ cause. row.new + length records.new.left ≤ 67108866)) }
{
    'rows: while records.read()? {
        *row += 1;
        if let Some(cause) = judge_row(alloc, *row, width, records, rows, seen)? {
            return Ok(Some(cause));
        }
    }
    Ok(None)
}

/// The rows of a file below its header; none is judged yet.
fn open_rows<'a, R: Row>(alloc: Global, bytes: &'a [u8]) -> Result<Underway<'a, R>, IntakeFault>
    ensures opened { Gives (left_of R.source R.MOST R.number R.reading) (no_memory R.source)
        (judged_in R.source R.is_header (next_row_at R.MOST R.number R.reading) bytes.now) result }
    ensures sound { IfOk result (IsSound R.MOST R.number) }
{
    let mut records = records_in(alloc, R::source(), bytes)?;
    let width = take_header::<R>(&mut records)?;
    Ok(Underway {
        width,
        records,
        row: 1,
        rows: Vec::new(alloc),
        seen: SeenNumbers::new(alloc),
    })
}

/// A file of rows that is to be judged.
fn judge_rows<'a, R: Row>(alloc: Global, bytes: &'a [u8]) -> Result<Sheet<'a, R>, AllocError>
    ensures faults { IfOk result (λ sheet. sheet.faults ≡ faults_alone
        (judged_in R.source R.is_header (next_row_at R.MOST R.number R.reading) bytes.now)) }
    ensures good { IfOk result (λ sheet. sheet.good ≡ good_of
        (judged_in R.source R.is_header (next_row_at R.MOST R.number R.reading) bytes.now)) }
{
    match open_rows(alloc, bytes) {
        Ok(underway) => Ok(Sheet {
            alloc,
            whole: None,
            underway: Some(underway),
            rows: None,
        }),
        Err(fault) => {
            if fault.cause == Cause::OutOfMemory {
                return Err(AllocError);
            }
            Ok(Sheet {
                alloc,
                whole: Some(fault),
                underway: None,
                rows: None,
            })
        }
    }
}

/// The file of the schools, to be judged row by row. A file that has no rows to judge has one fault, as `read_schools`
/// tells it: `TooLong` of row 0 or `Header` of row 1. The only error is want of memory.
pub fn judge_schools(alloc: Global, bytes: &[u8]) -> Result<Sheet<'_, SchoolRow>, AllocError>
    ensures faults { IfOk result (λ sheet. sheet.faults ≡ faults_alone (schools_judged bytes.now)) }
    ensures good { IfOk result (λ sheet. sheet.good ≡ good_of (schools_judged bytes.now)) }
{
    judge_rows(alloc, bytes)
}

/// The roster, to be judged row by row. A file that has no rows to judge has one fault, as `read_roster` tells it:
/// `TooLong` of row 0 or `Header` of row 1. The only error is want of memory.
pub fn judge_roster(alloc: Global, bytes: &[u8]) -> Result<Sheet<'_, RosterRow>, AllocError>
    ensures faults { IfOk result (λ sheet. sheet.faults ≡ faults_alone (roster_judged bytes.now)) }
    ensures good { IfOk result (λ sheet. sheet.good ≡ good_of (roster_judged bytes.now)) }
{
    judge_rows(alloc, bytes)
}

/// The rank-order lists, to be judged row by row. A file that has no rows to judge has one fault, as `read_lists` tells
/// it: `TooLong` of row 0 or `Header` of row 1. The only error is want of memory.
pub fn judge_lists(alloc: Global, bytes: &[u8]) -> Result<Sheet<'_, ListRow>, AllocError>
    ensures faults { IfOk result (λ sheet. sheet.faults ≡ faults_alone (lists_judged bytes.now)) }
    ensures good { IfOk result (λ sheet. sheet.good ≡ good_of (lists_judged bytes.now)) }
{
    judge_rows(alloc, bytes)
}

impl<'a, R: Numbered> Sheet<'a, R> {
    ghost use Rattle.std.specs.Prelude.{◌≡◌, option_map};

    /// The rows that have no fault, in order, once every fault was told, where the file has rows to judge.
    pub fn rows(&self) -> Option<&Rows<R>>
        ensures { option_map (λ rows. rows.now) result ≡ self.now.rows }
    {
        self.rows.as_ref()
    }
}

impl<'a, R: Row> Sheet<'a, R> {
    ghost use Rattle.std.specs.Prelude.{◌≡◌, ◌∷◌, [], IfNone, IfOk, MatchOption, OnOk};
    ghost use Rattle.sc_intake.specs.Checking.{IsJudged};

    /// The next fault, or `None` where there is none left. Each row that has one is told with its first cause, and
    /// changes nothing for the rows after it. The only error is want of memory, after which nothing is left.
    ///
    /// The cost is the length of the records up to the fault, and the memory that of the rows that have none.
    pub fn next_fault(&mut self) -> Result<Option<IntakeFault>, AllocError>
        ensures next { IfOk result (λ found. MatchOption found (self.old.faults ≡ [])
            (λ fault. self.old.faults ≡ fault ∷ self.new.faults)) }
        ensures end { IfOk result (λ found. IfNone found (IsJudged self.new)) }
        ensures good { OnOk result (self.new.good ≡ self.old.good) }
    {
        if let Some(fault) = self.whole.take() {
            return Ok(Some(fault));
        }
        let Some(underway) = self.underway.take() else {
            return Ok(None);
        };
        let Underway {
            width,
            mut records,
            mut row,
            mut rows,
            mut seen,
        } = underway;
        let found = next_cause(
            self.alloc,
            width,
            &mut row,
            &mut records,
            &mut rows,
            &mut seen,
        )?;
        match found {
            Some(cause) => {
                let fault = IntakeFault::at(R::source(), row, cause);
                self.underway = Some(Underway {
                    width,
                    records,
                    row,
                    rows,
                    seen,
                });
                Ok(Some(fault))
            }
            None => {
                self.rows = Some(Rows { rows });
                Ok(None)
            }
        }
    }
}
