//! The rows of a file that has a header.

ghost use Rattle.std.specs.Prelude.{◌≡◌, ℕ, ◌+◌, ◌≤◌, Bool, List, [], ◌≢◌, length, IfErr, IfOk, OnOk, Result as Reading};
ghost use Rattle.sc_intake.specs.Fault.{Gives, no_memory};
ghost use Rattle.sc_intake.specs.File.{after_header, rows_after, rows_in};
ghost use Rattle.sc_intake.specs.Rows.{added, next_row, next_row_at, AreRows};
ghost use Rattle.sc_intake.specs.Seen.{AreNumbers};
ghost use Rattle.sc_intake.specs.declared.fault.Cause.{Cause as Why};
ghost use Rattle.sc_intake.specs.declared.fault.Cause.TheVariants.{OutOfMemory};
ghost use Rattle.sc_intake.specs.declared.fault.Source.{Source as Input};

use crate::fault::{Cause, IntakeFault, Source};
use crate::input::records_in;
use crate::records::Records;
use crate::seen::SeenNumbers;
use std::alloc::{AllocError, Global};
use std::marker::Model;

/// A row with a number. No two rows of a file have the same one.
pub trait Numbered: Drop {
    // The most rows that a file may have.
    ghost MOST: { ℕ };

    // The row's number.
    ghost number: { Self → ℕ };

    // Which file it is.
    ghost source: { Input };

    // What these fields read as in this row.
    ghost reading: { ℕ → List (List ℕ) → Reading Self Why };

    /// The most rows that a file may have.
    const MOST: usize;

    /// The row's number.
    fn number(&self) -> u32
        ensures { result ≡ number self.now };
}

/// How the rows of a file are read: the file's header, and a record as a row.
pub(crate) trait Row: Numbered {
    // Whether these fields are the header.
    ghost is_header: { List (List ℕ) → Bool };

    /// Which file it is.
    fn source() -> Source
        ensures { result ≡ Self.source };

    /// Whether the record read last is the header.
    fn is_header(fields: &Records) -> bool
        ensures { result ≡ is_header fields.now.current };

    /// The row that the record read last is, under the record's number, or why it is none. It has as many fields as
    /// the header.
    fn read(alloc: Global, row: u64, fields: &Records) -> Result<Self, Cause>
        ensures { Gives (λ found. found) OutOfMemory (Self.reading row fields.now.current) result };
}

/// The rows of a file, in order. Their numbers are all different, and there are no more than there
/// may be.
#[derive(Debug, Drop)]
pub struct Rows<R: Numbered> {
    pub(crate) rows: Vec<R>,
}

impl<R: Numbered> Model for Rows<R> {
    ghost use Rattle.std.specs.Prelude.{List};
    ghost use Rattle.sc_intake.specs.Rows.{AreRows};

    ghost Value = { List R };

    ghost view = { λ r. r.rows.items };

    ghost invariant = { λ r. AreRows R.number R.MOST r.rows.items };
}

impl<R: Numbered> Rows<R> {
    /// The rows, in order.
    pub fn as_slice(&self) -> &[R]
        ensures value { result.now ≡ self.now }
        ensures rows { AreRows R.number R.MOST self.now }
    {
        self.rows.as_slice()
    }

    /// The rows, in order, as a list that may be taken apart.
    pub fn into_vec(self) -> Vec<R>
        ensures value { result.items ≡ self }
        ensures rows { AreRows R.number R.MOST self }
    {
        self.rows
    }

    /// How many rows there are.
    pub fn len(&self) -> usize
        ensures value { result ≡ length self.now }
        ensures few { result ≤ R.MOST }
    {
        self.rows.len()
    }
}

/// The numbers of rows.
pub(crate) fn numbers_of<R: Numbered>(alloc: Global, rows: &[R]) -> Result<SeenNumbers, AllocError>
    ensures { IfOk result (λ numbers. AreNumbers R.number rows.now numbers) }
{
    let mut numbers = SeenNumbers::new(alloc);
    for row in rows {
        numbers.insert(row.number())?;
    }
    Ok(numbers)
}

/// Takes the header, and says how many fields it has.
#[tactic(auto, unfolding(crate::specs::File::after_header))]
pub(crate) fn take_header<R: Row>(records: &mut Records) -> Result<usize, IntakeFault>
    ensures { Gives (λ width. (width, records.new.left)) (no_memory R.source)
        (after_header R.source R.is_header records.old.left) result }
{
    if records.advance(R::source())? && R::is_header(records) {
        return Ok(records.len());
    }
    Err(IntakeFault::at(R::source(), 1, Cause::Header))
}

/// Adds the row that the record read last is, in this row and under a header of so many fields, to the rows before it,
/// whose numbers were seen. After a fault of the record the rows and their numbers are as before.
pub(crate) fn add_row<R: Row>(
    alloc: Global,
    row: u64,
    width: usize,
    fields: &Records,
    rows: &mut Vec<R>,
    seen: &mut SeenNumbers,
) -> Result<(), Cause>
    requires rows { AreRows R.number R.MOST rows.old.items }
    requires seen { AreNumbers R.number rows.old.items seen.old }
    ensures gives { Gives (λ _. rows.new.items) OutOfMemory (added rows.old.items
        (next_row_at R.MOST R.number R.reading width row rows.old.items fields.now.current)) result }
    ensures rows { OnOk result (AreRows R.number R.MOST rows.new.items) }
    ensures seen { OnOk result (AreNumbers R.number rows.new.items seen.new) }
    ensures more { OnOk result (length rows.new.items ≡ length rows.old.items + 1) }
    ensures same_rows { IfErr result (λ cause. cause ≢ OutOfMemory → rows.new.items ≡ rows.old.items) }
    ensures same_numbers { IfErr result (λ cause. cause ≢ OutOfMemory → AreNumbers R.number rows.old.items seen.new) }
{
    if rows.len() >= R::MOST {
        return Err(Cause::TooLong);
    }
    if fields.len() != width {
        return Err(Cause::Fields);
    }
    let found = R::read(alloc, row, fields)?;
    if !seen.insert(found.number())? {
        return Err(Cause::Twice);
    }
    rows.push(found)?;
    Ok(())
}

/// The rows after a header of so many fields.
fn take_rows<R: Row>(
    alloc: Global,
    width: usize,
    records: &mut Records,
) -> Result<Vec<R>, IntakeFault>
    ensures gives { Gives (λ rows. rows.items) (no_memory R.source)
        (rows_after 2 R.source (next_row R.MOST R.number R.reading width) [] records.old.left) result }
    ensures rows { IfOk result (λ rows. AreRows R.number R.MOST rows.items) }
{
    let mut rows = Vec::new(alloc);
    let mut seen = SeenNumbers::new(alloc);
    'rows: while records.advance(R::source())? {
        let row = rows.len() as u64 + 2;
        if let Err(cause) = add_row(alloc, row, width, records, &mut rows, &mut seen) {
            return Err(IntakeFault::at(R::source(), row, cause));
        }
    }
    Ok(rows)
}

/// The rows of a file, or the first fault of the first faulty row.
pub(crate) fn read_rows<R: Row>(alloc: Global, bytes: &[u8]) -> Result<Rows<R>, IntakeFault>
    ensures { Gives (λ rows. rows) (no_memory R.source) (rows_in R.source R.is_header
        (next_row R.MOST R.number R.reading) bytes.now) result }
{
    let mut records = records_in(alloc, R::source(), bytes)?;
    let width = take_header::<R>(&mut records)?;
    let rows = take_rows(alloc, width, &mut records)?;
    Ok(Rows { rows })
}
