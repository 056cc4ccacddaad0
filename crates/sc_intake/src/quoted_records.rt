//! The records of a text that may have quotes, as `csv` reads them.

ghost use Rattle.std.specs.Prelude.{◌≡◌, true, [], IfOk, MatchBool};
ghost use Rattle.csv.specs.Reading.{default_config, error_kind, reader_state, records, stops_reader, strip_bom};
ghost use Rattle.csv.specs.Records.{fields_of};
ghost use Rattle.sc_intake.specs.Reading.{IsReading, Moves, records_of, unread};

use csv::{ByteRecord, Reader, ReaderBuilder};
use std::alloc::{AllocError, Global};
use std::marker::Model;

/// The records of a text: the one read last, and those that are left. One record is used again and
/// again, so that the memory does not grow with the text.
pub(crate) struct QuotedRecords<'a> {
    alloc: Global,
    text: &'a [u8],
    // Made by the first read. It holds the tables of a state machine, so it is kept out of the frames of the
    // functions that hand these records on: where memory is wanting a stack cannot grow, and nothing can be told.
    reader: Option<Box<Reader<&'a [u8]>>>,
    fields: ByteRecord,
    stopped: bool,
}

impl Drop for QuotedRecords<'_> {
    fn drop(self) {
        let QuotedRecords {
            alloc: _,
            text: _,
            reader: _,
            fields: _,
            stopped: _,
        } = self;
    }
}

impl<'a> Model for QuotedRecords<'a> {
    ghost use Rattle.sc_intake.specs.Cursor.{Cursor};

    ghost Value = { Cursor };

    ghost use Rattle.sc_intake.specs.Representation.{quoted_cursor_of, IsSound};

    ghost view = { quoted_cursor_of };

    ghost invariant = { IsSound };
}

/// The error of a reader that stopped as want of memory: a slice has no errors of its own to give,
/// though the trait does not say so, and the other errors do not stop a reader.
fn want_of_memory(error: csv::Error) -> AllocError
    requires { stops_reader (error_kind error) ≡ true }
{
    AllocError
}

/// A reader of a text, whose first byte order mark is passed over. It has headers, of no fields: else it would keep its
/// first record twice more as these. The only error is want of memory.
fn reader_of(alloc: Global, text: &[u8]) -> Result<Reader<&[u8]>, AllocError>
    ensures reading { IfOk result IsReading }
    ensures left { IfOk result (λ reader. records_of (reader_state reader) (unread reader)
        ≡ records default_config (strip_bom text.now)) }
{
    let mut reader = ReaderBuilder::new().flexible(true).from_reader(alloc, text);
    match reader.set_byte_headers(ByteRecord::new(alloc)) {
        Ok(()) => Ok(reader),
        Err(_) => Err(AllocError),
    }
}

/// A reader of a text in memory of its own, so that no other function has a place for it on the stack.
#[inline(never)]
fn boxed_reader_of(alloc: Global, text: &[u8]) -> Result<Box<Reader<&[u8]>>, AllocError>
    ensures reading { IfOk result (λ reader. IsReading reader.value) }
    ensures left { IfOk result (λ reader. records_of (reader_state reader.value) (unread reader.value)
        ≡ records default_config (strip_bom text.now)) }
{
    let boxed = Box::new(alloc, reader_of(alloc, text)?)?;
    Ok(boxed)
}

/// Reads the next record of a text, and says whether there was one.
fn read(reader: &mut Reader<&[u8]>, fields: &mut ByteRecord) -> Result<bool, AllocError>
    requires { IsReading reader.old }
    ensures { IfOk result (λ found. MatchBool found (Moves reader.old reader.new (fields_of fields.new))
        (records_of (reader_state reader.old) (unread reader.old) ≡ [])) }
{
    match reader.read_byte_record(fields) {
        Ok(found) => Ok(found),
        Err(error) => Err(want_of_memory(error)),
    }
}

impl<'a> QuotedRecords<'a> {
    ghost use Rattle.std.specs.Prelude.{◌≡◌, IfOk, length, option_map};
    ghost use Rattle.csv.specs.Reading.{default_config, records, strip_bom};
    ghost use Rattle.csv.specs.Records.{field_at};
    ghost use Rattle.sc_intake.specs.Cursor.{ReadsNext};

    /// The records of a text, whose first byte order mark is passed over; none is read yet.
    pub(crate) fn new(alloc: Global, text: &'a [u8]) -> Self
        ensures { result.left ≡ records default_config (strip_bom text.now) }
    {
        QuotedRecords {
            alloc,
            text,
            reader: None,
            fields: ByteRecord::new(alloc),
            stopped: false,
        }
    }

    /// Reads the next record, and says whether there was one. The only error is want of memory, after which there are
    /// no more.
    pub(crate) fn advance(&mut self) -> Result<bool, AllocError>
        ensures { IfOk result (ReadsNext self.old self.new) }
    {
        if self.stopped {
            return Ok(false);
        }
        self.stopped = true;
        let mut reader = match self.reader.take() {
            Some(reader) => reader,
            None => boxed_reader_of(self.alloc, self.text)?,
        };
        let found = read(&mut reader, &mut self.fields)?;
        self.reader = Some(reader);
        self.stopped = !found;
        Ok(found)
    }

    /// How many fields the record read last has.
    pub(crate) fn len(&self) -> usize
        ensures { result ≡ length self.now.current }
    {
        self.fields.len()
    }

    /// A field of the record read last, if it has so many.
    pub(crate) fn get(&self, index: usize) -> Option<&[u8]>
        ensures { option_map (λ f. f.now) result ≡ field_at self.now.current index }
    {
        self.fields.get(index)
    }
}
