//! The records of a text, one at a time.

use crate::blanks::{Blanks, trimmed};
use crate::fault::{IntakeFault, Source};
use crate::line_records::LineRecords;
use crate::plain_records::{PlainRecords, field_of, fields_len};
use crate::quoted_records::QuotedRecords;
use std::alloc::{AllocError, Global};
use std::marker::Model;

/// The records of a text: the one read last, and those that are left.
pub(crate) struct Records<'a> {
    cutter: Cutter<'a>,
}

impl Drop for Records<'_> {
    fn drop(self) {
        let Records { cutter: _ } = self;
    }
}

/// How a text is cut into records: line by line, until one has a quote; line by line, whatever each has; or by `csv`'s state
/// machine, which alone copies them.
#[derive(Drop)]
enum Cutter<'a> {
    Lines(LineRecords<'a>),
    Plain(PlainRecords<'a>),
    Quoted(QuotedRecords<'a>),
}

impl<'a> Model for Records<'a> {
    ghost use Rattle.sc_intake.specs.Cursor.{Cursor};

    ghost Value = { Cursor };

    ghost use Rattle.sc_intake.specs.Choice.{cursor_of};

    ghost view = { λ r. cursor_of r.cutter };
}

impl<'a> Records<'a> {
    ghost use Rattle.std.specs.Prelude.{◌≡◌, [], false, length, option_map, IfOk, IfSome, MatchResult};
    ghost use Rattle.csv.specs.Reading.{default_config, records};
    ghost use Rattle.csv.specs.Records.{field_at};
    ghost use Rattle.std.specs.Str.{bytes_eq};
    ghost use Rattle.sc_intake.specs.Cursor.{ReadsNext};
    ghost use Rattle.sc_intake.specs.Fault.{no_memory};
    ghost use Rattle.sc_intake.specs.File.{is_marked, text_at};
    ghost use Rattle.sc_intake.specs.Plain.{cut, plain_records};

    /// The records of a text, which no byte order mark begins; none is read yet.
    pub(crate) fn new(alloc: Global, unmarked: &'a [u8]) -> Self
        requires { is_marked unmarked.now ≡ false }
        ensures { result.left ≡ records default_config unmarked.now }
    {
        Records {
            cutter: Cutter::Lines(LineRecords::new(alloc, unmarked)),
        }
    }

    /// The records of a text, each of whose lines is one; none is read yet.
    pub(crate) fn plain(text: &'a [u8]) -> Self
        ensures { result.left ≡ plain_records text.now }
    {
        Records {
            cutter: Cutter::Plain(PlainRecords::new(text)),
        }
    }

    /// No records.
    #[tactic(auto, unfolding(crate::specs::Plain::plain_records, crate::specs::Plain::lines_from))]
    pub(crate) fn none() -> Self
        ensures { result.left ≡ [] }
    {
        Records::plain(&[])
    }

    /// Reads the next record, and says whether there was one. The only error is want of memory.
    pub(crate) fn read(&mut self) -> Result<bool, AllocError>
        ensures { IfOk result (ReadsNext self.old self.new) }
    {
        let mut quoted = match &mut self.cutter {
            Cutter::Lines(records) => match records.advance() {
                Some(found) => return Ok(found),
                None => records.quoted(),
            },
            Cutter::Plain(records) => return Ok(records.advance()),
            Cutter::Quoted(records) => return records.advance(),
        };
        let found = quoted.advance()?;
        self.cutter = Cutter::Quoted(quoted);
        Ok(found)
    }

    /// The text of the records that are left, which begins with the first of them, unless `csv`'s machine cuts it.
    pub(crate) fn text(&self) -> Option<&'a [u8]>
        ensures { IfSome result (λ text. self.now.left ≡ cut self.now.by_lines text.now) }
    {
        match &self.cutter {
            Cutter::Lines(records) => Some(records.text()),
            Cutter::Plain(records) => Some(records.text()),
            Cutter::Quoted(_) => None,
        }
    }

    /// Goes on with the records of this text, which no byte order mark begins. It is cut as the one before was.
    #[inline]
    pub(crate) fn go_on(&mut self, text: &'a [u8])
        requires { is_marked text.now ≡ false }
        ensures { self.new.left ≡ cut self.old.by_lines text.now }
    {
        match &mut self.cutter {
            Cutter::Lines(records) => records.go_on(text),
            _ => self.go_on_by_lines(text),
        }
    }

    /// Goes on with the records of this text, each of whose lines is one.
    #[inline]
    pub(crate) fn go_on_by_lines(&mut self, text: &'a [u8])
        ensures { self.new.left ≡ plain_records text.now }
    {
        match &mut self.cutter {
            Cutter::Plain(records) => records.go_on(text),
            _ => self.cutter = Cutter::Plain(PlainRecords::new(text)),
        }
    }

    /// Reads the next record, and says whether there was one. The fault is want of memory in
    /// reading this input.
    pub(crate) fn advance(&mut self, source: Source) -> Result<bool, IntakeFault>
        ensures { MatchResult result (ReadsNext self.old self.new) (λ fault. fault ≡ no_memory source) }
    {
        match self.read() {
            Ok(found) => Ok(found),
            Err(_) => Err(IntakeFault::no_memory(source)),
        }
    }

    /// How many fields the record read last has.
    pub(crate) fn len(&self) -> usize
        ensures { result ≡ length self.now.current }
    {
        match &self.cutter {
            Cutter::Lines(records) => fields_len(records.line()),
            Cutter::Plain(records) => fields_len(records.line()),
            Cutter::Quoted(records) => records.len(),
        }
    }

    /// A field of the record read last, if it has so many.
    pub(crate) fn get(&self, index: usize) -> Option<&[u8]>
        ensures { option_map (λ f. f.now) result ≡ field_at self.now.current index }
    {
        match &self.cutter {
            Cutter::Lines(records) => field_of(records.line(), index),
            Cutter::Plain(records) => field_of(records.line(), index),
            Cutter::Quoted(records) => records.get(index),
        }
    }

    /// A field of the record read last without the blanks around it; one past the last is empty.
    pub(crate) fn field(&self, index: usize) -> &[u8]
        ensures { result.now ≡ text_at self.now.current index }
    {
        trimmed(self.get(index).unwrap_or(&[]), Blanks::InLine)
    }

    /// Whether a field of the record read last, without the blanks around it, is this text.
    pub(crate) fn reads(&self, index: usize, text: &[u8]) -> bool
        ensures { result ≡ bytes_eq (text_at self.now.current index) text.now }
    {
        self.field(index) == text
    }
}
