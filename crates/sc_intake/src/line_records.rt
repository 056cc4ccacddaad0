//! The records of a text of which nobody has looked yet whether it has a quote.

use crate::plain_records::{split_line, without_line_ends};
use crate::quoted_records::QuotedRecords;
use memchr::memchr;
use std::alloc::Global;
use std::marker::Model;

/// The records of a text that may have quotes: the one read last, in whose line there is none, and those that are left. Each
/// line is looked through for a quote as its record is read, and no other: the whole text is never gone over for that.
#[derive(Drop)]
pub(crate) struct LineRecords<'a> {
    alloc: Global,
    // The line of the record read last.
    line: &'a [u8],
    // The text from its line end on, so that no byte order mark begins it: `csv` passes over one, wherever it is begun with.
    rest: &'a [u8],
}

impl<'a> Model for LineRecords<'a> {
    ghost use Rattle.sc_intake.specs.Cursor.{Cursor};

    ghost Value = { Cursor };

    ghost use Rattle.std.specs.Prelude.{◌≡◌, false};
    ghost use Rattle.sc_intake.specs.File.{is_marked};
    ghost use Rattle.sc_intake.specs.Representation.{line_cursor_of};

    ghost view = { line_cursor_of };

    ghost invariant = { λ i. is_marked i.rest.now ≡ false };
}

impl<'a> LineRecords<'a> {
    ghost use Rattle.std.specs.Prelude.{◌≡◌, [], false, MatchOption};
    ghost use Rattle.csv.specs.Reading.{default_config, records};
    ghost use Rattle.sc_intake.specs.Cursor.{ReadsNext};
    ghost use Rattle.sc_intake.specs.File.{is_marked};
    ghost use Rattle.sc_intake.specs.Plain.{fields_from};

    /// The records of a text, which no byte order mark begins; none is read yet.
    pub(crate) fn new(alloc: Global, unmarked: &'a [u8]) -> Self
        requires { is_marked unmarked.now ≡ false }
        ensures { result.left ≡ records default_config unmarked.now }
    {
        LineRecords {
            alloc,
            line: &[],
            rest: unmarked,
        }
    }

    /// Reads the next record, and says whether there was one. `None` says that its line has a quote, and leaves it.
    pub(crate) fn advance(&mut self) -> Option<bool>
        ensures { MatchOption result (self.new.left ≡ self.old.left) (ReadsNext self.old self.new) }
    {
        let text = without_line_ends(self.rest);
        if text.is_empty() {
            return Some(false);
        }
        let (line, _) = split_line(text);
        if memchr(b'"', line).is_some() {
            return None;
        }
        self.line = line;
        self.rest = &text[line.len()..];
        Some(true)
    }

    /// The records that are left, as `csv` reads them.
    pub(crate) fn quoted(&self) -> QuotedRecords<'a>
        ensures { result.left ≡ self.now.left }
    {
        QuotedRecords::new(self.alloc, self.rest)
    }

    /// The text of the records that are left, which begins with the first of them.
    pub(crate) fn text(&self) -> &'a [u8]
        ensures { self.now.left ≡ records default_config result.now }
    {
        without_line_ends(self.rest)
    }

    /// Goes on with the records of this text, which no byte order mark begins.
    pub(crate) fn go_on(&mut self, text: &'a [u8])
        requires { is_marked text.now ≡ false }
        ensures { self.new.left ≡ records default_config text.now }
    {
        self.rest = text;
    }

    /// The line of the record read last.
    pub(crate) fn line(&self) -> &'a [u8]
        ensures { fields_from [] result.now ≡ self.now.current }
    {
        self.line
    }
}
