//! The records of a text without a quote.

ghost use Rattle.std.specs.Prelude.{◌≡◌, ℕ, ◌≤◌, ◌^◌, ◌∷◌, [], Bool, List, drop, false, length, option_map};
ghost use Rattle.csv.specs.Records.{field_at};
ghost use Rattle.memchr.specs.Find.{IsFirstByte, is_byte2};
ghost use Rattle.sc_intake.specs.Plain.{after_line, cut, ends_field, ends_line, fields_from, first_line};

use crate::byte_count::count_of;
use memchr::memchr2;
use std::marker::Model;

/// How many bytes most lines have at most.
const LIKELY_LINE: usize = 160;

/// The records of a text without a quote: the line of the one read last, and the text after it. The fields are slices of the
/// line, each looked for where it is asked for, so that nothing is copied, and a record of millions of them takes no memory.
#[derive(Drop)]
pub(crate) struct PlainRecords<'a> {
    line: &'a [u8],
    rest: &'a [u8],
}

impl<'a> Model for PlainRecords<'a> {
    ghost use Rattle.sc_intake.specs.Cursor.{Cursor};

    ghost Value = { Cursor };

    ghost use Rattle.sc_intake.specs.Representation.{plain_cursor_of};

    ghost view = { plain_cursor_of };
}

/// Whether a byte ends a line.
pub(crate) fn ends_line(byte: u8) -> bool
    ensures { result ≡ ends_line byte }
{
    byte == b'\n' || byte == b'\r'
}

/// How many bytes a text begins with that end lines: an empty line is no record.
pub(crate) fn line_ends_len(text: &[u8]) -> usize
    ensures within { result ≤ length text.now }
    ensures records { (by_lines : Bool) → cut by_lines (drop result text.now) ≡ cut by_lines text.now }
    ensures begins { (c : ℕ) → (cs : List ℕ) → drop result text.now ≡ c ∷ cs → ends_line c ≡ false }
{
    for start in 0..text.len() {
        if !ends_line(text[start]) {
            return start;
        }
    }
    text.len()
}

/// The text from its first byte that ends no line.
pub(crate) fn without_line_ends(text: &[u8]) -> &[u8]
    ensures records { (by_lines : Bool) → cut by_lines result.now ≡ cut by_lines text.now }
    ensures begins { (c : ℕ) → (cs : List ℕ) → result.now ≡ c ∷ cs → ends_line c ≡ false }
{
    &text[line_ends_len(text)..]
}

/// Whether a byte ends a field.
pub(crate) fn ends_field(byte: u8) -> bool
    ensures { result ≡ ends_field byte }
{
    byte == b',' || ends_line(byte)
}

/// Where the first line end of a text stands. It is looked for in the first bytes alone at first, since most lines are
/// short: a search that may go far costs more for each byte.
fn line_end(text: &[u8]) -> Option<usize>
    ensures { IsFirstByte (is_byte2 10 13) text.now result }
{
    let near = &text[..text.len().min(LIKELY_LINE)];
    match memchr2(b'\n', b'\r', near) {
        Some(end) => Some(end),
        None => memchr2(b'\n', b'\r', text),
    }
}

/// A text's first line, and the text after it.
pub(crate) fn split_line(text: &[u8]) -> (&[u8], &[u8])
    ensures line { result.0.now ≡ first_line text.now }
    ensures rest { result.1.now ≡ after_line text.now }
{
    match line_end(text) {
        Some(end) => (&text[..end], &text[end + 1..]),
        None => (text, &[]),
    }
}

/// The length of a text's first line, with its line end where it has one.
pub(crate) fn line_len(text: &[u8]) -> usize
    ensures within { result ≤ length text.now }
    ensures rest { drop result text.now ≡ after_line text.now }
    ensures some { 1 ≤ length text.now → 1 ≤ result }
{
    let (_, rest) = split_line(text);
    text.len() - rest.len()
}

/// How many fields a line has.
pub(crate) fn fields_len(line: &[u8]) -> usize
    ensures count { result ≡ length (fields_from [] line.now) }
    ensures small { result ≤ 2 ^ 63 }
{
    count_of(b',', line) + 1
}

/// A field of a line, if it has so many.
pub(crate) fn field_of(line: &[u8], index: usize) -> Option<&[u8]>
    ensures { option_map (λ f. f.now) result ≡ field_at (fields_from [] line.now) index }
{
    line.split(|byte| *byte == b',').nth(index)
}

impl<'a> PlainRecords<'a> {
    ghost use Rattle.std.specs.Prelude.{◌≡◌, []};
    ghost use Rattle.sc_intake.specs.Cursor.{ReadsNext};
    ghost use Rattle.sc_intake.specs.Plain.{fields_from, plain_records};

    /// The records of a text; none is read yet.
    pub(crate) fn new(text: &'a [u8]) -> Self
        ensures { result.left ≡ plain_records text.now }
    {
        PlainRecords {
            line: &[],
            rest: text,
        }
    }

    /// Reads the next record, and says whether there was one.
    pub(crate) fn advance(&mut self) -> bool
        ensures { ReadsNext self.old self.new result }
    {
        let text = without_line_ends(self.rest);
        if text.is_empty() {
            return false;
        }
        let (line, rest) = split_line(text);
        self.line = line;
        self.rest = rest;
        true
    }

    /// The text of the records that are left, which begins with the first of them.
    pub(crate) fn text(&self) -> &'a [u8]
        ensures { self.now.left ≡ plain_records result.now }
    {
        without_line_ends(self.rest)
    }

    /// Goes on with the records of this text.
    pub(crate) fn go_on(&mut self, text: &'a [u8])
        ensures { self.new.left ≡ plain_records text.now }
    {
        self.rest = text;
    }

    /// The line of the record read last.
    pub(crate) fn line(&self) -> &'a [u8]
        ensures { fields_from [] result.now ≡ self.now.current }
    {
        self.line
    }
}
