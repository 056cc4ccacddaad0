//! The rows of a text, by the lines at which they stand as an editor counts them.
ghost use Rattle.std.specs.Prelude.{◌≡◌, ◌+◌, ◌≤◌, ◌<◌, ◌^◌, ◌∷◌, [], length, IfSome, MatchOption};
ghost use Rattle.csv.specs.Reading.{strip_bom};
ghost use Rattle.sc_intake.specs.File.{is_marked};
ghost use Rattle.sc_intake.specs.Plain.{after_line, first_line};
ghost use Rattle.sc_checks.specs.Lines.{has_quote, line_after, next_line, told_part};
ghost use Rattle.sc_checks.specs.Representation.{row_view, rows_left};

use memchr::{memchr, memchr2};

/// A row: a line that has a byte, and its number as an editor counts it, from 1.
#[derive(Clone, Copy)]
pub(crate) struct RowLine<'a> {
    pub(crate) line: u64,
    pub(crate) bytes: &'a [u8],
}

/// What is left of a text, and the number of the line in which it begins.
#[derive(Clone, Copy)]
pub(crate) struct Rest<'a> {
    line: u64,
    text: &'a [u8],
}

/// A place in a text in which rows are looked for one after the other: how many were passed, and what is left.
#[derive(Clone, Copy)]
pub(crate) struct RowFinder<'a> {
    passed: u64,
    rest: Rest<'a>,
}

/// Whether a text begins with the byte order mark of UTF-8.
pub(crate) fn is_marked(text: &[u8]) -> bool
    ensures { result ≡ is_marked text.now }
{
    match text {
        [a, b, c, ..] => *a == 0xEF && *b == 0xBB && *c == 0xBF,
        _ => false,
    }
}

/// The text without the byte order mark that it may begin with.
#[tactic(auto, unfolding(csv::specs::Reading::strip_bom))]
fn without_mark(text: &[u8]) -> &[u8]
    ensures { result.now ≡ strip_bom text.now }
{
    if is_marked(text) { &text[3..] } else { text }
}

/// Whether a text has a quote.
fn has_quote(text: &[u8]) -> bool
    ensures { result ≡ has_quote text.now }
{
    memchr(b'"', text).is_some()
}

/// The part of a text whose rows are told by their lines.
fn told_part(text: &[u8]) -> &[u8]
    ensures { result.now ≡ told_part text.now }
{
    if has_quote(text) {
        &[]
    } else {
        without_mark(text)
    }
}

/// The number of the line after the line end with which a text begins.
fn line_after(line: u64, end: &[u8]) -> u64
    requires { line < 2 ^ 63 }
    ensures number { result ≡ line_after line end.now }
    ensures more { result ≤ line + 1 }
{
    match end {
        [first, second, ..] => {
            if *first == b'\r' && *second == b'\n' {
                line
            } else {
                line + 1
            }
        }
        _ => line + 1,
    }
}

/// Cuts off the first line of what is left: the line, which may be empty, and what is left then.
fn cut_line<'a>(rest: Rest<'a>) -> (RowLine<'a>, Rest<'a>)
    requires { rest.line + length rest.text.now ≤ 2 ^ 63 }
    ensures number { result.0.line ≡ rest.entry.line }
    ensures bytes { result.0.bytes.now ≡ first_line rest.entry.text.now }
    ensures text { result.1.text.now ≡ after_line rest.entry.text.now }
    ensures line { result.1.line ≡ next_line rest.entry.line rest.entry.text.now }
    ensures less { result.1.line + length result.1.text.now ≤ rest.entry.line + length rest.entry.text.now }
    ensures shorter { 0 < length rest.entry.text.now → length result.1.text.now < length rest.entry.text.now }
{
    let Rest { line, text } = rest;
    match memchr2(b'\n', b'\r', text) {
        Some(end) => {
            let next = line_after(line, &text[end..]);
            (
                RowLine {
                    line,
                    bytes: &text[..end],
                },
                Rest {
                    line: next,
                    text: &text[end + 1..],
                },
            )
        }
        None => (RowLine { line, bytes: text }, Rest { line, text: &[] }),
    }
}

/// The next row of what is left, and what is left after it, if there is a row.
fn next_row<'a>(from: Rest<'a>) -> Option<(RowLine<'a>, Rest<'a>)>
    requires { from.line + length from.text.now ≤ 2 ^ 63 }
    ensures row { MatchOption result (rows_left from.entry ≡ [])
        (λ found. rows_left from.entry ≡ row_view found.0 ∷ rows_left found.1) }
    ensures less { IfSome result (λ found. found.1.line + length found.1.text.now ≤ 2 ^ 63) }
{
    let mut rest = from;
    'lines: while !rest.text.is_empty() {
        let (line, after) = cut_line(rest);
        rest = after;
        if !line.bytes.is_empty() {
            return Some((line, after));
        }
    }
    None
}

impl<'a> RowFinder<'a> {
    ghost use Rattle.std.specs.Prelude.{◌≡◌, option_map};
    ghost use Rattle.sc_checks.specs.Lines.{row_at};
    ghost use Rattle.sc_checks.specs.Representation.{row_view, Finds};

    /// A text, of which no row was passed.
    pub(crate) fn new(text: &'a [u8]) -> Self
        ensures finds { Finds text.now result }
        ensures first { result.passed ≡ 0 }
    {
        RowFinder {
            passed: 0,
            rest: Rest {
                line: 1,
                text: told_part(text),
            },
        }
    }

    /// The row of this number of the text, counted from 1, if it has one. Rows are found in the time of the text between
    /// them where their numbers rise, and from the text's start again where they do not.
    pub(crate) fn find(&mut self, text: &'a [u8], number: u64) -> Option<RowLine<'a>>
        requires { Finds text.now self.old }
        ensures row { option_map row_view result ≡ row_at text.now number }
        ensures finds { Finds text.now self.new }
    {
        if number <= self.passed {
            *self = RowFinder::new(text);
        }
        'rows: while self.passed < number {
            let Some((row, rest)) = next_row(self.rest) else {
                return None;
            };
            self.rest = rest;
            self.passed += 1;
            if self.passed == number {
                return Some(row);
            }
        }
        None
    }
}
