//! How many records of a script are answered, shown on a terminal while a long run goes on.

use std::alloc::Global;
use std::io::{self, Write};

/// What the count is written over with, so that nothing of it is left.
const BLANKS: &[u8; 42] = b"\r                                        \r";

/// An output, and a terminal on which the replies that are written to it are counted, if there is one: in one line, which
/// is written again at each reply and is gone at the end. What the terminal does changes nothing of the output.
#[derive(Drop)]
pub struct Counted<O, T> {
    alloc: Global,
    output: O,
    terminal: Option<T>,
    replies: u64,
}

/// Writes how many records are answered, over what stood in the line. Where there is no memory for it, or the terminal
/// does not take it, the line stays as it is.
fn show<T: Write>(alloc: Global, replies: u64, terminal: &mut T) {
    if let Ok(line) = format!(in alloc; "\rrecords answered: {replies}") {
        drop(terminal.write(line.as_bytes()));
    }
}

impl<O, T> Counted<O, T> {
    /// This output, whose replies are counted on this terminal, if there is one.
    pub fn new(alloc: Global, output: O, terminal: Option<T>) -> Self {
        Counted {
            alloc,
            output,
            terminal,
            replies: 0,
        }
    }
}

impl<O, T: Write + Drop> Counted<O, T> {
    ghost use Rattle.std.specs.Prelude.{◌≡◌};

    /// Takes the count from the terminal. No reply is counted any more.
    pub fn end(&mut self)
        ensures output { self.new.output ≡ self.old.output }
    {
        if let Some(mut terminal) = self.terminal.take() {
            if self.replies > 0 {
                drop(terminal.write(BLANKS));
            }
        }
    }

    /// Counts one more reply.
    fn count(&mut self)
        ensures output { self.new.output ≡ self.old.output }
    {
        if let Some(terminal) = &mut self.terminal {
            self.replies = self.replies.saturating_add(1);
            show(self.alloc, self.replies, terminal);
        }
    }
}

/// Whether bytes are a reply: one begins with its number, and the report after the replies with a word.
fn are_reply(bytes: &[u8]) -> bool {
    matches!(bytes, [b'0'..=b'9', ..])
}

impl<O: Write, T: Write + Drop> Write for Counted<O, T> {
    ghost contents = { λ c. O.contents c.output };

    fn write(&mut self, bytes: &[u8]) -> io::Result<usize> {
        let is_reply = are_reply(bytes);
        // The line is wiped before the report is seen.
        if !is_reply {
            self.end();
        }
        let written = self.output.write(bytes)?;
        if is_reply {
            self.count();
        }
        Ok(written)
    }

    fn flush(&mut self) -> io::Result<()> {
        self.output.flush()
    }
}
