//! What can be wrong with a journal.
ghost use Rattle.std.specs.Prelude.{◌≡◌, Some};
ghost use Rattle.sc_journal.specs.FaultText.{cause_text, fault_text};
ghost use Rattle.sc_journal.specs.Journal.{no_memory};
ghost use Rattle.sc_journal.specs.Replaying.{line_of};

use sc_papers::Refusal;
use std::error::Error;
use std::fmt;

/// Why a line of a journal is not taken. The causes of one line are tested in this order.
#[derive(Clone, Copy, Debug, PartialEq, Eq)]
pub enum JournalCause {
    /// It is not the one spelling of an amendment under a number.
    Shape,
    /// Its number is not the next one; the first is 1.
    Number,
    /// Line 999,999,999 went before.
    JournalFull,
    /// The papers refuse the amendment.
    Refused(Refusal),
    /// A growth was refused.
    OutOfMemory,
}

impl fmt::Display for JournalCause {
    ghost output = { λ cause. Some (cause_text cause) };

    fn fmt<W: fmt::Write>(&self, f: &mut fmt::Formatter<W>) -> fmt::Result {
        match self {
            JournalCause::Shape => f.write_str("Shape"),
            JournalCause::Number => f.write_str("Number"),
            JournalCause::Refused(refusal) => write!(f, "Refused {} {refusal}", refusal.code()),
            JournalCause::JournalFull => f.write_str("JournalFull"),
            JournalCause::OutOfMemory => f.write_str("OutOfMemory"),
        }
    }
}

/// The first fault of a journal: which line, and what.
#[derive(Clone, Copy, Debug, PartialEq, Eq)]
pub struct JournalFault {
    /// Counted from 1, or 0 where a growth was refused.
    pub line: u64,
    pub cause: JournalCause,
}

impl fmt::Display for JournalFault {
    ghost output = { λ fault. Some (fault_text fault) };

    fn fmt<W: fmt::Write>(&self, f: &mut fmt::Formatter<W>) -> fmt::Result {
        write!(f, "journal line {}: {}", self.line, self.cause)
    }
}

impl Error for JournalFault {}

impl JournalFault {
    /// The fault of a line. Want of memory is of no line, and takes line 0.
    pub(crate) fn at(line: u64, cause: JournalCause) -> Self
        ensures { result ≡ record { line = line_of line cause; cause = cause } }
    {
        let line = match cause {
            JournalCause::OutOfMemory => 0,
            _ => line,
        };
        JournalFault { line, cause }
    }

    /// Want of memory, which is of no line.
    pub(crate) fn no_memory() -> Self
        ensures { result ≡ no_memory }
    {
        JournalFault::at(0, JournalCause::OutOfMemory)
    }
}
