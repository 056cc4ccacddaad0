//! What can be wrong with an input.

ghost use Rattle.std.specs.Prelude.{◌≡◌, Some};
ghost use Rattle.sc_intake.specs.Fault.{fault_at};
ghost use Rattle.sc_intake.specs.FaultText.{cause_text, fault_text, source_text};
ghost use Rattle.sc_intake.specs.declared.fault.Cause.TheVariants.{OutOfMemory};

use sc_papers::Refusal;
use std::alloc::{AllocError, AllocFailed};
use std::error::Error;
use std::fmt;

/// Which input a fault is of.
#[derive(Clone, Copy, Debug, PartialEq, Eq)]
pub enum Source {
    Schools,
    Roster,
    Lists,
    Script,
    Log,
    Journal,
    Bundle,
    Report,
}

impl fmt::Display for Source {
    ghost output = { λ source. Some (source_text source) };

    fn fmt<W: fmt::Write>(&self, f: &mut fmt::Formatter<W>) -> fmt::Result {
        f.write_str(match self {
            Source::Schools => "schools",
            Source::Roster => "roster",
            Source::Lists => "lists",
            Source::Script => "script",
            Source::Log => "log",
            Source::Journal => "journal",
            Source::Bundle => "bundle",
            Source::Report => "report",
        })
    }
}

/// What is wrong. The causes of one row are tested in this order.
#[derive(Clone, Copy, Debug, PartialEq, Eq)]
pub enum Cause {
    /// The input has too many bytes, or the row is past the last that there may be.
    TooLong,
    /// The first record is not the header, or there is none, or a second byte order mark follows the
    /// first.
    Header,
    /// The row has another number of fields than the header.
    Fields,
    /// A number is not 1 to 9 decimal digits, or a list is not numbers with spaces between them.
    Number,
    /// A number is outside its range.
    Range,
    /// An earlier row has the same school or student number.
    Twice,
    /// A student of the roster has no list.
    NoList,
    /// The student of a list is not in the roster.
    NotInRoster,
    /// The papers refuse the student.
    Refused(Refusal),
    /// A growth was refused.
    OutOfMemory,
}

impl fmt::Display for Cause {
    ghost output = { λ cause. Some (cause_text cause) };

    fn fmt<W: fmt::Write>(&self, f: &mut fmt::Formatter<W>) -> fmt::Result {
        match self {
            Cause::TooLong => f.write_str("TooLong"),
            Cause::Header => f.write_str("Header"),
            Cause::Fields => f.write_str("Fields"),
            Cause::Number => f.write_str("Number"),
            Cause::Range => f.write_str("Range"),
            Cause::Twice => f.write_str("Twice"),
            Cause::NoList => f.write_str("NoList"),
            Cause::NotInRoster => f.write_str("NotInRoster"),
            Cause::Refused(refusal) => write!(f, "Refused {} {}", refusal.code(), refusal),
            Cause::OutOfMemory => f.write_str("OutOfMemory"),
        }
    }
}

impl From<AllocError> for Cause {
    ghost from_gives = { λ _ cause. cause ≡ OutOfMemory };

    fn from(_error: AllocError) -> Self {
        Cause::OutOfMemory
    }
}

impl<T: Drop> From<AllocFailed<T>> for Cause {
    ghost from_gives = { λ _ cause. cause ≡ OutOfMemory };

    fn from(_error: AllocFailed<T>) -> Self {
        Cause::OutOfMemory
    }
}

/// The first fault of an input: where it is, and what.
#[derive(Clone, Copy, Debug, PartialEq, Eq)]
pub struct IntakeFault {
    pub source: Source,
    /// The number of the record, from 1, or 0 where the fault is of no one record.
    pub row: u64,
    pub cause: Cause,
}

impl IntakeFault {
    /// The fault of a row. Want of memory is of no row, and takes row 0.
    pub(crate) fn at(source: Source, row: u64, cause: Cause) -> Self
        ensures { result ≡ fault_at source row cause }
    {
        let row = match cause {
            Cause::OutOfMemory => 0,
            _ => row,
        };
        IntakeFault { source, row, cause }
    }

    /// Want of memory in reading an input.
    pub(crate) fn no_memory(source: Source) -> Self
        ensures { result ≡ fault_at source 0 OutOfMemory }
    {
        IntakeFault::at(source, 0, Cause::OutOfMemory)
    }
}

impl fmt::Display for IntakeFault {
    ghost output = { λ fault. Some (fault_text fault) };

    fn fmt<W: fmt::Write>(&self, f: &mut fmt::Formatter<W>) -> fmt::Result {
        write!(f, "{} row {}: {}", self.source, self.row, self.cause)
    }
}

impl Error for IntakeFault {}
