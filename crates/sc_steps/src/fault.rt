//! Why a run ended early.

ghost use Rattle.std.specs.Prelude.{◌≡◌, Some};
ghost use Rattle.sc_steps.specs.Faults.{fault_words};

use sc_intake::{Cause, IntakeFault, Source};
use sc_journal::{JournalCause, JournalFault};
use std::error::Error;
use std::fmt;

/// Why a call of the program ended early.
#[derive(Clone, Copy, Debug, PartialEq, Eq)]
pub enum RunFault {
    /// An input could not be read to its end.
    Read { source: Source },
    /// An input is faulty.
    Intake(IntakeFault),
    /// A journal that is to be replayed is faulty.
    Journal(JournalFault),
    /// The output could not be written.
    WriteOut,
    /// The journal could not be written.
    WriteJournal,
    /// A growth was refused, in whatever layer.
    OutOfMemory,
}

impl fmt::Display for RunFault {
    ghost output = { λ fault. Some (fault_words fault) };

    fn fmt<W: fmt::Write>(&self, f: &mut fmt::Formatter<W>) -> fmt::Result {
        match self {
            RunFault::Read { source } => write!(f, "cannot read {source}"),
            RunFault::Intake(fault) => write!(f, "{fault}"),
            RunFault::Journal(fault) => write!(f, "{fault}"),
            RunFault::WriteOut => f.write_str("cannot write output"),
            RunFault::WriteJournal => f.write_str("cannot write journal"),
            RunFault::OutOfMemory => f.write_str("out of memory"),
        }
    }
}

impl Error for RunFault {}

impl From<IntakeFault> for RunFault {
    ghost use Rattle.sc_steps.specs.Faults.{run_fault};

    ghost from_gives = { λ fault r. r ≡ run_fault fault };

    fn from(fault: IntakeFault) -> Self {
        match fault.cause {
            Cause::OutOfMemory => RunFault::OutOfMemory,
            _ => RunFault::Intake(fault),
        }
    }
}

impl From<JournalFault> for RunFault {
    ghost use Rattle.sc_steps.specs.Faults.{journal_fault};

    ghost from_gives = { λ fault r. r ≡ journal_fault fault };

    fn from(fault: JournalFault) -> Self {
        match fault.cause {
            JournalCause::OutOfMemory => RunFault::OutOfMemory,
            _ => RunFault::Journal(fault),
        }
    }
}
