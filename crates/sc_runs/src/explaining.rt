//! From files to what came of each choice.

ghost use Rattle.std.specs.Prelude.{◌≡◌, is_some};
ghost use Rattle.sc_report.specs.Watched.{device_of};
ghost use Rattle.sc_steps.specs.Failing.{OutputFailsAsTold};
ghost use Rattle.sc_steps.specs.Inputs.{opening_turns};
ghost use Rattle.sc_runs.specs.Explaining.{explanations, student_in, ExplainsStanding};
ghost use Rattle.sc_runs.specs.Standing.{journal_turns, AllTakeWithin, TellsFiles};

use crate::notices::{Subject, Told, notice_files};
use sc_decimal::read_number;
use sc_journal::Tail;
use sc_notices::{TextParts, explanation_of, explanation_parts};
use sc_papers::{Seed, StudentNo};
use sc_repair::Clearing;
use sc_report::Watched;
use sc_steps::{Opening, RunFault};
use std::alloc::{AllocError, Global};
use std::io::{Read, Write};

/// What explaining came to.
#[derive(Clone, Copy, Debug, PartialEq, Eq)]
pub enum Explained {
    /// The explanation was written, and the journal ends so.
    Written { tail: Tail },
    /// The student who was asked for is not in the papers as they stand, and nothing was written.
    UnknownStudent { student: StudentNo },
}

/// The student whose number a text writes in 1 to 9 decimal digits, whether or not the first of them are zeros; `None`
/// for every other text, and for zero.
pub fn read_student(text: &[u8]) -> Option<StudentNo>
    ensures { result ≡ student_in text.now }
{
    match read_number(text) {
        Some(number) => StudentNo::new(number),
        None => None,
    }
}

impl Subject for StudentNo {
    ghost notice = { explanations };

    fn told_of_all<'a>(alloc: Global, clearing: &'a Clearing) -> Result<TextParts<'a>, AllocError> {
        explanation_parts(alloc, clearing)
    }

    fn told_of<'a>(
        self,
        alloc: Global,
        clearing: &'a Clearing,
    ) -> Result<Option<TextParts<'a>>, AllocError> {
        explanation_of(alloc, clearing, self)
    }
}

/// Reads the three files and a journal, if there is one, in the order schools, roster, lists, journal, makes the
/// amendments of the journal in turn, and writes what came of each choice of every student, or of the one who is asked
/// for, in the papers as they then stand. It answers whether bytes follow the journal's last newline, which are left
/// unread (without a journal none do); or that the student who is asked for is not in these papers, and then nothing is
/// written.
///
/// Nothing is written before the inputs are known to be good. An error is the first fault of the inputs, each of
/// which is read whole before any is looked into, or else the first faulty line of the journal with its first cause;
/// that an input or the output failed; or want of memory. After a fault of the output, and after want of memory, a prefix
/// of the text was written, which may be nothing. Where reading an input ends early, those after it are not touched; of none
/// more than one byte past 64 MiB is taken.
pub fn explain_files<R: Read, W: Write>(
    alloc: Global,
    seed: &Seed,
    opening: &mut Opening<R>,
    journal: &mut Option<Watched<R>>,
    student: Option<StudentNo>,
    out: &mut Watched<W>,
) -> Result<Explained, RunFault>
    ensures explained { TellsFiles (ExplainsStanding student) seed.now
        (opening_turns R.remaining opening.old opening.new) (journal_turns R.remaining journal.old journal.new)
        (W.contents (device_of out.old)) (W.contents (device_of out.new)) result }
    ensures failed { OutputFailsAsTold out.old out.new result }
    ensures limit { AllTakeWithin R.remaining opening.old opening.new journal.old journal.new }
    ensures stays { is_some journal.new ≡ is_some journal.old }
{
    match notice_files(alloc, seed, opening, journal, student, out) {
        Ok(Told::Written { tail }) => Ok(Explained::Written { tail }),
        Ok(Told::Unknown { subject }) => Ok(Explained::UnknownStudent { student: subject }),
        Err(fault) => Err(fault),
    }
}
