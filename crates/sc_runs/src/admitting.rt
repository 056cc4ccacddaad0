//! From files to the class lists and the waiting lists of schools.

ghost use Rattle.std.specs.Prelude.{◌≡◌, is_some};
ghost use Rattle.sc_report.specs.Watched.{device_of};
ghost use Rattle.sc_steps.specs.Failing.{OutputFailsAsTold};
ghost use Rattle.sc_steps.specs.Inputs.{opening_turns};
ghost use Rattle.sc_runs.specs.Admitting.{admissions, school_in, ListsStanding};
ghost use Rattle.sc_runs.specs.Standing.{journal_turns, AllTakeWithin, TellsFiles};

use crate::notices::{Subject, Told, notice_files};
use sc_decimal::read_number;
use sc_journal::Tail;
use sc_notices::{TextParts, admission_parts, admissions_of};
use sc_papers::{SchoolNo, Seed};
use sc_repair::Clearing;
use sc_report::Watched;
use sc_steps::{Opening, RunFault};
use std::alloc::{AllocError, Global};
use std::io::{Read, Write};

/// What listing whom schools admit came to.
#[derive(Clone, Copy, Debug, PartialEq, Eq)]
pub enum Listed {
    /// The lists were written, and the journal ends so.
    Written { tail: Tail },
    /// The school that was asked for is not in the papers as they stand, and nothing was written.
    UnknownSchool { school: SchoolNo },
}

/// The school whose number a text writes in 1 to 9 decimal digits, whether or not the first of them are zeros; `None` for
/// every other text, and for a number that is no school's.
pub fn read_school(text: &[u8]) -> Option<SchoolNo>
    ensures { result ≡ school_in text.now }
{
    match read_number(text) {
        Some(number) => SchoolNo::new(number),
        None => None,
    }
}

impl Subject for SchoolNo {
    ghost notice = { admissions };

    fn told_of_all<'a>(alloc: Global, clearing: &'a Clearing) -> Result<TextParts<'a>, AllocError> {
        admission_parts(alloc, clearing)
    }

    fn told_of<'a>(
        self,
        alloc: Global,
        clearing: &'a Clearing,
    ) -> Result<Option<TextParts<'a>>, AllocError> {
        admissions_of(alloc, clearing, self)
    }
}

/// Reads the three files and a journal, if there is one, in the order schools, roster, lists, journal, makes the
/// amendments of the journal in turn, and writes the class list and the waiting list of every school, or of the one that
/// is asked for, in the papers as they then stand. It answers whether bytes follow the journal's last newline, which are
/// left unread (without a journal none do); or that the school that is asked for is not in these papers, and then nothing
/// is written.
///
/// Nothing is written before the inputs are known to be good. An error is the first fault of the inputs, each of
/// which is read whole before any is looked into, or else the first faulty line of the journal with its first cause;
/// that an input or the output failed; or want of memory. After a fault of the output, and after want of memory, a prefix
/// of the text was written, which may be nothing. Where reading an input ends early, those after it are not touched; of none
/// more than one byte past 64 MiB is taken.
pub fn admissions_files<R: Read, W: Write>(
    alloc: Global,
    seed: &Seed,
    opening: &mut Opening<R>,
    journal: &mut Option<Watched<R>>,
    school: Option<SchoolNo>,
    out: &mut Watched<W>,
) -> Result<Listed, RunFault>
    ensures listed { TellsFiles (ListsStanding school) seed.now
        (opening_turns R.remaining opening.old opening.new) (journal_turns R.remaining journal.old journal.new)
        (W.contents (device_of out.old)) (W.contents (device_of out.new)) result }
    ensures failed { OutputFailsAsTold out.old out.new result }
    ensures limit { AllTakeWithin R.remaining opening.old opening.new journal.old journal.new }
    ensures stays { is_some journal.new ≡ is_some journal.old }
{
    match notice_files(alloc, seed, opening, journal, school, out) {
        Ok(Told::Written { tail }) => Ok(Listed::Written { tail }),
        Ok(Told::Unknown { subject }) => Ok(Listed::UnknownSchool { school: subject }),
        Err(fault) => Err(fault),
    }
}
