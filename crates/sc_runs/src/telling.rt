//! From files to one text of what stands: its summary, or a table of its report.

ghost use Rattle.std.specs.Prelude.{◌≡◌, IfOk, is_some};
ghost use Rattle.sc_repair.specs.Standing.{matching_of};
ghost use Rattle.sc_report.specs.Watched.{device_of};
ghost use Rattle.sc_steps.specs.Failing.{OutputFailsAsTold};
ghost use Rattle.sc_steps.specs.Inputs.{opening_turns};
ghost use Rattle.sc_steps.specs.Opening.{WritesText};
ghost use Rattle.sc_steps.specs.Steps.{papers_held, OutputGets};
ghost use Rattle.sc_runs.specs.Standing.{journal_turns, AllTakeWithin, IsSummary, IsTable, TellsFiles, WritesOfStanding};
ghost use Rattle.sc_runs.specs.Steps.{standing_text, IsStandingText};

use crate::standing::clearing_after;
use sc_intake::Source;
use sc_journal::Tail;
use sc_notices::summary_text;
use sc_papers::Seed;
use sc_repair::Clearing;
use sc_report::{Table, Watched, table_text};
use sc_steps::{Opening, OpeningSlices, RunFault, read_opening_and, write_text};
use std::alloc::{AllocError, Global};
use std::io::{Read, Write};

/// What is told of a standing assignment.
#[derive(Clone, Copy, Debug, PartialEq, Eq)]
pub enum StandingText {
    Summary,
    OneTable { table: Table },
}

/// The text that is told of the standing assignment.
fn standing_text(
    alloc: Global,
    clearing: &Clearing,
    which: StandingText,
) -> Result<Vec<u8>, AllocError>
    ensures { IfOk result (λ text. text.items
        ≡ standing_text which clearing.now.standing.papers (matching_of clearing.now.standing)) }
{
    match which {
        StandingText::Summary => summary_text(alloc, clearing),
        StandingText::OneTable { table } => table_text(alloc, clearing, table),
    }
}

/// Writes a text of the standing assignment, and flushes it.
fn write_standing_text<W: Write>(
    alloc: Global,
    clearing: &Clearing,
    which: StandingText,
    out: &mut Watched<W>,
) -> Result<(), RunFault>
    ensures { OutputGets (WritesText
        (λ text. text ≡ standing_text which clearing.now.standing.papers (matching_of clearing.now.standing)))
        W.contents out.old out.new result }
{
    match standing_text(alloc, clearing, which) {
        Ok(text) => write_text(text.as_slice(), out),
        Err(_) => Err(RunFault::OutOfMemory),
    }
}

/// Writes a text of what stands after the amendments of a journal over the papers that the texts hold.
fn tell_texts<W: Write>(
    alloc: Global,
    seed: &Seed,
    texts: OpeningSlices<'_>,
    journal: &[u8],
    which: StandingText,
    out: &mut Watched<W>,
) -> Result<Tail, RunFault>
    ensures { OutputGets (WritesOfStanding (IsStandingText which) (papers_held seed.now texts.entry) journal.now)
        W.contents out.old out.new result }
{
    let (clearing, tail) = clearing_after(alloc, seed, texts, journal)?;
    write_standing_text(alloc, &clearing, which, out)?;
    Ok(tail)
}

/// Reads the three files and a journal, if there is one, and writes a text of what then stands, as `summary_files` and
/// `table_files` do.
fn tell_files<R: Read, W: Write>(
    alloc: Global,
    seed: &Seed,
    opening: &mut Opening<R>,
    journal: &mut Option<Watched<R>>,
    which: StandingText,
    out: &mut Watched<W>,
) -> Result<Tail, RunFault>
    ensures told { OutputGets (TellsFiles (WritesOfStanding (IsStandingText which)) seed.now
        (opening_turns R.remaining opening.old opening.new) (journal_turns R.remaining journal.old journal.new))
        W.contents out.old out.new result }
    ensures limit { AllTakeWithin R.remaining opening.old opening.new journal.old journal.new }
    ensures stays { is_some journal.new ≡ is_some journal.old }
{
    let texts = match read_opening_and(alloc, opening, journal, Source::Journal) {
        Ok(texts) => texts,
        Err(fault) => return Err(fault),
    };
    tell_texts(
        alloc,
        seed,
        texts.opening.as_slices(),
        texts.last.as_slice(),
        which,
        out,
    )
}

/// Reads the three files and a journal, if there is one, in the order schools, roster, lists, journal, makes the
/// amendments of the journal in turn, and writes the summary of the papers as they then stand. It answers whether
/// bytes follow the journal's last newline, which are left unread; without a journal none do.
///
/// Nothing is written before the inputs are known to be good. An error is the first fault of the inputs, each of
/// which is read whole before any is looked into, or else the first faulty line of the journal with its first cause;
/// that an input or the output failed; or want of memory, after which nothing was written. After a fault of the
/// output a prefix of the summary was. Where reading an input ends early, those after it are not touched; of none more
/// than one byte past 64 MiB is taken.
pub fn summary_files<R: Read, W: Write>(
    alloc: Global,
    seed: &Seed,
    opening: &mut Opening<R>,
    journal: &mut Option<Watched<R>>,
    out: &mut Watched<W>,
) -> Result<Tail, RunFault>
    ensures summary { TellsFiles (WritesOfStanding IsSummary) seed.now
        (opening_turns R.remaining opening.old opening.new) (journal_turns R.remaining journal.old journal.new)
        (W.contents (device_of out.old)) (W.contents (device_of out.new)) result }
    ensures failed { OutputFailsAsTold out.old out.new result }
    ensures limit { AllTakeWithin R.remaining opening.old opening.new journal.old journal.new }
    ensures stays { is_some journal.new ≡ is_some journal.old }
{
    tell_files(alloc, seed, opening, journal, StandingText::Summary, out)
}

/// Reads the three files and a journal, if there is one, in the order schools, roster, lists, journal, makes the
/// amendments of the journal in turn, and writes one table of the report of the papers as they then stand, with its
/// header: what `match_files`, or `replay_files`, writes of it. It answers whether bytes follow the journal's last
/// newline, which are left unread; without a journal none do.
///
/// Nothing is written before the inputs are known to be good. An error is the first fault of the inputs, each of
/// which is read whole before any is looked into, or else the first faulty line of the journal with its first cause;
/// that an input or the output failed; or want of memory, after which nothing was written. After a fault of the
/// output a prefix of the table was. Where reading an input ends early, those after it are not touched; of none more
/// than one byte past 64 MiB is taken.
pub fn table_files<R: Read, W: Write>(
    alloc: Global,
    seed: &Seed,
    opening: &mut Opening<R>,
    journal: &mut Option<Watched<R>>,
    table: Table,
    out: &mut Watched<W>,
) -> Result<Tail, RunFault>
    ensures table { TellsFiles (WritesOfStanding (IsTable table)) seed.now
        (opening_turns R.remaining opening.old opening.new) (journal_turns R.remaining journal.old journal.new)
        (W.contents (device_of out.old)) (W.contents (device_of out.new)) result }
    ensures failed { OutputFailsAsTold out.old out.new result }
    ensures limit { AllTakeWithin R.remaining opening.old opening.new journal.old journal.new }
    ensures stays { is_some journal.new ≡ is_some journal.old }
{
    tell_files(
        alloc,
        seed,
        opening,
        journal,
        StandingText::OneTable { table },
        out,
    )
}
