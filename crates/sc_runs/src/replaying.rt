//! From three files and a journal to a report.

ghost use Rattle.std.specs.Prelude.{All, Ok};
ghost use Rattle.sc_intake.specs.declared.fault.Source.TheVariants as input;
ghost use Rattle.sc_report.specs.Watched.{device_of};
ghost use Rattle.sc_steps.specs.Failing.{OutputFailsAsTold};
ghost use Rattle.sc_steps.specs.Inputs.{turns_with, TakesWithin};
ghost use Rattle.sc_steps.specs.Opening.{opening_in};
ghost use Rattle.sc_steps.specs.Steps.{texts_of, OutputGets};
ghost use Rattle.sc_runs.specs.Replaying.{ReplaysFiles, WritesReplay};
ghost use Rattle.sc_runs.specs.Steps.{WritesReplayed};

use sc_intake::Source;
use sc_journal::{Tail, replay_papers};
use sc_papers::{MOST_STUDENTS, Papers, Seed};
use sc_repair::Unsettled;
use sc_report::Watched;
use sc_steps::{Opening, OpeningTexts, RunFault, read_inputs, read_kept, report_papers};
use std::alloc::Global;
use std::io::{Read, Write};

/// What a journal that was replayed came to.
#[derive(Drop)]
pub struct Replayed {
    /// The papers as they stand after it, with the students in an order of their own: no text hangs on the order of entry.
    pub papers: Papers,
    /// Whether bytes follow the journal's last newline.
    pub tail: Tail,
}

/// Writes the report of amended papers, and flushes it. A report says nothing of the order of entry, so they are not put
/// in it.
fn report_amended<W: Write>(
    alloc: Global,
    amended: Unsettled,
    tail: Tail,
    out: &mut Watched<W>,
) -> Result<Replayed, RunFault>
    ensures { OutputGets (WritesReplayed amended.papers tail) W.contents out.old out.new result }
{
    let papers = amended.into_reordered();
    // This call tells that the papers are well-formed.
    prove!(papers.students_len() <= MOST_STUDENTS);
    match report_papers(alloc, &papers, out) {
        Ok(()) => Ok(Replayed { papers, tail }),
        Err(fault) => Err(fault),
    }
}

/// Replays a journal over papers, and writes the report of the papers as they then stand.
fn report_replayed<W: Write>(
    alloc: Global,
    papers: Papers,
    journal: &[u8],
    out: &mut Watched<W>,
) -> Result<Replayed, RunFault>
    ensures { OutputGets (WritesReplay (Ok papers) journal.now) W.contents out.old out.new result }
{
    let (amended, tail) = replay_papers(alloc, papers, journal)?;
    report_amended(alloc, amended, tail, out)
}

/// Replays a journal over the papers that the texts hold. The texts are given up once the papers are read.
fn replay_texts<W: Write>(
    alloc: Global,
    seed: &Seed,
    texts: OpeningTexts,
    journal: &[u8],
    out: &mut Watched<W>,
) -> Result<Replayed, RunFault>
    ensures { OutputGets (WritesReplay (opening_in seed.now (texts_of texts)) journal.now)
        W.contents out.old out.new result }
{
    let papers = read_kept(alloc, seed, texts)?;
    report_replayed(alloc, papers, journal, out)
}

/// Reads the three files and a journal, in the order schools, roster, lists, journal, makes the amendments
/// of the journal in turn, and writes the report of the papers as they then stand. It answers these papers, with the students
/// in an order of their own, and whether bytes follow the journal's last newline, which are left unread.
///
/// Nothing is written before the inputs are known to be good. An error is the first fault of the inputs,
/// each of which is read whole before any is looked into, or else the first faulty line of the journal with
/// its first cause; that an input or the output failed; or want of memory, after which nothing was
/// written.
pub fn replay_files<R: Read, W: Write>(
    alloc: Global,
    seed: &Seed,
    opening: &mut Opening<R>,
    journal: &mut Watched<R>,
    out: &mut Watched<W>,
) -> Result<Replayed, RunFault>
    ensures report { ReplaysFiles seed.now
        (turns_with R.remaining opening.old opening.new input.Journal journal.old journal.new)
        (W.contents (device_of out.old)) (W.contents (device_of out.new)) result }
    ensures failed { OutputFailsAsTold out.old out.new result }
    ensures limit { All TakesWithin
        (turns_with R.remaining opening.old opening.new input.Journal journal.old journal.new) }
{
    let texts = match read_inputs(alloc, opening, journal, Source::Journal) {
        Ok(texts) => texts,
        Err(fault) => return Err(fault),
    };
    replay_texts(alloc, seed, texts.opening, texts.last.as_slice(), out)
}
