//! From files to the files of the papers as they stand.

ghost use Rattle.std.specs.Prelude.{◌≡◌, IfErr, IfOk, Ok, is_some};
ghost use Rattle.sc_steps.specs.Inputs.{opening_turns};
ghost use Rattle.sc_steps.specs.Opening.{opening_in};
ghost use Rattle.sc_steps.specs.Steps.{texts_of};
ghost use Rattle.sc_steps.specs.declared.fault.RunFault.TheVariants.{OutOfMemory};
ghost use Rattle.sc_runs.specs.Exporting.{AreFilesOf, ExportsFiles, ExportsStanding};
ghost use Rattle.sc_runs.specs.Standing.{journal_turns, AllTakeWithin};

use sc_export::{PapersFiles, export};
use sc_intake::Source;
use sc_journal::{Tail, replay_papers};
use sc_papers::{Papers, Seed};
use sc_report::Watched;
use sc_steps::{Opening, OpeningTexts, RunFault, read_kept, read_opening_and};
use std::alloc::Global;
use std::io::Read;

/// The texts of the files of papers as they stand after a journal, and how the journal ends.
#[derive(Drop)]
pub struct Exported {
    pub files: PapersFiles,
    pub tail: Tail,
}

/// The files of papers. The only fault is want of memory.
fn files_of(alloc: Global, papers: &Papers) -> Result<PapersFiles, RunFault>
    ensures files { IfOk result (AreFilesOf papers.now) }
    ensures refused { IfErr result (λ fault. fault ≡ OutOfMemory) }
{
    match export(alloc, papers) {
        Ok(files) => Ok(files),
        Err(_) => Err(RunFault::OutOfMemory),
    }
}

/// The files of papers as they stand after a journal.
fn export_after(alloc: Global, papers: Papers, journal: &[u8]) -> Result<Exported, RunFault>
    ensures { ExportsStanding (Ok papers) journal.now result }
{
    let (amended, tail) = replay_papers(alloc, papers, journal)?;
    let files = files_of(alloc, &amended.into_papers())?;
    Ok(Exported { files, tail })
}

/// The files of the papers that the texts hold, as they stand after a journal.
fn export_texts(
    alloc: Global,
    seed: &Seed,
    texts: OpeningTexts,
    journal: &[u8],
) -> Result<Exported, RunFault>
    ensures { ExportsStanding (opening_in seed.now (texts_of texts)) journal.now result }
{
    let papers = read_kept(alloc, seed, texts)?;
    export_after(alloc, papers, journal)
}

/// Reads the three files and a journal, if there is one, in the order schools, roster, lists, journal, makes the
/// amendments of the journal in turn, and gives the texts of the files of the papers as they then stand, as
/// `sc_export::export` does, and whether bytes follow the journal's last newline, which are left unread; without
/// a journal none do. Read again under the same seed, the files give the same papers.
///
/// An error is the first fault of the inputs, each of which is read whole before any is looked into, or else the
/// first faulty line of the journal with its first cause; that an input could not be read; or want of memory.
/// Where reading an input ends early, those after it are not touched; of none more than one byte past 64 MiB is
/// taken. The cost is that of reading, of each amendment's check, and of writing the texts; nothing is settled.
pub fn export_files<R: Read>(
    alloc: Global,
    seed: &Seed,
    opening: &mut Opening<R>,
    journal: &mut Option<Watched<R>>,
) -> Result<Exported, RunFault>
    ensures files { ExportsFiles seed.now (opening_turns R.remaining opening.old opening.new)
        (journal_turns R.remaining journal.old journal.new) result }
    ensures limit { AllTakeWithin R.remaining opening.old opening.new journal.old journal.new }
    ensures stays { is_some journal.new ≡ is_some journal.old }
{
    let texts = match read_opening_and(alloc, opening, journal, Source::Journal) {
        Ok(texts) => texts,
        Err(fault) => return Err(fault),
    };
    export_texts(alloc, seed, texts.opening, texts.last.as_slice())
}
