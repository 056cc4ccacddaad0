//! From four files to replies and an assignment.

ghost use Rattle.std.specs.Prelude.{◌≡◌, ◌∷◌, [], All, IfOk, MatchResult, Ok, Result, ◌≤◌, ◌+◌, length};
ghost use Rattle.sc_papers.specs.Market.{Market};
ghost use Rattle.sc_papers.specs.WellFormed.{WellFormed};
ghost use Rattle.sc_intake.specs.Script.{script_in};
ghost use Rattle.sc_intake.specs.declared.input.TheConstants.{MOST_BYTES};
ghost use Rattle.sc_intake.specs.declared.fault.IntakeFault.{IntakeFault};
ghost use Rattle.sc_intake.specs.declared.fault.Source.TheVariants as input;
ghost use Rattle.sc_repair.specs.Standing.{matching_of};
ghost use Rattle.sc_report.specs.Text.{report_text};
ghost use Rattle.sc_report.specs.Watched.{device_of, has_failed};
ghost use Rattle.sc_steps.specs.Failing.{JournalFailsAsTold, OutputFailsAsTold};
ghost use Rattle.sc_steps.specs.Inputs.{turns_with, TakesWithin};
ghost use Rattle.sc_steps.specs.Steps.{IsOpeningFault, WritersGet};
ghost use Rattle.sc_steps.specs.TwoWriters.{to_output};
ghost use Rattle.sc_steps.specs.Script.{Writes};
ghost use Rattle.sc_runs.specs.Steps.{IsReadingOf, WritesLastReport, WritesSession};
ghost use Rattle.sc_runs.specs.Run.{opened_in, RunsFiles, WritesRun};

use sc_intake::{ScriptRecords, Source};
use sc_papers::{Papers, Seed};
use sc_repair::{Clearing, Unsettled};
use sc_report::Watched;
use sc_steps::{
    Amendable, InputTexts, Opening, Recorder, RunFault, Session, flush_output, read_inputs,
    read_kept, write_standing_report,
};
use std::alloc::Global;
use std::io::{Read, Write};

/// The inputs of a run: the files of an opening, and the script.
#[derive(Drop)]
pub struct Inputs<R> {
    pub opening: Opening<R>,
    pub script: Watched<R>,
}

/// When a run settles the papers that its script amends. It writes the same either way.
#[derive(Clone, Copy, Debug, PartialEq, Eq)]
pub enum Settling {
    /// Once, after the last record.
    AtTheEnd,
    /// After each amendment that is accepted, as a clearing does that answers questions between its amendments.
    EachTime,
}

/// The records of a script, or the fault of it.
fn read_records(alloc: Global, script: &[u8]) -> Result<ScriptRecords<'_>, RunFault>
    ensures read { MatchResult result (λ records. script_in script.now ≡ Ok records)
        (IsOpeningFault (script_in script.now)) }
    ensures bounded { IfOk result (λ records. length records ≤ MOST_BYTES + 1) }
{
    let records = ScriptRecords::open(alloc, script)?;
    Ok(records)
}

/// Writes the report of the standing assignment, and flushes the journal and then the output.
fn finish<W: Write, J: Recorder>(
    alloc: Global,
    clearing: &Clearing,
    out: &mut Watched<W>,
    journal: &mut J,
) -> Result<(), RunFault>
    ensures { WritersGet (Writes
        (to_output (report_text clearing.now.standing.papers (matching_of clearing.now.standing)) ∷ []))
        J.contents J.has_failed journal.old journal.new W.contents out.old out.new result }
{
    if let Err(fault) = write_standing_report(alloc, clearing, out) {
        return Err(fault);
    }
    match journal.flush() {
        Ok(()) => {}
        Err(_) => return Err(RunFault::WriteJournal),
    }
    flush_output(out)
}

/// Settles papers as they stand, writes their report, and flushes the journal and then the output.
fn settle_and_finish<A: Amendable, W: Write, J: Recorder>(
    alloc: Global,
    amended: A,
    out: &mut Watched<W>,
    journal: &mut J,
) -> Result<(), RunFault>
    requires well_formed { WellFormed (A.stands amended).papers }
    ensures { WritersGet (WritesLastReport (A.stands amended).papers)
        J.contents J.has_failed journal.old journal.new W.contents out.old out.new result }
{
    match amended.settle(alloc) {
        Ok(clearing) => finish(alloc, &clearing, out, journal),
        Err(_) => Err(RunFault::OutOfMemory),
    }
}

/// Answers the records of a script in turn, and writes the report of the papers as they then stand.
fn run_records<A: Amendable + Drop, W: Write, J: Recorder>(
    alloc: Global,
    amended: A,
    mut records: ScriptRecords<'_>,
    out: &mut Watched<W>,
    journal: &mut J,
) -> Result<(), RunFault>
    requires well_formed { WellFormed (A.stands amended).papers }
    requires bounded { length records ≤ MOST_BYTES + 1 }
    ensures { WritersGet (WritesSession (A.stands amended) records.entry)
        J.contents J.has_failed journal.old journal.new W.contents out.old out.new result }
{
    let mut session = Session::new(amended);
    match session.answer_all(alloc, &mut records, out, journal) {
        Ok(()) => settle_and_finish(alloc, session.amended, out, journal),
        Err(fault) => Err(fault),
    }
}

/// Opens papers, answers the records of the script in turn, and writes the report of the papers as they
/// then stand.
fn run_papers<A: Amendable + Drop, W: Write, J: Recorder>(
    alloc: Global,
    papers: Papers,
    script: &[u8],
    out: &mut Watched<W>,
    journal: &mut J,
) -> Result<(), RunFault>
    ensures { WritersGet (WritesRun (opened_in (Ok papers) (script_in script.now)))
        J.contents J.has_failed journal.old journal.new W.contents out.old out.new result }
{
    let amended = match A::open(alloc, papers) {
        Ok(amended) => amended,
        Err(_) => return Err(RunFault::OutOfMemory),
    };
    match read_records(alloc, script) {
        Ok(records) => run_records::<A, W, J>(alloc, amended, records, out, journal),
        Err(fault) => Err(fault),
    }
}

/// Opens papers that were read, answers the records of the script in turn, and writes the report of the papers as they then
/// stand; or answers why they were not read.
pub fn run_read<W: Write, J: Recorder>(
    alloc: Global,
    read: Result<Papers, RunFault>,
    script: &[u8],
    settling: Settling,
    out: &mut Watched<W>,
    journal: &mut J,
) -> Result<(), RunFault>
    requires { (reading : Result Market IntakeFault) × IsReadingOf reading read }
    ensures writes { (reading : Result Market IntakeFault) → IsReadingOf reading read
        → WritesRun (opened_in reading (script_in script.now))
        (record { journal = J.contents journal.old; output = W.contents (device_of out.old) })
        (record { journal = J.contents journal.new; output = W.contents (device_of out.new) }) result }
    ensures failed { OutputFailsAsTold out.old out.new result }
    ensures journal_failed { JournalFailsAsTold (J.has_failed journal.old) (J.has_failed journal.new) result }
{
    let papers = match read {
        Ok(papers) => papers,
        Err(fault) => return Err(fault),
    };
    match settling {
        Settling::EachTime => run_papers::<Clearing, W, J>(alloc, papers, script, out, journal),
        Settling::AtTheEnd => run_papers::<Unsettled, W, J>(alloc, papers, script, out, journal),
    }
}

/// Reads the four inputs, in the order schools, roster, lists, script, and runs them: the line of each
/// accepted amendment is written to the journal, and then its reply line to the output; last the report of
/// the papers as they then stand is.
///
/// `settling` says when the papers are settled, and changes no byte: once, after the last record, or after each
/// amendment that is accepted, by `Clearing::amend`. The first costs one `match`, and for each record the cost of
/// `Papers::apply` and of its line and its reply. Where a growth is refused, what was written before it may differ.
///
/// The journal is never full: from 999,999,999 accepted amendments on, every amendment is refused as `Spent`.
///
/// Nothing is written before the inputs are known to be good. An error is the first fault of the inputs,
/// each of which is read whole before any is looked into; that an input or a writer failed; or want of
/// memory. After it the writers hold a prefix of what the run writes, in its order: so each `ok` that
/// stands whole in the output has its line whole in the journal.
pub fn run<R: Read, W: Write, J: Write>(
    alloc: Global,
    seed: &Seed,
    inputs: &mut Inputs<R>,
    settling: Settling,
    out: &mut Watched<W>,
    journal: &mut Watched<J>,
) -> Result<(), RunFault>
    ensures writes { RunsFiles seed.now
        (turns_with R.remaining inputs.old.opening inputs.new.opening input.Script inputs.old.script inputs.new.script)
        (record { journal = J.contents (device_of journal.old); output = W.contents (device_of out.old) })
        (record { journal = J.contents (device_of journal.new); output = W.contents (device_of out.new) }) result }
    ensures failed { OutputFailsAsTold out.old out.new result }
    ensures journal_failed { JournalFailsAsTold (has_failed journal.old) (has_failed journal.new) result }
    ensures limit { All TakesWithin
        (turns_with R.remaining inputs.old.opening inputs.new.opening
        input.Script inputs.old.script inputs.new.script) }
{
    let texts = match read_inputs(
        alloc,
        &mut inputs.opening,
        &mut inputs.script,
        Source::Script,
    ) {
        Ok(texts) => texts,
        Err(fault) => return Err(fault),
    };
    let InputTexts { opening, last } = texts;
    let read = read_kept(alloc, seed, opening);
    run_read(alloc, read, last.as_slice(), settling, out, journal)
}
