//! From one bundle to replies and an assignment.

ghost use Rattle.std.specs.Prelude.{◌≡◌, ◌≢◌, ◌||◌, false, Result};
ghost use Rattle.sc_intake.specs.declared.fault.IntakeFault.{IntakeFault};
ghost use Rattle.sc_intake.specs.declared.fault.Source.TheVariants as source;
ghost use Rattle.sc_papers.specs.Market.{Market};
ghost use Rattle.sc_report.specs.Watched.{device_of, has_failed};
ghost use Rattle.sc_steps.specs.Failing.{is_journal_fault};
ghost use Rattle.sc_steps.specs.Inputs.{turn_of, TakesWithin};
ghost use Rattle.sc_steps.specs.Opening.{WritesMatch};
ghost use Rattle.sc_steps.specs.Steps.{OutputGets};
ghost use Rattle.sc_steps.specs.declared.fault.RunFault.TheVariants.{WriteJournal};
ghost use Rattle.sc_runs.specs.Bundle.{sections_of};
ghost use Rattle.sc_runs.specs.BundleRun.{ends_by_output, EndsBundle, RunsBundle};
ghost use Rattle.sc_runs.specs.Steps.{ending_of, IsReadingOf};
ghost use Rattle.sc_runs.specs.declared.ending.Ending.TheVariants.{Fault};

use crate::bundle::{Bundle, split_bundle};
use crate::ending::Ending;
use crate::running::{Settling, run_read};
use sc_intake::Source;
use sc_papers::{FlatPapers, Seed};
use sc_report::Watched;
use sc_steps::{
    OpeningSlices, RunFault, Unkept, read_flat, read_input, read_papers, report_papers,
};
use std::alloc::Global;
use std::io::{Read, Write};

/// Reads a bundle whole, and its seed, and runs its sections: with a script, its records are answered in
/// turn, and then the papers are settled once and the report is written; without one the report of the opening is
/// written. Before the
/// sections are known to be good, nothing is written. At most one byte past 64 MiB is read. No journal
/// is kept, so none can fail.
pub fn run_bundle<R: Read, W: Write>(
    alloc: Global,
    input: &mut Watched<R>,
    out: &mut Watched<W>,
) -> Ending
    ensures ending { RunsBundle (turn_of R.remaining source.Bundle input.old input.new)
        (W.contents (device_of out.old)) (W.contents (device_of out.new)) result }
    ensures failed { has_failed out.new ≡ (has_failed out.old || ends_by_output result) }
    ensures no_journal { result ≢ Fault WriteJournal }
    ensures limit { TakesWithin (turn_of R.remaining source.Bundle input.old input.new) }
{
    match read_input(alloc, input, Source::Bundle) {
        Ok(text) => run_text(alloc, text, out),
        Err(fault) => Ending::Fault(fault),
    }
}

/// The texts of a bundle's opening, lent.
fn opening_of<'a>(bundle: &Bundle<'a>) -> OpeningSlices<'a>
    ensures schools { result.schools.now ≡ (sections_of bundle.now).schools }
    ensures roster { result.roster.now ≡ (sections_of bundle.now).roster }
    ensures lists { result.lists.now ≡ (sections_of bundle.now).lists }
{
    OpeningSlices {
        schools: bundle.schools,
        roster: bundle.roster,
        lists: bundle.lists,
    }
}

/// Writes the report of papers that were read, and flushes it, or answers why they were not.
fn report_read<W: Write>(
    alloc: Global,
    read: Result<FlatPapers, RunFault>,
    out: &mut Watched<W>,
) -> Result<(), RunFault>
    requires { (reading : Result Market IntakeFault) × IsReadingOf reading read }
    ensures report { OutputGets (λ old new result. (reading : Result Market IntakeFault) → IsReadingOf reading read
        → WritesMatch false reading old new result) W.contents out.old out.new result }
    ensures no_journal { is_journal_fault result ≡ false }
{
    report_papers(alloc, &read?, out)
}

/// How running the sections of a bundle ends.
fn ending_of(done: Result<(), RunFault>) -> Ending
    ensures { result ≡ ending_of done }
{
    match done {
        Ok(()) => Ending::Done,
        Err(fault) => Ending::Fault(fault),
    }
}

/// Runs a bundle that was read. Where it has no script, its text is given up once the papers are read, so that its memory
/// serves the settling.
fn run_text<W: Write>(alloc: Global, text: Vec<u8>, out: &mut Watched<W>) -> Ending
    ensures ending { EndsBundle text.items (W.contents (device_of out.old)) (W.contents (device_of out.new)) result }
    ensures failed { has_failed out.new ≡ (has_failed out.old || ends_by_output result) }
    ensures no_journal { result ≢ Fault WriteJournal }
{
    let Some(bundle) = split_bundle(text.as_slice()) else {
        return Ending::BadBundle;
    };
    let seed = match Seed::from_hex(bundle.seed) {
        Ok(seed) => seed,
        Err(error) => return Ending::BadSeed(error),
    };
    let opening = opening_of(&bundle);
    if let Some(script) = bundle.script {
        let read = read_papers(alloc, &seed, opening);
        let done = run_read(alloc, read, script, Settling::AtTheEnd, out, &mut Unkept);
        return ending_of(done);
    }
    let read = read_flat(alloc, &seed, opening);
    drop(text);
    ending_of(report_read(alloc, read, out))
}
