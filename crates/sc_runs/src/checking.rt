//! From files to every fault of them.

ghost use Rattle.std.specs.Prelude.{◌≡◌, ◌++◌, All, is_some};
ghost use Rattle.sc_intake.specs.declared.fault.Source.TheVariants as input;
ghost use Rattle.sc_checks.specs.FaultLines.{files_of};
ghost use Rattle.sc_checks.specs.Representation.{files_view, names_view};
ghost use Rattle.sc_report.specs.Watched.{device_of};
ghost use Rattle.sc_steps.specs.Failing.{OutputFailsAsTold};
ghost use Rattle.sc_steps.specs.Inputs.{opening_turns, turns_if_any, TakesWithin};
ghost use Rattle.sc_steps.specs.Steps.{OutputGets};
ghost use Rattle.sc_runs.specs.Checking.{ChecksFiles, WritesEveryFault, WritesFaults};
ghost use Rattle.sc_runs.specs.Steps.{texts_lent};

use sc_checks::{FaultLines, FileNames, InputFile, InputFiles, every_fault};
use sc_intake::Source;
use sc_papers::Seed;
use sc_report::Watched;
use sc_steps::{Opening, OpeningSlices, RunFault, flush_output, read_opening_and, write_line};
use std::alloc::Global;
use std::io::{Read, Write};

/// What checking came to.
#[derive(Clone, Copy, Debug, PartialEq, Eq)]
pub enum Checked {
    /// Nothing has a fault.
    Clean,
    /// Something has a fault, and the lines of all faults were written.
    Faulty,
}

/// Writes the lines of the faults that are left, a piece after the other, and does not flush them.
fn write_pieces<W: Write>(
    alloc: Global,
    lines: &mut FaultLines<'_>,
    out: &mut Watched<W>,
) -> Result<Checked, RunFault>
    ensures { OutputGets (WritesFaults lines.old.files lines.old.left) W.contents out.old out.new result }
{
    let mut text = Vec::new(alloc);
    let mut checked = Checked::Clean;
    'pieces: loop {
        match lines.next_piece(&mut text) {
            Ok(true) => checked = Checked::Faulty,
            Ok(false) => return Ok(checked),
            Err(_) => return Err(RunFault::OutOfMemory),
        }
        if let Err(fault) = write_line(text.as_slice(), out) {
            return Err(fault);
        }
    }
}

/// Writes the lines of the faults that are left, and flushes them.
fn write_faults<W: Write>(
    alloc: Global,
    lines: &mut FaultLines<'_>,
    out: &mut Watched<W>,
) -> Result<Checked, RunFault>
    ensures { OutputGets (WritesFaults lines.old.files lines.old.left) W.contents out.old out.new result }
{
    match write_pieces(alloc, lines, out) {
        Ok(checked) => match flush_output(out) {
            Ok(()) => Ok(checked),
            Err(fault) => Err(fault),
        },
        Err(fault) => Err(fault),
    }
}

/// The inputs of these names and texts.
fn files_of<'a>(names: &FileNames<'a>, texts: OpeningSlices<'a>, script: &'a [u8]) -> InputFiles<'a>
    ensures { files_view result ≡ files_of
        (names_view names.now) texts.entry.schools.now texts.entry.roster.now texts.entry.lists.now script.now }
{
    InputFiles {
        schools: InputFile {
            name: names.schools,
            text: texts.schools,
        },
        roster: InputFile {
            name: names.roster,
            text: texts.roster,
        },
        lists: InputFile {
            name: names.lists,
            text: texts.lists,
        },
        script: InputFile {
            name: names.script,
            text: script,
        },
    }
}

/// Writes the lines of every fault of texts of these names, and flushes them.
fn check_texts<W: Write>(
    alloc: Global,
    seed: &Seed,
    names: &FileNames<'_>,
    texts: OpeningSlices<'_>,
    script: &[u8],
    out: &mut Watched<W>,
) -> Result<Checked, RunFault>
    ensures { OutputGets (WritesEveryFault (names_view names.now) (texts_lent texts.entry) script.now)
        W.contents out.old out.new result }
{
    match every_fault(
        alloc,
        *seed,
        texts.schools,
        texts.roster,
        texts.lists,
        script,
    ) {
        Ok(faults) => {
            let mut lines = FaultLines::new(alloc, files_of(names, texts, script), faults);
            write_faults(alloc, &mut lines, out)
        }
        Err(_) => Err(RunFault::OutOfMemory),
    }
}

/// Reads the three files and a script, if there is one, in the order schools, roster, lists, script, and writes a line
/// for each of their faults, as `every_fault` of `sc_checks` finds them and `FaultLines` tells them by these names. It
/// answers whether there is one. No seed changes the faults: a line is written exactly where the files make no papers or a
/// record of the script is no amendment, and the first line of the files is of the fault with which `match_files` ends. One
/// that nobody could know keeps the call fast for whatever numbers.
///
/// The lines are written in pieces of some 64 KiB, as the faults are found, and no fault is kept. An error is that an
/// input cannot be read or is longer than 64 MiB, after which nothing was written; or that the output failed, or want of
/// memory, after which a prefix of the lines was. Each input is read whole before any is looked into. Where reading one
/// ends early, those after it are not touched; of none more than one byte past 64 MiB is taken.
pub fn check_files<R: Read, W: Write>(
    alloc: Global,
    seed: &Seed,
    names: &FileNames<'_>,
    opening: &mut Opening<R>,
    script: &mut Option<Watched<R>>,
    out: &mut Watched<W>,
) -> Result<Checked, RunFault>
    ensures checked { ChecksFiles (names_view names.now) (opening_turns R.remaining opening.old opening.new)
        (turns_if_any R.remaining input.Script script.old script.new)
        (W.contents (device_of out.old)) (W.contents (device_of out.new)) result }
    ensures failed { OutputFailsAsTold out.old out.new result }
    ensures limit { All TakesWithin (opening_turns R.remaining opening.old opening.new
        ++ turns_if_any R.remaining input.Script script.old script.new) }
    ensures stays { is_some script.new ≡ is_some script.old }
{
    let texts = match read_opening_and(alloc, opening, script, Source::Script) {
        Ok(texts) => texts,
        Err(fault) => return Err(fault),
    };
    check_texts(
        alloc,
        seed,
        names,
        texts.opening.as_slices(),
        texts.last.as_slice(),
        out,
    )
}
