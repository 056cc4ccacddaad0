//! From files to whose place the amendments of a journal changed.

ghost use Rattle.std.specs.Prelude.{◌≡◌, ◌<◌, false, Option, List, ℕ, All, IfErr, IfOk, MatchOption};
ghost use Rattle.sc_decimal.specs.Number.{read_number};
ghost use Rattle.sc_intake.specs.declared.fault.Source.TheVariants as input;
ghost use Rattle.sc_papers.specs.Market.{Market};
ghost use Rattle.sc_papers.specs.Matching.{Matching};
ghost use Rattle.sc_repair.specs.Standing.{matching_of};
ghost use Rattle.sc_reasons.specs.Entrants.{AreRising, Holds};
ghost use Rattle.sc_report.specs.Watched.{device_of};
ghost use Rattle.sc_notices.specs.ChangesText.{changes_text};
ghost use Rattle.sc_steps.specs.Failing.{is_output_fault, OutputFailsAsTold};
ghost use Rattle.sc_steps.specs.Inputs.{turns_with, TakesWithin};
ghost use Rattle.sc_steps.specs.Steps.{papers_held, OutputGets};
ghost use Rattle.sc_runs.specs.Changing.{whole_lines, AreFirstLines, ChangesFiles, TellsChange};
ghost use Rattle.sc_runs.specs.Pieces.{WritesInPieces};
ghost use Rattle.sc_runs.specs.Standing.{IsStandingFault, WritesPiecesOfStanding};
ghost use Rattle.sc_runs.specs.Steps.{ArePlacesAfter, IsChangeFrom};

use crate::pieces::write_parts;
use crate::standing::clearing_after;
use sc_decimal::read_number;
use sc_intake::Source;
use sc_journal::Tail;
use sc_notices::{change_parts, standing_places};
use sc_papers::Seed;
use sc_repair::Clearing;
use sc_report::{Entrant, Watched};
use sc_steps::{Opening, OpeningSlices, RunFault, read_inputs};
use std::alloc::Global;
use std::io::{Read, Write};

/// What telling whose place changed came to.
#[derive(Clone, Copy, Debug, PartialEq, Eq)]
pub enum Changed {
    /// The changes were written, and the journal ends so.
    Written { tail: Tail },
    /// The journal has fewer whole lines than this, and nothing was written.
    NoLine { line: u32 },
}

/// How many lines a text says in 1 to 9 decimal digits, whether or not the first of them are zeros; `None` for every
/// other text.
pub fn read_since(text: &[u8]) -> Option<u32>
    ensures { result ≡ read_number text.now }
{
    read_number(text)
}

/// The first so many lines of a text, each with its newline, or `None` where there are fewer. One pass over them.
fn first_lines(text: &[u8], count: u32) -> Option<&[u8]>
    ensures { MatchOption result (whole_lines text.now < count) (λ lines. AreFirstLines count text.now lines.now) }
{
    if count == 0 {
        return Some(&text[..0]);
    }
    let mut left = count;
    for index in 0..text.len() {
        if text[index] == b'\n' {
            left -= 1;
            if left == 0 {
                return Some(&text[..index + 1]);
            }
        }
    }
    None
}

/// What the students of the papers that the texts hold have after these lines of a journal.
fn places_after(
    alloc: Global,
    seed: &Seed,
    texts: OpeningSlices<'_>,
    lines: &[u8],
) -> Result<Vec<Entrant>, RunFault>
    ensures places { IfOk result (λ places. ArePlacesAfter (papers_held seed.now texts.entry) lines.now places.items) }
    ensures refused { IfErr result (IsStandingFault (papers_held seed.now texts.entry) lines.now) }
{
    let (clearing, _) = clearing_after(alloc, seed, texts, lines)?;
    match standing_places(alloc, &clearing) {
        Ok(places) => Ok(places),
        Err(_) => Err(RunFault::OutOfMemory),
    }
}

/// Writes whose place differs between those before and the standing assignment in pieces, and flushes it.
fn write_changes<W: Write>(
    alloc: Global,
    before: &[Entrant],
    clearing: &Clearing,
    out: &mut Watched<W>,
) -> Result<(), RunFault>
    // By whichever papers and matching the places before are.
    ensures { OutputGets (λ old new result. (m : Market) (a : Matching) → AreRising m before.now
        → All (Holds a) before.now → WritesInPieces
        (changes_text m a clearing.now.standing.papers (matching_of clearing.now.standing)) old new result)
        W.contents out.old out.new result }
{
    match change_parts(alloc, before, clearing) {
        Ok(told) => write_parts(alloc, &told, out),
        Err(_) => Err(RunFault::OutOfMemory),
    }
}

/// Writes whose place differs between those before and what stands after all of a journal over the papers that the texts
/// hold.
fn change_from<W: Write>(
    alloc: Global,
    seed: &Seed,
    texts: OpeningSlices<'_>,
    journal: &[u8],
    before: &[Entrant],
    out: &mut Watched<W>,
) -> Result<Tail, RunFault>
    // By whichever papers and matching the places before are.
    ensures { OutputGets (λ old new result. (m : Market) (a : Matching) → AreRising m before.now
        → All (Holds a) before.now → WritesPiecesOfStanding
        (IsChangeFrom m a) (papers_held seed.now texts.entry) journal.now old new result)
        W.contents out.old out.new result }
{
    let (clearing, tail) = clearing_after(alloc, seed, texts, journal)?;
    match write_changes(alloc, before, &clearing, out) {
        Ok(()) => Ok(tail),
        Err(fault) => Err(fault),
    }
}

/// Writes whose place changed after the first lines of a journal over the papers that the texts hold.
fn change_since<W: Write>(
    alloc: Global,
    seed: &Seed,
    texts: OpeningSlices<'_>,
    journal: &[u8],
    lines: &[u8],
    out: &mut Watched<W>,
) -> Result<Changed, RunFault>
    // After however many lines these are.
    ensures { OutputGets (λ old new result. (since : ℕ) → AreFirstLines since journal.now lines.now
        → TellsChange since (papers_held seed.now texts.entry) journal.now old new result)
        W.contents out.old out.new result }
{
    let before = match places_after(alloc, seed, texts, lines) {
        Ok(before) => before,
        Err(fault) => return Err(fault),
    };
    match change_from(alloc, seed, texts, journal, before.as_slice(), out) {
        Ok(tail) => Ok(Changed::Written { tail }),
        Err(fault) => Err(fault),
    }
}

/// Answers that a journal over the papers that the texts hold has fewer whole lines than this, unless it or the papers
/// have a fault.
fn answer_no_line(
    alloc: Global,
    seed: &Seed,
    texts: OpeningSlices<'_>,
    journal: &[u8],
    line: u32,
) -> Result<Changed, RunFault>
    requires { whole_lines journal.now < line }
    ensures change { (bytes : Option (List ℕ)) → TellsChange line (papers_held seed.now texts.entry) journal.now
        bytes bytes result }
    ensures failed { is_output_fault result ≡ false }
{
    clearing_after(alloc, seed, texts, journal)?;
    Ok(Changed::NoLine { line })
}

/// Writes whose place changed after the first lines of a journal, so many, over the papers that the texts hold, or
/// answers that it has not so many.
fn change_texts<W: Write>(
    alloc: Global,
    seed: &Seed,
    texts: OpeningSlices<'_>,
    journal: &[u8],
    since: u32,
    out: &mut Watched<W>,
) -> Result<Changed, RunFault>
    ensures { OutputGets (TellsChange since (papers_held seed.now texts.entry) journal.now)
        W.contents out.old out.new result }
{
    match first_lines(journal, since) {
        Some(lines) => change_since(alloc, seed, texts, journal, lines, out),
        None => answer_no_line(alloc, seed, texts, journal, since),
    }
}

/// Reads the three files and a journal, in the order schools, roster, lists, journal, and writes whose place differs
/// between the papers as they stand after the first lines of the journal, so many (0 is the opening), and as they stand
/// after all of it. It answers whether bytes follow the journal's last newline, which are left unread; or that it has not
/// so many whole lines, and then nothing is written.
///
/// Nothing is written before the inputs are known to be good. An error is the first fault of the inputs, each of
/// which is read whole before any is looked into, or else the first faulty line of the journal with its first cause;
/// that an input or the output failed; or want of memory. After a fault of the output, and after want of memory, a prefix
/// of the text was written, which may be nothing. Where reading an input ends early, those after it are not touched; of none
/// more than one byte past 64 MiB is taken.
///
/// The cost is two openings, each with its amendments, and a sort of the students' numbers for either. What is kept of
/// the first beside the second is 16 bytes for each student.
pub fn changes_files<R: Read, W: Write>(
    alloc: Global,
    seed: &Seed,
    opening: &mut Opening<R>,
    journal: &mut Watched<R>,
    since: u32,
    out: &mut Watched<W>,
) -> Result<Changed, RunFault>
    ensures change { ChangesFiles since seed.now
        (turns_with R.remaining opening.old opening.new input.Journal journal.old journal.new)
        (W.contents (device_of out.old)) (W.contents (device_of out.new)) result }
    ensures failed { OutputFailsAsTold out.old out.new result }
    ensures limit { All TakesWithin
        (turns_with R.remaining opening.old opening.new input.Journal journal.old journal.new) }
{
    let texts = match read_inputs(alloc, opening, journal, Source::Journal) {
        Ok(texts) => texts,
        Err(fault) => return Err(fault),
    };
    change_texts(
        alloc,
        seed,
        texts.opening.as_slices(),
        texts.last.as_slice(),
        since,
        out,
    )
}
