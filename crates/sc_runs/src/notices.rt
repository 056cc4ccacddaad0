//! From files to a notice: what is told of one student or school, or of all.

ghost use Rattle.std.specs.Prelude.{◌≡◌, true, Option, None, Some, IfOk, IfSome, is_some};
ghost use Rattle.sc_papers.specs.Market.{Market};
ghost use Rattle.sc_papers.specs.Matching.{Matching};
ghost use Rattle.sc_repair.specs.Standing.{matching_of};
ghost use Rattle.sc_steps.specs.Inputs.{opening_turns};
ghost use Rattle.sc_steps.specs.Steps.{papers_held, OutputGets};
ghost use Rattle.sc_notices.specs.Telling.{Tells};
ghost use Rattle.sc_runs.specs.Notices.{is_known, notice_text, Notice, TellsStanding, WritesNotice};
ghost use Rattle.sc_runs.specs.Standing.{journal_turns, AllTakeWithin, TellsFiles};

use crate::pieces::write_parts;
use crate::standing::clearing_after;
use sc_intake::Source;
use sc_journal::Tail;
use sc_notices::TextParts;
use sc_papers::Seed;
use sc_repair::Clearing;
use sc_report::Watched;
use sc_steps::{Opening, OpeningSlices, RunFault, read_opening_and};
use std::alloc::{AllocError, Global};
use std::io::{Read, Write};

/// Of whom a notice can be asked for: a student, or a school.
pub trait Subject: Copy {
    // Who is in papers, and what is told of one, and of all.
    ghost notice: { Notice Self };

    /// What is told of all. The only error is want of memory.
    fn told_of_all<'a>(alloc: Global, clearing: &'a Clearing) -> Result<TextParts<'a>, AllocError>
        ensures { IfOk result (λ told. Tells told
            (notice_text notice None clearing.now.standing.papers (matching_of clearing.now.standing))) };

    /// What is told of this one, or `None` where they are not in the papers. The only error is want of memory.
    fn told_of<'a>(
        self,
        alloc: Global,
        clearing: &'a Clearing,
    ) -> Result<Option<TextParts<'a>>, AllocError>
        ensures known { IfOk result (λ found. is_some found
            ≡ is_known notice (Some self) clearing.now.standing.papers) }
        ensures text { IfOk result (λ found. IfSome found (λ told. Tells told
            (notice_text notice (Some self) clearing.now.standing.papers (matching_of clearing.now.standing)))) };
}

/// What asking for a notice came to.
pub enum Told<S> {
    /// The notice was written, and the journal ends so.
    Written { tail: Tail },
    /// The one who was asked for is not in the papers as they stand, and nothing was written.
    Unknown { subject: S },
}

/// Writes a notice in pieces, and flushes it.
fn write_notice<S: Subject, W: Write>(
    alloc: Global,
    told: &TextParts<'_>,
    tail: Tail,
    out: &mut Watched<W>,
) -> Result<Told<S>, RunFault>
    // Of whichever papers and matching it is.
    ensures { OutputGets (λ old new result. (asked : Option S) (m : Market) (a : Matching)
        → is_known S.notice asked m ≡ true → Tells told.now (notice_text S.notice asked m a)
        → WritesNotice S.notice asked m a tail old new result) W.contents out.old out.new result }
{
    match write_parts(alloc, told, out) {
        Ok(()) => Ok(Told::Written { tail }),
        Err(fault) => Err(fault),
    }
}

/// Writes what is told of all, and flushes it.
fn notice_all<S: Subject, W: Write>(
    alloc: Global,
    clearing: &Clearing,
    tail: Tail,
    out: &mut Watched<W>,
) -> Result<Told<S>, RunFault>
    ensures { OutputGets (WritesNotice S.notice None clearing.now.standing.papers
        (matching_of clearing.now.standing) tail) W.contents out.old out.new result }
{
    match S::told_of_all(alloc, clearing) {
        Ok(told) => write_notice(alloc, &told, tail, out),
        Err(_) => Err(RunFault::OutOfMemory),
    }
}

/// Writes what is told of one, and flushes it, or answers that they are not in the papers.
fn notice_one<S: Subject, W: Write>(
    alloc: Global,
    clearing: &Clearing,
    subject: S,
    tail: Tail,
    out: &mut Watched<W>,
) -> Result<Told<S>, RunFault>
    ensures { OutputGets (WritesNotice S.notice (Some subject) clearing.now.standing.papers
        (matching_of clearing.now.standing) tail) W.contents out.old out.new result }
{
    match subject.told_of(alloc, clearing) {
        Ok(Some(told)) => write_notice(alloc, &told, tail, out),
        Ok(None) => Ok(Told::Unknown { subject }),
        Err(_) => Err(RunFault::OutOfMemory),
    }
}

/// Writes what is told of one, or of all where nobody is asked for.
fn notice_standing<S: Subject, W: Write>(
    alloc: Global,
    clearing: &Clearing,
    asked: Option<S>,
    tail: Tail,
    out: &mut Watched<W>,
) -> Result<Told<S>, RunFault>
    ensures { OutputGets (WritesNotice S.notice asked clearing.now.standing.papers
        (matching_of clearing.now.standing) tail) W.contents out.old out.new result }
{
    match asked {
        Some(subject) => notice_one(alloc, clearing, subject, tail, out),
        None => notice_all(alloc, clearing, tail, out),
    }
}

/// Writes a notice of what stands after the amendments of a journal over the papers that the texts hold.
fn notice_texts<S: Subject, W: Write>(
    alloc: Global,
    seed: &Seed,
    texts: OpeningSlices<'_>,
    journal: &[u8],
    asked: Option<S>,
    out: &mut Watched<W>,
) -> Result<Told<S>, RunFault>
    ensures { OutputGets (TellsStanding S.notice asked (papers_held seed.now texts.entry) journal.now)
        W.contents out.old out.new result }
{
    let (clearing, tail) = clearing_after(alloc, seed, texts, journal)?;
    notice_standing(alloc, &clearing, asked, tail, out)
}

/// Reads the three files and a journal, if there is one, and writes a notice of what then stands, as `explain_files` and
/// `admissions_files` do.
pub fn notice_files<S: Subject, R: Read, W: Write>(
    alloc: Global,
    seed: &Seed,
    opening: &mut Opening<R>,
    journal: &mut Option<Watched<R>>,
    asked: Option<S>,
    out: &mut Watched<W>,
) -> Result<Told<S>, RunFault>
    ensures told { OutputGets (TellsFiles (TellsStanding S.notice asked) seed.now
        (opening_turns R.remaining opening.old opening.new) (journal_turns R.remaining journal.old journal.new))
        W.contents out.old out.new result }
    ensures limit { AllTakeWithin R.remaining opening.old opening.new journal.old journal.new }
    ensures stays { is_some journal.new ≡ is_some journal.old }
{
    let texts = match read_opening_and(alloc, opening, journal, Source::Journal) {
        Ok(texts) => texts,
        Err(fault) => return Err(fault),
    };
    notice_texts(
        alloc,
        seed,
        texts.opening.as_slices(),
        texts.last.as_slice(),
        asked,
        out,
    )
}
