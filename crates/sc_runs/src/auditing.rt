//! From three files and a log to a verdict.

ghost use Rattle.std.specs.Prelude.{◌≡◌, All, IfOk, MatchResult, Ok};
ghost use Rattle.sc_intake.specs.Log.{log_in};
ghost use Rattle.sc_intake.specs.declared.fault.Source.TheVariants as input;
ghost use Rattle.sc_report.specs.Watched.{device_of};
ghost use Rattle.sc_steps.specs.Failing.{OutputFailsAsTold};
ghost use Rattle.sc_steps.specs.Inputs.{turns_with, TakesWithin};
ghost use Rattle.sc_steps.specs.Opening.{opening_in};
ghost use Rattle.sc_steps.specs.Steps.{texts_of, IsOpeningFault, OutputGets};
ghost use Rattle.sc_runs.specs.Auditing.{claimed_in, verdict_text, AuditsFiles, WritesAudit, WritesVerdict};
ghost use Rattle.sc_runs.specs.Steps.{WritesVerdictLine};

use sc_audit::{Verdict, audit};
use sc_decimal::push_number;
use sc_intake::{Source, read_log};
use sc_papers::{FlatPapers, Rejection, Seed};
use sc_report::Watched;
use sc_steps::{Opening, OpeningTexts, RunFault, read_inputs, read_owned, write_text};
use std::alloc::{AllocError, Global};
use std::io::{Read, Write};

/// What a log that was audited came to.
#[derive(Drop)]
pub struct Audited {
    /// The papers under which it was audited, without a record of each student.
    pub papers: FlatPapers,
    pub verdict: Verdict,
}

/// The line that tells a verdict, with its newline. The only error is want of memory.
fn verdict_line(alloc: Global, verdict: &Verdict) -> Result<Vec<u8>, AllocError>
    ensures { IfOk result (λ text. text.items ≡ verdict_text verdict.now) }
{
    let mut text = Vec::new(alloc);
    match verdict {
        Verdict::Certified => text.extend_from_slice(b"certified")?,
        Verdict::BadEntry { line } => {
            text.extend_from_slice(b"bad entry ")?;
            push_number(&mut text, *line)?;
        }
        Verdict::Over { school } => {
            text.extend_from_slice(b"over ")?;
            push_number(&mut text, u64::from(school.get()))?;
        }
    }
    text.extend_from_slice(b"\n")?;
    Ok(text)
}

/// The entries of a log, or its first fault.
pub(crate) fn read_entries(alloc: Global, log: &[u8]) -> Result<Vec<Rejection>, RunFault>
    ensures { MatchResult result (λ entries. log_in log.now ≡ Ok entries.items) (IsOpeningFault (log_in log.now)) }
{
    let entries = read_log(alloc, log)?;
    Ok(entries)
}

/// Writes the line of a verdict, and flushes it.
fn write_verdict<W: Write>(
    alloc: Global,
    verdict: &Verdict,
    out: &mut Watched<W>,
) -> Result<(), RunFault>
    ensures { OutputGets (WritesVerdictLine verdict.now) W.contents out.old out.new result }
{
    match verdict_line(alloc, verdict) {
        Ok(line) => write_text(line.as_slice(), out),
        Err(_) => Err(RunFault::OutOfMemory),
    }
}

/// Audits a log under papers.
fn audit_papers<W: Write>(
    alloc: Global,
    papers: &FlatPapers,
    log: &[u8],
    out: &mut Watched<W>,
) -> Result<Verdict, RunFault>
    ensures { OutputGets (WritesVerdict (claimed_in (Ok papers.now) (log_in log.now)))
        W.contents out.old out.new result }
{
    let entries = match read_entries(alloc, log) {
        Ok(entries) => entries,
        Err(fault) => return Err(fault),
    };
    let verdict = match audit(alloc, papers, entries.as_slice()) {
        Ok(verdict) => verdict,
        Err(_) => return Err(RunFault::OutOfMemory),
    };
    match write_verdict(alloc, &verdict, out) {
        Ok(()) => Ok(verdict),
        Err(fault) => Err(fault),
    }
}

/// Audits a log under papers, and answers them with the verdict.
fn answer_papers<W: Write>(
    alloc: Global,
    papers: FlatPapers,
    log: &[u8],
    out: &mut Watched<W>,
) -> Result<Audited, RunFault>
    ensures { OutputGets (WritesAudit (claimed_in (Ok papers) (log_in log.now))) W.contents out.old out.new result }
{
    let verdict = audit_papers(alloc, &papers, log, out)?;
    Ok(Audited { papers, verdict })
}

/// Audits a log under the papers that the texts hold. The texts are given up once the papers are read.
fn audit_texts<W: Write>(
    alloc: Global,
    seed: &Seed,
    texts: OpeningTexts,
    log: &[u8],
    out: &mut Watched<W>,
) -> Result<Audited, RunFault>
    ensures { OutputGets (WritesAudit (claimed_in (opening_in seed.now (texts_of texts)) (log_in log.now)))
        W.contents out.old out.new result }
{
    let papers = read_owned(alloc, seed, texts)?;
    answer_papers(alloc, papers, log, out)
}

/// Reads the three files and a log, in the order schools, roster, lists, log, audits the log under the
/// papers that the files hold, whoever made it, and writes the verdict: `certified`, `bad entry LINE` or
/// `over SCHOOL`. It answers the papers and the verdict. A certified log's matching is the student-optimal stable matching of
/// the papers.
///
/// Nothing is written before the inputs are known to be good. An error is the first fault of the inputs,
/// each of which is read whole before any is looked into; that an input or the output failed; or want of
/// memory, after which nothing was written.
pub fn audit_files<R: Read, W: Write>(
    alloc: Global,
    seed: &Seed,
    opening: &mut Opening<R>,
    log: &mut Watched<R>,
    out: &mut Watched<W>,
) -> Result<Audited, RunFault>
    ensures verdict { AuditsFiles seed.now
        (turns_with R.remaining opening.old opening.new input.Log log.old log.new)
        (W.contents (device_of out.old)) (W.contents (device_of out.new)) result }
    ensures failed { OutputFailsAsTold out.old out.new result }
    ensures limit { All TakesWithin (turns_with R.remaining opening.old opening.new input.Log log.old log.new) }
{
    let texts = match read_inputs(alloc, opening, log, Source::Log) {
        Ok(texts) => texts,
        Err(fault) => return Err(fault),
    };
    audit_texts(alloc, seed, texts.opening, texts.last.as_slice(), out)
}
