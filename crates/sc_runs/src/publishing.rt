//! From three files, a log and a published report to a finding.

ghost use Rattle.std.specs.Prelude.{◌≡◌, All, IfErr, IfOk, Ok, length};
ghost use Rattle.sc_papers.specs.Log.{matching_of};
ghost use Rattle.sc_papers.specs.Matching.{Matching};
ghost use Rattle.sc_audit.specs.Verdict.{IsVerdict};
ghost use Rattle.sc_audit.specs.declared.verdict.Verdict.TheVariants as verdict;
ghost use Rattle.sc_intake.specs.Log.{log_in};
ghost use Rattle.sc_intake.specs.declared.fault.Source.TheVariants as input;
ghost use Rattle.sc_report.specs.Text.{report_text};
ghost use Rattle.sc_report.specs.Watched.{device_of};
ghost use Rattle.sc_steps.specs.Failing.{OutputFailsAsTold};
ghost use Rattle.sc_steps.specs.Inputs.{turn_of, turns_with, TakesWithin};
ghost use Rattle.sc_steps.specs.Opening.{opening_in, WritesText};
ghost use Rattle.sc_steps.specs.Steps.{texts_of, OutputGets};
ghost use Rattle.sc_runs.specs.Auditing.{claimed_in};
ghost use Rattle.sc_runs.specs.Publishing.{finding_text, AuditsReport, EndsComparing, EndsFinding, IsCompared, IsFinding, WritesFinding};
ghost use Rattle.sc_runs.specs.Steps.{finding_of};
ghost use Rattle.sc_tallies.specs.Places.{ArePlaces};

use crate::auditing::read_entries;
use sc_audit::{AuditedLog, Verdict, audit_and_place};
use sc_decimal::push_number;
use sc_intake::Source;
use sc_papers::{FlatPapers, Rejection, SchoolNo, Seed};
use sc_report::{ReadFault, Watched, first_difference, report_text_of};
use sc_steps::{Opening, OpeningTexts, RunFault, read_inputs, read_owned, write_text};
use std::alloc::{AllocError, Global};
use std::io::{Read, Write};

/// What a log and a published report came to.
#[derive(Clone, Copy, Debug, PartialEq, Eq)]
pub enum Finding {
    /// The entry in this line of the log, counted from 1, is the first that is not valid after those before it. The report
    /// was not looked at.
    BadEntry { line: u64 },
    /// Every entry of the log is valid, but at its end more students have this school as their next choice than it has
    /// seats, and no school of a lesser number. The report was not looked at.
    Over { school: SchoolNo },
    /// The log is settled for the papers, and this line of the report, counted from 1, is the first that is not as in the
    /// papers' report under the log's matching.
    ReportDiffers { line: u64 },
    /// The log is settled for the papers, and the report is theirs under its matching.
    Certified,
}

/// The line that tells a finding, with its newline. The only error is want of memory.
fn finding_line(alloc: Global, finding: &Finding) -> Result<Vec<u8>, AllocError>
    ensures { IfOk result (λ text. text.items ≡ finding_text finding.now) }
{
    let mut text = Vec::new(alloc);
    match finding {
        Finding::BadEntry { line } => {
            text.extend_from_slice(b"bad entry ")?;
            push_number(&mut text, *line)?;
        }
        Finding::Over { school } => {
            text.extend_from_slice(b"over ")?;
            push_number(&mut text, u64::from(school.get()))?;
        }
        Finding::ReportDiffers { line } => {
            text.extend_from_slice(b"report differs ")?;
            push_number(&mut text, *line)?;
        }
        Finding::Certified => text.extend_from_slice(b"certified")?,
    }
    text.extend_from_slice(b"\n")?;
    Ok(text)
}

/// Writes the line of a finding, and flushes it.
fn write_finding<W: Write>(
    alloc: Global,
    finding: &Finding,
    out: &mut Watched<W>,
) -> Result<(), RunFault>
    ensures { OutputGets (WritesText (λ text. text ≡ finding_text finding.now)) W.contents out.old out.new result }
{
    match finding_line(alloc, finding) {
        Ok(line) => write_text(line.as_slice(), out),
        Err(_) => Err(RunFault::OutOfMemory),
    }
}

/// What comparing a report came to, under a log that is settled.
fn finding_of(difference: Option<u64>) -> Finding
    ensures { result ≡ finding_of difference }
{
    match difference {
        Some(line) => Finding::ReportDiffers { line },
        None => Finding::Certified,
    }
}

/// Compares a report with that of papers and of the school that each student has.
fn compare<R: Read>(
    alloc: Global,
    papers: &FlatPapers,
    places: Vec<Option<SchoolNo>>,
    report: &mut Watched<R>,
) -> Result<Option<u64>, RunFault>
    requires { length places.items ≡ length papers.now.students }
    ensures compared { IfOk result (λ found. (a : Matching) → ArePlaces papers.now a places.items
        → IsCompared (report_text papers.now a) (turn_of R.remaining input.Report report.old report.new) found) }
    ensures ended { IfErr result (EndsComparing (turn_of R.remaining input.Report report.old report.new)) }
{
    let text = match report_text_of(alloc, papers, places) {
        Ok(text) => text,
        Err(_) => return Err(RunFault::OutOfMemory),
    };
    match first_difference(alloc, report, text.as_slice()) {
        Ok(found) => Ok(found),
        Err(ReadFault::Device) => Err(RunFault::Read {
            source: Source::Report,
        }),
        Err(ReadFault::OutOfMemory) => Err(RunFault::OutOfMemory),
    }
}

/// What a log that was audited so comes to, with a report, which is looked at if the log is settled. The log itself is
/// not looked at again: the clauses name it.
fn find_audited<R: Read>(
    alloc: Global,
    papers: &FlatPapers,
    log: &[Rejection],
    audited: AuditedLog,
    report: &mut Watched<R>,
) -> Result<Finding, RunFault>
    requires verdict { IsVerdict papers.now log.now audited.verdict }
    requires places { audited.verdict ≡ verdict.Certified
        → ArePlaces papers.now (matching_of papers.now log.now) audited.places.items }
    ensures found { IfOk result
        (IsFinding papers.now log.now (turn_of R.remaining input.Report report.old report.new)) }
    ensures ended { IfErr result
        (EndsFinding papers.now log.now (turn_of R.remaining input.Report report.old report.new)) }
{
    let AuditedLog { verdict, places } = audited;
    match verdict {
        Verdict::BadEntry { line } => Ok(Finding::BadEntry { line }),
        Verdict::Over { school } => Ok(Finding::Over { school }),
        Verdict::Certified => match compare(alloc, papers, places, report) {
            Ok(difference) => Ok(finding_of(difference)),
            Err(fault) => Err(fault),
        },
    }
}

/// Audits a log under papers, and then a report, if the log is settled.
fn find<R: Read>(
    alloc: Global,
    papers: &FlatPapers,
    log: &[Rejection],
    report: &mut Watched<R>,
) -> Result<Finding, RunFault>
    ensures found { IfOk result
        (IsFinding papers.now log.now (turn_of R.remaining input.Report report.old report.new)) }
    ensures ended { IfErr result
        (EndsFinding papers.now log.now (turn_of R.remaining input.Report report.old report.new)) }
{
    match audit_and_place(alloc, papers, log) {
        Ok(audited) => find_audited(alloc, papers, log, audited, report),
        Err(_) => Err(RunFault::OutOfMemory),
    }
}

/// Audits a log and a report under papers, and writes what is found.
fn audit_papers<R: Read, W: Write>(
    alloc: Global,
    papers: &FlatPapers,
    log: &[u8],
    report: &mut Watched<R>,
    out: &mut Watched<W>,
) -> Result<Finding, RunFault>
    ensures { OutputGets (WritesFinding (claimed_in (Ok papers.now) (log_in log.now))
        (turn_of R.remaining input.Report report.old report.new)) W.contents out.old out.new result }
{
    let entries = match read_entries(alloc, log) {
        Ok(entries) => entries,
        Err(fault) => return Err(fault),
    };
    let finding = match find(alloc, papers, entries.as_slice(), report) {
        Ok(finding) => finding,
        Err(fault) => return Err(fault),
    };
    match write_finding(alloc, &finding, out) {
        Ok(()) => Ok(finding),
        Err(fault) => Err(fault),
    }
}

/// Audits a log and a report under the papers that the texts hold. The texts are given up once the papers are read.
fn audit_texts<R: Read, W: Write>(
    alloc: Global,
    seed: &Seed,
    texts: OpeningTexts,
    log: &[u8],
    report: &mut Watched<R>,
    out: &mut Watched<W>,
) -> Result<Finding, RunFault>
    ensures { OutputGets (WritesFinding (claimed_in (opening_in seed.now (texts_of texts)) (log_in log.now))
        (turn_of R.remaining input.Report report.old report.new)) W.contents out.old out.new result }
{
    let papers = read_owned(alloc, seed, texts)?;
    audit_papers(alloc, &papers, log, report, out)
}

/// Reads the three files and a log, in the order schools, roster, lists, log, and audits the log under the papers that the
/// files hold, as `audit_files` does; and where the log is settled, compares a report that was published with that of these
/// papers under the log's matching, byte for byte. It writes what is found, as one line, and answers it: `certified`,
/// `report differs LINE`, `bad entry LINE` or `over SCHOOL`. So `certified` is written exactly where the log certifies the
/// student-optimal stable matching of the papers and the report is that of this matching. What was written before a
/// report, as the reply lines of a run, belongs to no report, and differs.
///
/// Nothing is written before the inputs are known to be good. An error is the first fault of the files and the log, each
/// of which is read whole before any is looked into, and then the report is not touched; that an input, the report or the output failed; or
/// want of memory, after which nothing was written. The report is read by pieces and may be of any length, so that the limit
/// of the other inputs is not one of it. No more of it is taken than 60 KiB past the length that it should have, also where
/// reading it fails or memory is refused: the comparison, `first_difference` of `sc_report`, promises that whatever it answers.
pub fn audit_report_files<R: Read, W: Write>(
    alloc: Global,
    seed: &Seed,
    opening: &mut Opening<R>,
    log: &mut Watched<R>,
    report: &mut Watched<R>,
    out: &mut Watched<W>,
) -> Result<Finding, RunFault>
    ensures finding { AuditsReport seed.now
        (turns_with R.remaining opening.old opening.new input.Log log.old log.new)
        (turn_of R.remaining input.Report report.old report.new)
        (W.contents (device_of out.old)) (W.contents (device_of out.new)) result }
    ensures failed { OutputFailsAsTold out.old out.new result }
    ensures limit { All TakesWithin (turns_with R.remaining opening.old opening.new input.Log log.old log.new) }
{
    let texts = match read_inputs(alloc, opening, log, Source::Log) {
        Ok(texts) => texts,
        Err(fault) => return Err(fault),
    };
    audit_texts(
        alloc,
        seed,
        texts.opening,
        texts.last.as_slice(),
        report,
        out,
    )
}
