//! From three files to an assignment.

ghost use Rattle.std.specs.Prelude.{◌≡◌, All, IfOk, Ok};
ghost use Rattle.sc_report.specs.Watched.{device_of};
ghost use Rattle.sc_steps.specs.Failing.{OutputFailsAsTold};
ghost use Rattle.sc_steps.specs.Inputs.{opening_turns, TakesWithin};
ghost use Rattle.sc_steps.specs.Opening.{opening_in, ArePapersOf, MatchesFiles, WritesMatch};
ghost use Rattle.sc_steps.specs.Steps.{texts_of, OutputGets};

use crate::fault::RunFault;
use crate::inputs::{Opening, OpeningTexts, read_opening};
use crate::opening::read_owned;
use crate::settled::{log_papers, report_papers};
use sc_papers::{FlatPapers, Seed};
use sc_report::Watched;
use std::alloc::Global;
use std::io::{Read, Write};

/// Settles papers and writes their report, or their log, and flushes it.
fn match_papers<W: Write>(
    alloc: Global,
    papers: &FlatPapers,
    show_log: bool,
    out: &mut Watched<W>,
) -> Result<(), RunFault>
    ensures { OutputGets (WritesMatch show_log (Ok papers.now)) W.contents out.old out.new result }
{
    if show_log {
        log_papers(alloc, papers, out)
    } else {
        report_papers(alloc, papers, out)
    }
}

/// Writes the report of the papers that the texts hold, or their log, flushes it, and answers the papers. The texts are
/// given up once the papers are read, so that their memory serves the settling.
fn match_texts<W: Write>(
    alloc: Global,
    seed: &Seed,
    texts: OpeningTexts,
    show_log: bool,
    out: &mut Watched<W>,
) -> Result<FlatPapers, RunFault>
    ensures bytes { OutputGets (WritesMatch show_log (opening_in seed.now (texts_of texts)))
        W.contents out.old out.new result }
    ensures papers { IfOk result (λ papers. opening_in seed.now (texts_of texts) ≡ Ok papers) }
{
    let papers = read_owned(alloc, seed, texts)?;
    match_papers(alloc, &papers, show_log, out)?;
    Ok(papers)
}

/// Reads the three files, in the order schools, roster, lists, and writes the report of their papers, or
/// with `show_log` the log of rejections that certifies the assignment of the report. It answers the papers, without a
/// record of each student, for a caller that goes on with them.
///
/// Nothing is written before the files are known to be good. An error is the first fault of the
/// files, each of which is read whole before any is looked into; that a file or the output failed; or
/// want of memory, after which nothing was written. After a fault of the output a prefix of the text was.
/// Where reading a file ends early, those after it are not touched; of none more than one byte past
/// 64 MiB is taken.
pub fn match_files<R: Read, W: Write>(
    alloc: Global,
    seed: &Seed,
    opening: &mut Opening<R>,
    show_log: bool,
    out: &mut Watched<W>,
) -> Result<FlatPapers, RunFault>
    ensures bytes { MatchesFiles seed.now show_log (opening_turns R.remaining opening.old opening.new)
        (W.contents (device_of out.old)) (W.contents (device_of out.new)) result }
    ensures papers { IfOk result (λ papers.
        ArePapersOf seed.now (opening_turns R.remaining opening.old opening.new) papers) }
    ensures failed { OutputFailsAsTold out.old out.new result }
    ensures limit { All TakesWithin (opening_turns R.remaining opening.old opening.new) }
{
    let texts = match read_opening(alloc, opening) {
        Ok(texts) => texts,
        Err(fault) => return Err(fault),
    };
    match_texts(alloc, seed, texts, show_log, out)
}
