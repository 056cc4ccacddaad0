//! From papers to what is written of their assignment.

ghost use Rattle.sc_steps.specs.Opening.{IsCertificate, IsReport, WritesText};
ghost use Rattle.sc_steps.specs.Steps.{OutputGets};

use crate::fault::RunFault;
use crate::writing::{flush_output, write_log};
use sc_engine::{SettledPlaces, settle, settle_places};
use sc_papers::FlatPapers;
use sc_report::{Matched, ReportFault, Watched, write_report_of};
use std::alloc::Global;
use std::io::Write;

/// Settles papers, for a caller that has no amendment to make, writes their report, and flushes it. An error says that the
/// output failed, and then a prefix of the report was written; or it is want of memory, and then nothing was. A report
/// looks at no log, and costs less where those who are ahead at their first choices enter first.
pub fn report_papers<W: Write>(
    alloc: Global,
    papers: &FlatPapers,
    out: &mut Watched<W>,
) -> Result<(), RunFault>
    ensures { OutputGets (WritesText (IsReport papers.now)) W.contents out.old out.new result }
{
    let SettledPlaces { places, tallies } = match settle_places(alloc, papers) {
        Ok(settled) => settled,
        Err(_) => return Err(RunFault::OutOfMemory),
    };
    let matched = Matched {
        papers,
        places,
        tallies,
    };
    match write_report_of(alloc, matched, out) {
        Ok(()) => flush_output(out),
        Err(ReportFault::Write) => Err(RunFault::WriteOut),
        Err(ReportFault::OutOfMemory) => Err(RunFault::OutOfMemory),
    }
}

/// Settles papers, writes the log of rejections that certifies their assignment, and flushes it. The log is that of the
/// order of entry.
pub fn log_papers<W: Write>(
    alloc: Global,
    papers: &FlatPapers,
    out: &mut Watched<W>,
) -> Result<(), RunFault>
    ensures { OutputGets (WritesText (IsCertificate papers.now)) W.contents out.old out.new result }
{
    match settle(alloc, papers) {
        Ok(settled) => write_log(alloc, settled.log.as_slice(), out),
        Err(_) => Err(RunFault::OutOfMemory),
    }
}
