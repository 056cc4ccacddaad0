ghost use Rattle.std.specs.Prelude.{◌≡◌, ◌||◌, Err, length};
ghost use Rattle.std.specs.Io.KnownBytes.{Keeps};
ghost use Rattle.sc_papers.specs.Matching.{Matching};
ghost use Rattle.sc_repair.specs.Standing.{matching_of};
ghost use Rattle.sc_report.specs.Report.{WritesReport, is_write_fault};
ghost use Rattle.sc_report.specs.Watched.{device_of, has_failed};
ghost use Rattle.sc_report.specs.declared.report.ReportFault.TheVariants as fault;
ghost use Rattle.sc_tallies.specs.Places.{ArePlaces};
ghost use Rattle.sc_tallies.specs.Tally.{AreTallies, IsForEachSchool};

use crate::matched::Matched;
use crate::pages::write_pages;
use crate::text::report_pages;
use crate::watched::{DeviceFailed, Watched};
use sc_papers::FlatPapers;
use sc_repair::Clearing;
use sc_tallies::places_of;
use std::alloc::{AllocError, Global};
use std::io::Write;
use thiserror::Error;

/// Why a report was not written whole.
#[derive(Clone, Copy, Debug, PartialEq, Eq, Error)]
pub enum ReportFault {
    /// The writer failed; a prefix of the report was written.
    #[error("the report could not be written")]
    Write,
    /// A growth was refused; nothing was written.
    #[error("out of memory")]
    OutOfMemory,
}

impl From<DeviceFailed> for ReportFault {
    ghost from_gives = { λ _ r. r ≡ fault.Write };

    fn from(_failed: DeviceFailed) -> ReportFault {
        ReportFault::Write
    }
}

impl From<AllocError> for ReportFault {
    ghost from_gives = { λ _ r. r ≡ fault.OutOfMemory };

    fn from(_refused: AllocError) -> ReportFault {
        ReportFault::OutOfMemory
    }
}

/// Writes the report text of papers, of the school that each student has, of which there is one for each student in order of
/// entry, `None` where they have none, and of the tallies of the schools by these.
///
/// The text is built first: after `OutOfMemory` nothing was written, whatever the places and the tallies are of, and after
/// `Write` a prefix of it was.
pub fn write_report_of<W: Write>(
    alloc: Global,
    matched: Matched<'_>,
    to: &mut Watched<W>,
) -> Result<(), ReportFault>
    requires places { length matched.places.items ≡ length matched.papers.now.students }
    requires tallies { IsForEachSchool matched.papers.now matched.tallies.items }
    ensures bytes { (a : Matching) → ArePlaces matched.entry.papers.now a matched.entry.places.items
        → AreTallies matched.entry.papers.now a matched.entry.tallies.items
        → WritesReport matched.entry.papers.now a
        (W.contents (device_of to.old)) (W.contents (device_of to.new)) result }
    ensures unwritten { result ≡ Err fault.OutOfMemory
        → Keeps (W.contents (device_of to.old)) (W.contents (device_of to.new)) }
    ensures failed { has_failed to.new ≡ (has_failed to.old || is_write_fault result) }
{
    let pages = report_pages(alloc, matched)?.finish()?;
    write_pages(to, pages.as_slice())?;
    Ok(())
}

/// Writes the report text of the standing assignment, as `write_report_of` does.
pub fn write_report<W: Write>(
    alloc: Global,
    clearing: &Clearing,
    to: &mut Watched<W>,
) -> Result<(), ReportFault>
    ensures bytes { WritesReport clearing.now.standing.papers (matching_of clearing.now.standing)
        (W.contents (device_of to.old)) (W.contents (device_of to.new)) result }
    ensures failed { has_failed to.new ≡ (has_failed to.old || is_write_fault result) }
{
    let papers: &FlatPapers = clearing.papers();
    let places = places_of(alloc, papers, clearing.places())?;
    let matched = Matched::counted(alloc, papers, places)?;
    write_report_of(alloc, matched, to)
}
