//! Writing to the output: a line, a text, a report and a log.

ghost use Rattle.std.specs.Prelude.{◌≡◌, IfErr};
ghost use Rattle.std.specs.Io.KnownBytes.{Keeps};
ghost use Rattle.sc_repair.specs.Standing.{matching_of};
ghost use Rattle.sc_report.specs.LogText.{log_text};
ghost use Rattle.sc_report.specs.Text.{IsReportText};
ghost use Rattle.sc_report.specs.Watched.{device_of};
ghost use Rattle.sc_steps.specs.Failing.{OutputFailsAsTold};
ghost use Rattle.sc_steps.specs.Opening.{WritesText};
ghost use Rattle.sc_steps.specs.Steps.{OutputGets, WritesExactly};
ghost use Rattle.sc_steps.specs.declared.fault.RunFault.TheVariants.{WriteOut};

use crate::fault::RunFault;
use sc_papers::Rejection;
use sc_repair::Clearing;
use sc_report::{ReportFault, Watched, log_text, write_report, write_whole};
use std::alloc::Global;
use std::io::Write;

/// Writes a line, or any text, and does not flush it. The only error is that the output failed, and then a prefix of the
/// text was written. It takes no memory.
pub fn write_line<W: Write>(line: &[u8], out: &mut Watched<W>) -> Result<(), RunFault>
    ensures { OutputGets (WritesExactly line.now) W.contents out.old out.new result }
{
    match write_whole(out, line) {
        Ok(()) => Ok(()),
        Err(_) => Err(RunFault::WriteOut),
    }
}

/// Flushes the output. The only error is that the output failed. It takes no memory.
pub fn flush_output<W: Write>(out: &mut Watched<W>) -> Result<(), RunFault>
    ensures bytes { Keeps (W.contents (device_of out.old)) (W.contents (device_of out.new)) }
    ensures kinds { IfErr result (λ fault. fault ≡ WriteOut) }
    ensures failed { OutputFailsAsTold out.old out.new result }
{
    match out.flush() {
        Ok(()) => Ok(()),
        Err(_) => Err(RunFault::WriteOut),
    }
}

/// Writes a text, and flushes it. The only error is that the output failed, and then a prefix of the text was written; it
/// may be the whole. It takes no memory.
pub fn write_text<W: Write>(text: &[u8], out: &mut Watched<W>) -> Result<(), RunFault>
    ensures { OutputGets (WritesExactly text.now) W.contents out.old out.new result }
{
    if let Err(fault) = write_line(text, out) {
        return Err(fault);
    }
    flush_output(out)
}

/// Writes the report of the standing assignment of a clearing, and does not flush it. An error says that the output failed,
/// and then a prefix of the report was written; or it is want of memory, and then nothing was. The text is built whole
/// before it is written.
pub fn write_standing_report<W: Write>(
    alloc: Global,
    clearing: &Clearing,
    out: &mut Watched<W>,
) -> Result<(), RunFault>
    ensures { OutputGets (WritesText (IsReportText clearing.now.standing.papers (matching_of clearing.now.standing)))
        W.contents out.old out.new result }
{
    match write_report(alloc, clearing, out) {
        Ok(()) => Ok(()),
        Err(ReportFault::Write) => Err(RunFault::WriteOut),
        Err(ReportFault::OutOfMemory) => Err(RunFault::OutOfMemory),
    }
}

/// Writes a log of rejections, and flushes it.
pub fn write_log<W: Write>(
    alloc: Global,
    log: &[Rejection],
    out: &mut Watched<W>,
) -> Result<(), RunFault>
    ensures { OutputGets (WritesText (λ text. text ≡ log_text log.now)) W.contents out.old out.new result }
{
    match log_text(alloc, log) {
        Ok(text) => write_text(text.as_slice(), out),
        Err(_) => Err(RunFault::OutOfMemory),
    }
}
