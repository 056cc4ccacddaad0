//! What is told beside the output, and the exit status of words that order nothing.
use clap::Error;
use clap::error::ErrorKind;
use sc_report::{DeviceFailed, Watched, write_whole};
use sc_runs::{Ending, RunFault, fault_line};
use std::alloc::Global;
use std::io::Write;

/// The line for a word of the command line that is not UTF-8.
pub const NOT_UTF_8: &[u8] = b"clearinghouse: a word of the command line is not UTF-8\n";

/// Writes a text whole, and flushes it.
pub fn fill<W: Write>(to: &mut Watched<W>, text: &[u8]) -> Result<(), DeviceFailed> {
    write_whole(to, text)?;
    to.flush()
}

/// Writes the ending's line. Where there is no memory for it, nothing more can be told, and the status
/// stays.
pub fn write_ending<W: Write>(alloc: Global, ending: &Ending, to: &mut Watched<W>) {
    if let Ok(line) = fault_line(alloc, ending) {
        write_message(line.as_slice(), to);
    }
}

/// Writes what `clap` says is wrong with the words.
pub fn write_clap_message<W: Write>(alloc: Global, error: &Error, to: &mut Watched<W>) {
    if let Ok(text) = format!(in alloc; "{error}") {
        write_message(text.as_bytes(), to);
    }
}

/// Writes help or the version, which was asked for, and flushes it.
pub fn write_help<W: Write>(alloc: Global, help: &Error, out: &mut Watched<W>) -> Ending {
    let Ok(text) = format!(in alloc; "{help}") else {
        return Ending::Fault(RunFault::OutOfMemory);
    };
    match fill(out, text.as_bytes()) {
        Ok(()) => Ending::Done,
        Err(_) => Ending::Fault(RunFault::WriteOut),
    }
}

/// Writes a message and flushes it. Where the stream fails, nothing more can be told.
pub fn write_message<W: Write>(message: &[u8], to: &mut Watched<W>) {
    let _ = write_whole(to, message);
    let _ = to.flush();
}

/// The exit status of words that order nothing and ask for no help: 5 for want of memory, and else 2.
pub fn status_of_words(error: &Error) -> u8 {
    match error.kind() {
        ErrorKind::OutOfMemory => 5,
        _ => 2,
    }
}
