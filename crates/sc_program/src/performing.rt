//! The program, over any files and streams.
use crate::calls::dispatch;
use crate::checks::check;
use crate::counted::Counted;
use crate::messages::{
    NOT_UTF_8, status_of_words, write_clap_message, write_ending, write_help, write_message,
};
use sc_papers::Seed;
use sc_report::Watched;
use sc_runs::{Ending, RunFault, run_bundle, status_of};
use sc_words::{OpeningWords, Order, Subcommand, Word, order_of};
use std::alloc::Global;
use std::io;
use std::io::{Read, Write};
use std::random::RandomSource;
use std::rt::Files;

/// A block whose release teaches the C library's allocator to keep what is let go: a page less than the greatest that does.
const GREATEST_KEPT: usize = (32 << 20) - 8192;

/// Has the memory that is let go serve again, rather than go back to the system page by page: a block of this size is taken
/// and let go, unused. Where it is refused, nothing is lost.
fn keep_memory(alloc: Global) {
    if let Ok(block) = Vec::<u8>::with_capacity(alloc, GREATEST_KEPT) {
        drop(block);
    }
}

/// Does what a subcommand asks for. The seed is read before a file is opened.
fn perform_subcommand<R: Files + AllocGlobal, W: Write>(
    rt: &R,
    opening: &OpeningWords<'_>,
    subcommand: &Subcommand<'_>,
    out: &mut Watched<W>,
) -> Ending {
    let seed = match Seed::from_hex(opening.seed.as_bytes()) {
        Ok(seed) => seed,
        Err(error) => return Ending::BadSeed(error),
    };
    keep_memory(rt.alloc());
    match dispatch(rt, &seed, opening, subcommand, out) {
        Ok(ending) => ending,
        Err(fault) => Ending::Fault(fault),
    }
}

/// Does what an order asks for.
fn perform_order<R: Files + AllocGlobal + RandomSource, I: Read + Drop, W: Write>(
    rt: &R,
    order: &Order<'_>,
    input: I,
    out: &mut Watched<W>,
) -> Ending {
    match order {
        Order::Bundle => {
            keep_memory(rt.alloc());
            run_bundle(rt.alloc(), &mut Watched::new(input), out)
        }
        Order::Check { files, script } => match check(rt, files, *script, out) {
            Ok(ending) => ending,
            Err(fault) => Ending::Fault(fault),
        },
        Order::Opening {
            opening,
            subcommand,
        } => perform_subcommand(rt, opening, subcommand, out),
    }
}

/// Whether an order is to settle papers after each amendment, so that its replies may be long in coming.
fn settles_each(order: &Order<'_>) -> bool {
    match order {
        Order::Opening {
            subcommand: Subcommand::Run { settle_each, .. },
            ..
        } => *settle_each,
        _ => false,
    }
}

/// Does what an order asks for, and counts its replies on a terminal, if there is one and they may be long in coming.
fn perform_shown<
    R: Files + AllocGlobal + RandomSource,
    I: Read + Drop,
    O: Write + Drop,
    T: Write + Drop,
>(rt: &R, order: &Order<'_>, input: I, output: O, terminal: Option<T>) -> Ending {
    let terminal = if settles_each(order) { terminal } else { None };
    let mut counted = Counted::new(rt.alloc(), output, terminal);
    let ending = perform_order(rt, order, input, &mut Watched::new(&mut counted));
    counted.end();
    ending
}

/// Does what the words after the program's name order, over these files and streams: the reply lines
/// and the report go to the output, the line of a fault to the errors, and to the terminal, if there is one, how many
/// records of a script are answered while one is settled after each. It answers the exit status.
pub fn perform<
    R: Files + AllocGlobal + RandomSource,
    I: Read + Drop,
    O: Write + Drop,
    E: Write + Drop,
    T: Write + Drop,
>(rt: &R, words: &[Word], input: I, output: O, errors: E, terminal: Option<T>) -> u8 {
    let mut errors = Watched::new(errors);
    match order_of(rt.alloc(), words) {
        Ok(order) => {
            let ending = perform_shown(rt, &order, input, output, terminal);
            write_ending(rt.alloc(), &ending, &mut errors);
            status_of(&ending)
        }
        Err(error) if error.use_stderr() => {
            write_clap_message(rt.alloc(), &error, &mut errors);
            status_of_words(&error)
        }
        Err(help) => {
            let ending = write_help(rt.alloc(), &help, &mut Watched::new(output));
            write_ending(rt.alloc(), &ending, &mut errors);
            status_of(&ending)
        }
    }
}

/// Ends the program where its words could not be read: writes the line that tells why to the errors, and
/// answers the exit status, 5 for want of memory and 2 for a word that is not UTF-8.
pub fn end_without_words<E: Write + Drop>(alloc: Global, error: &io::Error, errors: E) -> u8 {
    let mut errors = Watched::new(errors);
    if error.kind() == io::ErrorKind::OutOfMemory {
        let ending = Ending::Fault(RunFault::OutOfMemory);
        write_ending(alloc, &ending, &mut errors);
        return status_of(&ending);
    }
    write_message(NOT_UTF_8, &mut errors);
    2
}
