//! The program: reads a school choice, answers its amendments, and writes the places.
//!
//! `main` hands its words and streams to `perform`, which is generic over them, and ends with the
//! status that it answers.
#![tactic(auto)]

use sc_program::{end_without_words, perform};
use sc_words::Word;
use std::io::IsTerminal;
use std::process::ExitCode;
use std::{env, io};

/// The words after the program's name.
fn words(rt: &HostRuntime) -> io::Result<Vec<Word>> {
    let words = env::args(rt)?.skip(1).map(Word::from_text);
    Ok(words.collect(rt.alloc())?)
}

/// The terminal on which a long run may show how far it is: that of the errors, where the output goes elsewhere.
fn terminal(rt: &HostRuntime) -> Option<io::Stderr> {
    if rt.stderr().is_terminal() && !rt.stdout().is_terminal() {
        Some(rt.stderr())
    } else {
        None
    }
}

fn main(rt: HostRuntime) -> ExitCode {
    let errors = rt.stderr();
    let terminal = terminal(&rt);
    let status = match words(&rt) {
        Ok(words) => perform(
            &rt,
            words.as_slice(),
            rt.stdin(),
            rt.stdout(),
            errors,
            terminal,
        ),
        Err(error) => end_without_words(rt.alloc(), &error, errors),
    };
    ExitCode::from(status)
}
