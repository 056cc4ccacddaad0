//! Inputs, and by hand from the format what each reads as.
mod limits;
mod papers;
mod rows;
mod script;

use crate::comparing::expect_text;
use sc_intake::{IntakeFault, read_lists, read_log, read_roster, read_schools, read_script};
use sc_papers::{Refusal, Stamped};
use std::alloc::{AllocError, Global};
use std::process::Abort;

/// What is shown of an input that has no fault.
#[derive(Clone, Copy)]
enum View {
    /// How many schools it has.
    Schools,
    /// How many students are on the roster.
    Roster,
    /// How many lists it has.
    Lists,
    /// How many rejections it has.
    Log,
    /// Of a script a `+` for each record that is an amendment, and a `-` for each that is none.
    Signs,
    /// Of a script its first record, in the words of the types.
    First,
}

/// How many rows an input has, as a text.
fn counted(alloc: Global, count: Result<usize, IntakeFault>) -> Result<String, AllocError> {
    match count {
        Ok(count) => format!(in alloc; "{count} rows"),
        Err(fault) => format!(in alloc; "{fault}"),
    }
}

/// The signs of a script, or the line of its fault.
fn signs(
    alloc: Global,
    script: Result<Vec<Result<Stamped, Refusal>>, IntakeFault>,
) -> Result<String, AllocError> {
    match script {
        Ok(script) => signs_of(alloc, script.as_slice()),
        Err(fault) => format!(in alloc; "{fault}"),
    }
}

fn signs_of(alloc: Global, script: &[Result<Stamped, Refusal>]) -> Result<String, AllocError> {
    let mut signs = String::new(alloc);
    for found in script {
        signs.push(if found.is_ok() { '+' } else { '-' })?;
    }
    Ok(signs)
}

/// The first record of a script, or the line of its fault.
fn first(
    alloc: Global,
    script: Result<Vec<Result<Stamped, Refusal>>, IntakeFault>,
) -> Result<String, AllocError> {
    match script {
        Ok(script) => format!(in alloc; "{:?}", script.first()),
        Err(fault) => format!(in alloc; "{fault}"),
    }
}

/// What an input shows, or the line of its fault.
fn told(alloc: Global, view: View, text: &[u8]) -> Result<String, AllocError> {
    match view {
        View::Schools => counted(alloc, read_schools(alloc, text).map(|rows| rows.len())),
        View::Roster => counted(alloc, read_roster(alloc, text).map(|rows| rows.len())),
        View::Lists => counted(alloc, read_lists(alloc, text).map(|rows| rows.len())),
        View::Log => counted(alloc, read_log(alloc, text).map(|log| log.len())),
        View::Signs => signs(alloc, read_script(alloc, text)),
        View::First => first(alloc, read_script(alloc, text)),
    }
}

/// A text shows what is wanted.
fn expect_told(rt: &impl Abort, alloc: Global, view: View, text: &str, want: &str) {
    expect_text(rt, told(alloc, view, text.as_bytes()), want, text);
}

/// Each text below the header shows what is wanted.
fn expect(rt: &impl Abort, alloc: Global, view: View, header: &str, table: &[(&str, &str)]) {
    for (rows, want) in table {
        let text = format!(in alloc; "{header}{rows}").expect(rt, "memory");
        expect_told(rt, alloc, view, text.as_str(), want);
    }
}
