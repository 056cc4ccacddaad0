//! The program, over any files and streams: does what the words of a command line order, and tells its faults.
#![tactic(auto)]

mod calls;
mod checks;
mod counted;
mod exports;
mod inputs;
mod journal;
mod messages;
mod performing;

pub use exports::{Place, fill_made};
pub use journal::empty_journal;
pub use performing::{end_without_words, perform};
