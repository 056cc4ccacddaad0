//! Every fault of the files of an opening and of a script, one after the other and as text, and what these faults have to do with
//! reading the files.
//!
//! The definitions, and the functions that judge one input, stand in `sc_intake`. The laws say that an opening is read
//! exactly where there is no fault, that the first of its faults is the one that reading it ends with, and that no
//! seed changes them.
#![tactic(auto)]

mod checking;
mod choices;
mod columns;
mod fields;
mod files;
mod forms;
pub mod laws;
mod lines;
mod quoting;
mod telling;
mod text;
mod words;

pub use checking::{Faults, every_fault};
pub use files::{FileNames, InputFile, InputFiles};
pub use text::FaultLines;
