//! The steps that the calls of `sc_runs` are made of: reading inputs whole, opening papers from them, settling and
//! writing, and answering the records of a script; and the first of those calls, from three files to an assignment.
//!
//! They stand in a crate of their own because the named wrong bodies are tried on them: a crate with such edits is proved
//! twice, and each edit reads it anew.
#![tactic(auto)]

mod amendable;
mod fault;
mod inputs;
mod matching;
mod opening;
mod recorder;
mod script;
mod settled;
mod writing;

pub use amendable::Amendable;
pub use fault::RunFault;
pub use inputs::{
    InputTexts, Opening, OpeningSlices, OpeningTexts, read_input, read_inputs, read_opening_and,
};
pub use matching::match_files;
pub use opening::{read_flat, read_kept, read_owned, read_papers};
pub use recorder::{Recorder, Unkept};
pub use script::Session;
pub use settled::report_papers;
pub use writing::{flush_output, write_line, write_standing_report, write_text};
