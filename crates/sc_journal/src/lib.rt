//! The journal of accepted amendments: its text, its replay over the papers that it was kept for, and what can be wrong with
//! it. Its lines are those of `sc_lines`.
//!
//! The journal's text and what a replay comes to stand in this crate's `specs/`.
#![tactic(auto)]

mod fault;
mod journal;
pub mod laws;

pub use fault::{JournalCause, JournalFault};
pub use journal::{Tail, replay, replay_papers};
pub use sc_lines::{JournalLine, LineNo, line, push_list, read_line};
