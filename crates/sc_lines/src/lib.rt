//! The lines of a journal of accepted amendments, both ways: an amendment has one spelling under a number, and nothing else
//! is read. What that spelling is stands in this crate's `specs/`.
#![tactic(auto)]

pub mod laws;
mod line_no;
mod lines;
mod numbers;
mod reading;
mod unread;

pub use line_no::LineNo;
pub use lines::{line, push_list};
pub use reading::{JournalLine, read_line};
