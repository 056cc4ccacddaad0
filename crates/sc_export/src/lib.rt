//! Papers written as the files of an opening, and the law that reading these gives the papers again.
//!
//! After a season of amendments the papers that stand are in no file: the opening's files hold those of
//! the first day, and the journal what was changed. What this crate writes holds them as they stand.
#![tactic(auto)]

mod entries;
mod files;
pub mod laws;
mod lists;
mod roster;
mod schools;

pub use files::{PapersFiles, export};
