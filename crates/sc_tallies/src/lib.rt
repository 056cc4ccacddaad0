//! What each student has, and tallies of that: how many students have each school, and the last key among them, counted
//! in one pass over the students.
#![tactic(auto)]

mod places;
mod tally;

pub use places::places_of;
pub use tally::{Tally, tallies};
