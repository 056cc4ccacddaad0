//! The papers of a school choice: schools with their seats, students with their ranked lists, and
//! the rules by which they are amended.
//!
//! A contract sees the papers as a `Market`: the seed, and the schools and the students in order of
//! entry. Every definition about papers, matchings and logs stands in this crate's `specs/`.
#![tactic(auto)]

mod amendment;
mod apply;
mod assignment;
mod check;
mod classed_choice;
mod count;
mod flat_papers;
mod key;
mod known;
pub mod laws;
mod limits;
mod ordered;
mod papers;
mod placed_choices;
mod position_list;
mod proposal;
mod record_slots;
mod recording;
mod records;
mod rejection;
mod reversing;
mod row_reads;
mod school_list;
mod school_no;
mod school_positions;
mod school_refusal;
mod seats;
mod seeded_hash;
mod stamp;
mod student_row;
mod zone;

pub use amendment::{Amendment, Refusal, Stamped};
pub use assignment::Assignment;
pub use classed_choice::ClassedChoice;
pub use count::Count;
pub use flat_papers::FlatPapers;
pub use key::Key;
pub use limits::{LONGEST_LIST, MOST_SCHOOLS, MOST_STUDENTS};
pub use papers::Papers;
pub use placed_choices::{ChosenPositions, PlacedChoices};
pub use proposal::Proposal;
pub use records::{School, Student};
pub use rejection::Rejection;
pub use sc_lottery::{Seed, StudentNumber as StudentNo};
pub use school_list::SchoolList;
pub use school_no::SchoolNo;
pub use school_refusal::SchoolRefusal;
pub use seats::Seats;
pub use stamp::Stamp;
pub use zone::Zone;
