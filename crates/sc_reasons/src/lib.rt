//! The cutoffs of the schools, the students by rising number, and why a student does not have a choice that they prefer to
//! what they have: rows made of papers and of what each student has, of which no text is made here.
#![tactic(auto)]

mod cutoff;
mod entrants;
mod reason;

pub use cutoff::{Cutoff, CutoffRow, rising_rows, rows_by_tallies, rows_in_order};
pub use entrants::{Entrant, entrant_at, rising_entrants};
pub use reason::{Reason, ReasonRow, missed, reason_by, reason_rows};
