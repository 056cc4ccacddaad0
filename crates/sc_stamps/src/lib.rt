//! Stamps, by which a desk that amends a record shows which amendment of it the desk has seen last: so
//! nobody overwrites what they have not seen.
//!
//! A contract sees papers and their stamps as `StampedPapers`; the definitions stand in `specs/`.
#![tactic(auto)]

pub mod laws;
mod marking;
mod record;
mod stamps;

pub use marking::{Marking, marking_of};
pub use record::{Record, record_of};
pub use stamps::Stamps;
