//! The lottery: one seeded draw for each student, the same at every school.
//!
//! A draw depends on the seed and the student's number alone, so it never changes while papers are
//! amended.
#![tactic(auto)]

mod draws;
mod number;
mod seed;

pub use draws::{Draws, draw};
pub use number::StudentNumber;
pub use seed::{Seed, SeedError};
