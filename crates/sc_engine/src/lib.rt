//! Deferred acceptance: students propose, schools keep the best applicants so far up to their seats,
//! and whoever is put out proposes to the next choice (Gale and Shapley 1962), one student at a time
//! (McVitie and Wilson 1971).
#![tactic(auto)]

mod applicants;
pub mod laws;
mod rank_table;
mod round;
mod settled;

pub use round::Round;
pub use settled::{Settled, SettledPlaces, settle, settle_places};
