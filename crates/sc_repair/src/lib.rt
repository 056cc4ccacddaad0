//! The standing assignment: who has which school under the papers as they stand, kept so by every
//! amendment.
#![tactic(auto)]

mod clearing;
mod districts;
mod entering;
mod entry_order;
pub mod laws;
mod ledgers;
mod open_refused;
mod opening;
mod pair_hints;
mod places;
mod region_positions;
mod replacing;
mod resettling;
mod rewind;
mod settlement;
mod stamping;
mod turns;
mod unsettled;

pub use clearing::Clearing;
pub use open_refused::OpenRefused;
pub use rewind::rewind_point;
pub use sc_region::{RegionList, region};
pub use unsettled::Unsettled;
