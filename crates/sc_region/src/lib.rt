//! The region of an amendment: the students whom it may concern.
#![tactic(auto)]

mod candidates;
mod districts;
mod first;
mod grouping;
mod marks;
mod members;
mod reach;
mod region_list;
mod school_groups;

pub use districts::Districts;
pub use marks::RegionPositions;
pub use reach::region;
pub use region_list::RegionList;
