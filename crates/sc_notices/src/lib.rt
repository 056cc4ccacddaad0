//! What is told of a standing assignment beside its report: the summary that a district publishes, what came of
//! each choice of a student, the class list and the waiting list of each school, and whose place amendments changed.
#![tactic(auto)]

mod admissions;
mod candidates;
mod changes;
mod explanation;
mod fields;
mod key_lists;
pub mod laws;
mod listings;
mod lottery;
mod outcome;
mod parts;
mod ranks;
mod status;
mod summary;

pub use admissions::{Admissions, admission_parts, admissions_of};
pub use changes::{Changes, change_parts, standing_places};
pub use explanation::{Explanations, explanation_of, explanation_parts};
pub use outcome::Outcome;
pub use parts::TextParts;
pub use status::Status;
pub use summary::summary_text;
