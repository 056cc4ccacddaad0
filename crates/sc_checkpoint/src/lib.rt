//! Checkpoints: the log of rejections in segments, one for each student in order of entry, so that a
//! settling can go on from any position of the order.
#![tactic(auto)]

mod next_choices;
mod rank_set;
mod segments;
mod span;
mod standing;

pub use segments::Segments;
pub use span::Spans;
pub use standing::Standing;
