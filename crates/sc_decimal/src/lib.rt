//! What a line is made of: fields between commas, and numbers as decimal digits, both ways.
#![tactic(auto)]

mod fields;
mod reading;
mod writing;

pub use fields::Fields;
pub use reading::{number_at_front, read_number, read_plain_number};
pub use writing::push_number;
