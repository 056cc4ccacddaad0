//! Rolls of held seats: who holds the seats of one school.
//!
//! Code above knows the trait `Roll` alone. `SortedRoll` is the plain program; `HeapRoll` is the quicker
//! one, and settling uses it.
#![tactic(auto)]

mod heap;
mod held;
mod held_key;
mod key_heap;
mod key_list;
mod roll;
mod sorted;

pub use heap::HeapRoll;
pub use held_key::HeldKey;
pub use roll::Roll;
pub use sorted::SortedRoll;
