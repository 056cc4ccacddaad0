//! The auditor: a second reading of the rules. It takes a log or an assignment from anybody, and answers what the
//! papers alone say of it. With what settles papers it shares the papers and nothing else: their keys, and the look-up
//! of a student's choice at a rank with the key there.
#![tactic(auto)]

mod audit_state;
mod auditor;
mod best_keys;
mod blocks;
mod checker;
mod hints;
pub mod laws;
mod least;
mod membership;
mod stability;
mod tallies;
mod verdict;
mod waiting;

pub use auditor::{AuditedLog, audit, audit_and_place};
pub use checker::check_stable;
pub use stability::Stability;
pub use verdict::Verdict;
