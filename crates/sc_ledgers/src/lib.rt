//! Ledgers: who ever stood at a school, and since which turn. By them an amendment takes anew only those turns that can differ, and a
//! newcomer's chain runs.
#![tactic(auto)]

mod anew;
mod chain;
mod elsewhere;
mod ends;
mod entering;
mod following;
mod leaving;
mod ledger;
mod marks;
mod noting;
mod opened;
mod passage;
mod patience;
mod proposals;
mod renewal;
mod striking;
mod sweep;

pub use anew::{Outcome, take_anew};
pub use elsewhere::{Stance, Stances};
pub use ends::Ends;
pub use entering::enter_last;
pub use following::Rows;
pub use leaving::leave;
pub use ledger::Ledger;
pub use opened::{Ledgers, open_ledgers};
pub use proposals::{proposals_at, proposals_of};
pub use renewal::Renewal;
pub use striking::strike_student;
