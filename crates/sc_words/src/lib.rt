//! The words of the command line, read into an order.
//!
//! `clap` is named here alone: code above sees an `Order` or the error that `clap` tells.
#![tactic(auto)]

mod help;
mod order;
mod program;
mod table;
mod word;

pub use order::{FileWords, OpeningWords, Order, Subcommand, order_of};
pub use word::Word;
