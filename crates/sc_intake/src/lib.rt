//! Reading the inputs of a school choice in comma-separated values: the files of the schools, the
//! roster and the lists, a script of amendments, and a log of rejections.
//!
//! What an input reads as, and what its first fault is, stands in this crate's `specs/`; the cutting
//! into records is that of the crate `csv`.
#![tactic(auto)]

mod any_order;
mod below;
mod blanks;
mod byte_count;
mod byte_order_mark;
mod fault;
mod field;
mod input;
mod judging;
mod known;
mod line_records;
mod lists;
mod log;
mod papers;
mod plain_records;
mod quoted_records;
mod ranges;
mod records;
mod roster;
mod rows;
mod school_list;
mod schools;
mod script;
mod script_faults;
mod script_records;
mod seen;
mod sheet;
mod text_lines;
mod tidy_rows;
mod together;
mod unquoted;

pub use blanks::{Blanks, trimmed};
pub use fault::{Cause, IntakeFault, Source};
pub use input::MOST_BYTES;
pub use judging::judge_papers;
pub use known::known_schools;
pub use lists::{ListRow, ListRows, read_lists};
pub use log::read_log;
pub use papers::papers_of;
pub use roster::{RosterRow, RosterRows, read_roster};
pub use rows::{Numbered, Rows};
pub use schools::{SchoolRow, SchoolRows, read_schools};
pub use script::read_script;
pub use script_faults::{ScriptFaults, judge_script};
pub use script_records::ScriptRecords;
pub use sheet::{Sheet, judge_lists, judge_roster, judge_schools};
pub use together::{read_flat_papers, read_papers};
