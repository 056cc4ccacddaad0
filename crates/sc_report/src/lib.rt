//! What people read: the assignment as text, and the devices at the program's edge, readers and
//! writers whose failure is remembered, read and written whole.
#![tactic(auto)]

mod comparing;
mod cutoff_lines;
pub mod devices;
mod endings;
pub mod laws;
mod lines;
mod log;
mod matched;
mod pages;
mod piece;
mod reason_lines;
mod reply;
mod report;
mod standing_rows;
mod student_texts;
mod table;
mod text;
mod watched;
mod whole;

pub use comparing::first_difference;
pub use cutoff_lines::{cutoff_text, push_cutoff};
pub use lines::push_draw;
pub use log::log_text;
pub use matched::Matched;
pub use reason_lines::{push_reason, reason_text};
pub use reply::reply_line;
pub use report::{ReportFault, write_report, write_report_of};
pub use sc_reasons::{
    Cutoff, CutoffRow, Entrant, Reason, ReasonRow, entrant_at, reason_by, rising_entrants,
    rows_in_order,
};
pub use standing_rows::{cutoffs, reasons};
pub use table::{Table, table_named, table_text};
pub use text::{assignment_text, report_text, report_text_of};
pub use watched::{DeviceFailed, Watched};
pub use whole::{ReadFault, read_whole, write_whole};
