//! What the program does, over any readers and writers: it opens the papers that the inputs hold,
//! answers the amendments of a script, and writes the texts. Each call is made of the steps of `sc_steps`, reads its
//! inputs whole before it writes, and adds no rule of its own.
#![tactic(auto)]

mod admitting;
mod auditing;
mod bundle;
mod bundle_run;
mod changing;
mod checking;
mod ending;
mod explaining;
mod exporting;
pub mod laws;
mod markers;
mod notices;
mod pieces;
mod publishing;
mod replaying;
mod running;
mod standing;
mod telling;

pub use admitting::{Listed, admissions_files, read_school};
pub use auditing::{Audited, audit_files};
pub use bundle::{Bundle, split_bundle};
pub use bundle_run::run_bundle;
pub use changing::{Changed, changes_files, read_since};
pub use checking::{Checked, check_files};
pub use ending::{Ending, PapersFile, fault_line, status_of};
pub use explaining::{Explained, explain_files, read_student};
pub use exporting::{Exported, export_files};
pub use publishing::{Finding, audit_report_files};
pub use replaying::{Replayed, replay_files};
pub use running::{Inputs, Settling, run};
pub use sc_audit::Verdict;
pub use sc_checks::FileNames;
pub use sc_export::PapersFiles;
pub use sc_journal::{JournalCause, JournalFault, Tail};
pub use sc_report::{Table, table_named};
pub use sc_steps::{Opening, RunFault, match_files};
pub use telling::{summary_files, table_files};
