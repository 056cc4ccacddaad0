//! The harness: a call is tried, and tried again where memory was refused.

use crate::comparing::same;
use crate::{calls, libraries};
use sc_intake::{Cause, IntakeFault};
use sc_papers::{SchoolNo, StudentNo};
use sc_runs::Settling;
use std::alloc::{AllocError, Global};
use std::process::Abort;

/// A call that takes memory.
#[derive(Clone, Copy)]
pub enum Call {
    Open,
    Amend,
    Withdraw,
    AmendUnsettled,
    PapersOf,
    ReadScript,
    ReadLog,
    Audit,
    CheckStable,
    ReportText,
    Replay,
    MatchFiles,
    MatchLog,
    Run,
    RunSettledAtTheEnd,
    AuditFiles,
    AuditReportFiles,
    ReplayFiles,
    TableFiles,
    ExportFiles,
    SummaryFiles,
    ExplainFiles,
    ExplainStudent,
    AdmissionsFiles,
    AdmissionsOfSchool,
    ChangesFiles,
    CheckFiles,
    RunBundle,
}

/// Tries a call: a text of what it left, or the error where memory was refused, to it or to the trial. After
/// a refusal the trial has seen that the call left all as it promises.
fn attempt(rt: &impl Abort, alloc: Global, call: Call) -> Result<String, AllocError> {
    match call {
        Call::Open => libraries::opened(rt, alloc),
        Call::Amend => libraries::amended(rt, alloc, libraries::ENTRY),
        Call::Withdraw => libraries::amended(rt, alloc, libraries::WITHDRAWAL),
        Call::AmendUnsettled => libraries::amended_unsettled(rt, alloc),
        Call::PapersOf => libraries::papers_read(rt, alloc),
        Call::ReadScript => libraries::script_read(rt, alloc),
        Call::ReadLog => libraries::log_read(rt, alloc),
        Call::Audit => libraries::audited(rt, alloc),
        Call::CheckStable => libraries::checked(rt, alloc),
        Call::ReportText => libraries::reported(rt, alloc),
        Call::Replay => libraries::replayed(rt, alloc),
        Call::MatchFiles => calls::matched(rt, alloc, false),
        Call::MatchLog => calls::matched(rt, alloc, true),
        Call::Run => calls::ran(rt, alloc, Settling::EachTime),
        Call::RunSettledAtTheEnd => calls::ran(rt, alloc, Settling::AtTheEnd),
        Call::AuditFiles => calls::audited(rt, alloc),
        Call::AuditReportFiles => calls::audited_report(rt, alloc),
        Call::ReplayFiles => calls::replayed(rt, alloc),
        Call::TableFiles => calls::tabulated(rt, alloc),
        Call::ExportFiles => calls::exported(rt, alloc),
        Call::SummaryFiles => calls::summed(rt, alloc),
        Call::ExplainFiles => calls::explained(rt, alloc, None),
        Call::ExplainStudent => calls::explained(rt, alloc, StudentNo::new(2)),
        Call::AdmissionsFiles => calls::admitted(rt, alloc, None),
        Call::AdmissionsOfSchool => calls::admitted(rt, alloc, SchoolNo::new(20)),
        Call::ChangesFiles => calls::changed(rt, alloc),
        Call::CheckFiles => calls::checked(rt, alloc),
        Call::RunBundle => calls::ran_bundle(rt, alloc),
    }
}

/// The call leaves what is wanted: at once, or when it is made again after a refused growth.
pub fn expect(rt: &impl Abort, alloc: Global, call: Call, want: &str) {
    let left = match attempt(rt, alloc, call) {
        Ok(left) => left,
        Err(_refused) => attempt(rt, alloc, call).expect(rt, "memory"),
    };
    same(rt, &left.as_str(), &want);
}

/// What a reader gave; where it gave nothing, the cause is want of memory.
pub fn given<T>(rt: &impl Abort, read: Result<T, IntakeFault>) -> Result<T, AllocError> {
    match read {
        Ok(given) => Ok(given),
        Err(fault) => {
            same(rt, &fault.cause, &Cause::OutOfMemory);
            Err(AllocError)
        }
    }
}
