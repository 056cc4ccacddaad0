//! The calls over readers and writers. The writers' room is made beforehand: a growth of theirs that is
//! refused would be a failed write.

use crate::comparing::same;
use crate::market::{
    ADMISSIONS, ADMISSIONS_OF_20, BUNDLE, CHANGES, EXPLANATION, EXPLANATION_OF_2, EXPORTED, FAULTS,
    FAULTY_LISTS, JOURNAL, LISTS, LOG, REPORT, ROSTER, SCHOOLS, SCRIPT, SUMMARY, WHOLE_RUN, seed,
};
use crate::twice::{Call, expect};
use sc_papers::{SchoolNo, StudentNo};
use sc_report::Watched;
use sc_runs::{
    Ending, FileNames, Inputs, Opening, PapersFiles, RunFault, Settling, Table, admissions_files,
    audit_files, audit_report_files, changes_files, check_files, explain_files, export_files,
    match_files, replay_files, run, run_bundle, summary_files, table_files,
};
use std::alloc::{AllocError, Global};
use std::process::Abort;

/// A writer with room for each text of the trials.
fn writer(alloc: Global) -> Result<Watched<Vec<u8>>, AllocError> {
    Ok(Watched::new(Vec::with_capacity(alloc, 800)?))
}

/// The files of Market B.
fn opening() -> Opening<&'static [u8]> {
    Opening {
        schools: Watched::new(SCHOOLS),
        roster: Watched::new(ROSTER),
        lists: Watched::new(LISTS),
    }
}

/// What was written to a writer.
fn written(alloc: Global, out: &Watched<Vec<u8>>) -> Result<String, AllocError> {
    let text = String::from_utf8_lossy(alloc, out.inner().as_slice())?;
    format!(in alloc; "{text}")
}

/// What a call that writes one text whole wrote. A fault is want of memory, and nothing was written.
fn one_text(
    rt: &impl Abort,
    alloc: Global,
    fault: Option<RunFault>,
    out: &Watched<Vec<u8>>,
) -> Result<String, AllocError> {
    let Some(fault) = fault else {
        return written(alloc, out);
    };
    same(rt, &fault, &RunFault::OutOfMemory);
    assert!(rt; out.inner().is_empty());
    Err(AllocError)
}

pub fn matched(rt: &impl Abort, alloc: Global, show_log: bool) -> Result<String, AllocError> {
    let mut out = writer(alloc)?;
    let answer = match_files(alloc, &seed(rt), &mut opening(), show_log, &mut out);
    one_text(rt, alloc, answer.err(), &out)
}

#[test]
fn match_of_files(rt: HostRuntime) {
    expect(&rt, rt.alloc(), Call::MatchFiles, REPORT);
    expect(&rt, rt.alloc(), Call::MatchLog, "");
}

/// What a run left. A fault is want of memory, after which the output and the journal are prefixes of the
/// whole, and no reply stands without its line.
fn run_left(
    rt: &impl Abort,
    alloc: Global,
    answer: Result<(), RunFault>,
    out: &Watched<Vec<u8>>,
    journal: &Watched<Vec<u8>>,
) -> Result<String, AllocError> {
    let (output, journal) = (out.inner().as_slice(), journal.inner().as_slice());
    let Err(fault) = answer else {
        assert!(rt; journal == JOURNAL.as_bytes());
        return written(alloc, out);
    };
    same(rt, &fault, &RunFault::OutOfMemory);
    assert!(rt; WHOLE_RUN.as_bytes().starts_with(output));
    assert!(rt; JOURNAL.as_bytes().starts_with(journal));
    // The last reply, the one of record 5, stands on line 2.
    let lines = journal.iter().filter(|byte| **byte == b'\n').count();
    assert!(rt; lines >= 1 || output.is_empty());
    assert!(rt; lines == 2 || !output.starts_with(&WHOLE_RUN.as_bytes()[..84]));
    Err(AllocError)
}

pub fn ran(rt: &impl Abort, alloc: Global, settling: Settling) -> Result<String, AllocError> {
    let mut inputs = Inputs {
        opening: opening(),
        script: Watched::new(SCRIPT),
    };
    let mut out = writer(alloc)?;
    let mut journal = writer(alloc)?;
    let answer = run(
        alloc,
        &seed(rt),
        &mut inputs,
        settling,
        &mut out,
        &mut journal,
    );
    run_left(rt, alloc, answer, &out, &journal)
}

#[test]
fn run_of_a_script(rt: HostRuntime) {
    expect(&rt, rt.alloc(), Call::Run, WHOLE_RUN);
    expect(&rt, rt.alloc(), Call::RunSettledAtTheEnd, WHOLE_RUN);
}

pub fn audited(rt: &impl Abort, alloc: Global) -> Result<String, AllocError> {
    let mut out = writer(alloc)?;
    let mut log = Watched::new(LOG);
    let answer = audit_files(alloc, &seed(rt), &mut opening(), &mut log, &mut out);
    one_text(rt, alloc, answer.err(), &out)
}

#[test]
fn audit_of_files(rt: HostRuntime) {
    expect(&rt, rt.alloc(), Call::AuditFiles, "bad entry 1\n");
}

pub fn audited_report(rt: &impl Abort, alloc: Global) -> Result<String, AllocError> {
    let mut out = writer(alloc)?;
    let mut log = Watched::new(b"".as_slice());
    let mut report = Watched::new(b"student,school\n1,10\n2,10\n".as_slice());
    let answer = audit_report_files(
        alloc,
        &seed(rt),
        &mut opening(),
        &mut log,
        &mut report,
        &mut out,
    );
    one_text(rt, alloc, answer.err(), &out)
}

// Market B has no rejection, so the empty log is its own; student 2 has school 20.
#[test]
fn audit_of_a_report(rt: HostRuntime) {
    expect(
        &rt,
        rt.alloc(),
        Call::AuditReportFiles,
        "report differs 3\n",
    );
}

pub fn replayed(rt: &impl Abort, alloc: Global) -> Result<String, AllocError> {
    let mut out = writer(alloc)?;
    let mut journal = Watched::new(JOURNAL.as_bytes());
    let answer = replay_files(alloc, &seed(rt), &mut opening(), &mut journal, &mut out);
    one_text(rt, alloc, answer.err(), &out)
}

#[test]
fn replay_of_files(rt: HostRuntime) {
    expect(&rt, rt.alloc(), Call::ReplayFiles, REPORT);
}

pub fn tabulated(rt: &impl Abort, alloc: Global) -> Result<String, AllocError> {
    let mut out = writer(alloc)?;
    let answer = table_files(
        alloc,
        &seed(rt),
        &mut opening(),
        &mut None,
        Table::Assignment,
        &mut out,
    );
    one_text(rt, alloc, answer.err(), &out)
}

#[test]
fn table_of_files(rt: HostRuntime) {
    let want = "student,school\n1,10\n2,20\n";
    expect(&rt, rt.alloc(), Call::TableFiles, want);
}

/// The texts of the files of papers, one after the other.
pub fn files_text(alloc: Global, files: &PapersFiles) -> Result<String, AllocError> {
    let schools = String::from_utf8_lossy(alloc, files.schools.as_slice())?;
    let roster = String::from_utf8_lossy(alloc, files.roster.as_slice())?;
    let lists = String::from_utf8_lossy(alloc, files.lists.as_slice())?;
    format!(in alloc; "{schools}{roster}{lists}")
}

pub fn exported(rt: &impl Abort, alloc: Global) -> Result<String, AllocError> {
    let mut journal = Some(Watched::new(JOURNAL.as_bytes()));
    match export_files(alloc, &seed(rt), &mut opening(), &mut journal) {
        Ok(exported) => files_text(alloc, &exported.files),
        Err(fault) => {
            same(rt, &fault, &RunFault::OutOfMemory);
            Err(AllocError)
        }
    }
}

#[test]
fn export_of_files(rt: HostRuntime) {
    expect(&rt, rt.alloc(), Call::ExportFiles, EXPORTED);
}

pub fn summed(rt: &impl Abort, alloc: Global) -> Result<String, AllocError> {
    let mut out = writer(alloc)?;
    let mut journal = Some(Watched::new(JOURNAL.as_bytes()));
    let answer = summary_files(alloc, &seed(rt), &mut opening(), &mut journal, &mut out);
    one_text(rt, alloc, answer.err(), &out)
}

#[test]
fn summary_of_files(rt: HostRuntime) {
    expect(&rt, rt.alloc(), Call::SummaryFiles, SUMMARY);
}

pub fn explained(
    rt: &impl Abort,
    alloc: Global,
    student: Option<StudentNo>,
) -> Result<String, AllocError> {
    let mut out = writer(alloc)?;
    let mut journal = Some(Watched::new(JOURNAL.as_bytes()));
    let answer = explain_files(
        alloc,
        &seed(rt),
        &mut opening(),
        &mut journal,
        student,
        &mut out,
    );
    one_text(rt, alloc, answer.err(), &out)
}

#[test]
fn explanation_of_files(rt: HostRuntime) {
    expect(&rt, rt.alloc(), Call::ExplainFiles, EXPLANATION);
    expect(&rt, rt.alloc(), Call::ExplainStudent, EXPLANATION_OF_2);
}

pub fn admitted(
    rt: &impl Abort,
    alloc: Global,
    school: Option<SchoolNo>,
) -> Result<String, AllocError> {
    let mut out = writer(alloc)?;
    let mut journal = Some(Watched::new(JOURNAL.as_bytes()));
    let answer = admissions_files(
        alloc,
        &seed(rt),
        &mut opening(),
        &mut journal,
        school,
        &mut out,
    );
    one_text(rt, alloc, answer.err(), &out)
}

#[test]
fn admissions_of_files(rt: HostRuntime) {
    expect(&rt, rt.alloc(), Call::AdmissionsFiles, ADMISSIONS);
    expect(&rt, rt.alloc(), Call::AdmissionsOfSchool, ADMISSIONS_OF_20);
}

pub fn changed(rt: &impl Abort, alloc: Global) -> Result<String, AllocError> {
    let mut out = writer(alloc)?;
    let mut journal = Watched::new(JOURNAL.as_bytes());
    let answer = changes_files(alloc, &seed(rt), &mut opening(), &mut journal, 1, &mut out);
    one_text(rt, alloc, answer.err(), &out)
}

#[test]
fn changes_of_files(rt: HostRuntime) {
    expect(&rt, rt.alloc(), Call::ChangesFiles, CHANGES);
}

pub fn checked(rt: &impl Abort, alloc: Global) -> Result<String, AllocError> {
    let mut out = writer(alloc)?;
    let mut files = Opening {
        lists: Watched::new(FAULTY_LISTS),
        ..opening()
    };
    let mut script = Some(Watched::new(SCRIPT));
    let names = FileNames {
        schools: "schools.csv",
        roster: "roster.csv",
        lists: "lists.csv",
        script: "script.csv",
    };
    let answer = check_files(alloc, &seed(rt), &names, &mut files, &mut script, &mut out);
    one_text(rt, alloc, answer.err(), &out)
}

#[test]
fn check_of_files(rt: HostRuntime) {
    expect(&rt, rt.alloc(), Call::CheckFiles, FAULTS);
}

pub fn ran_bundle(rt: &impl Abort, alloc: Global) -> Result<String, AllocError> {
    let mut out = writer(alloc)?;
    match run_bundle(alloc, &mut Watched::new(BUNDLE), &mut out) {
        Ending::Done => written(alloc, &out),
        ending => {
            same(rt, &ending, &Ending::Fault(RunFault::OutOfMemory));
            assert!(rt; WHOLE_RUN.as_bytes().starts_with(out.inner().as_slice()));
            Err(AllocError)
        }
    }
}

#[test]
fn run_of_a_bundle(rt: HostRuntime) {
    expect(&rt, rt.alloc(), Call::RunBundle, WHOLE_RUN);
}
