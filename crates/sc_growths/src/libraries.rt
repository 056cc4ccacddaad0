//! The calls of the libraries.

use crate::calls::files_text;
use crate::comparing::same;
use crate::market::{EXPORTED, JOURNAL, LISTS, LOG, ROSTER, SCHOOLS, SCRIPT, seed};
use crate::twice::{Call, expect, given};
use sc_audit::{audit, check_stable};
use sc_export::export;
use sc_intake::{papers_of, read_lists, read_log, read_roster, read_schools, read_script};
use sc_journal::{JournalCause, replay};
use sc_markets::{market_b, stamped, standing};
use sc_papers::{Papers, Refusal, SchoolNo, Stamp, Stamped, StudentNo};
use sc_repair::{Clearing, Unsettled};
use sc_report::report_text;
use std::alloc::{AllocError, Global};
use std::process::Abort;

/// Opens papers that a refusal gave back.
fn open_again(rt: &impl Abort, alloc: Global, papers: Papers) -> Result<String, AllocError> {
    same(rt, &papers.students_len(), &2);
    same(rt, &papers.schools_len(), &2);
    match Clearing::open(alloc, papers) {
        Ok(clearing) => standing(alloc, &clearing),
        Err(_refused) => Err(AllocError),
    }
}

/// The papers of Market B, made again where memory was refused.
fn papers_of_b(rt: &impl Abort, alloc: Global) -> Papers {
    match market_b(alloc) {
        Ok(papers) => papers,
        Err(_) => market_b(alloc).expect(rt, "papers"),
    }
}

pub fn opened(rt: &impl Abort, alloc: Global) -> Result<String, AllocError> {
    let papers = papers_of_b(rt, alloc);
    match Clearing::open(alloc, papers) {
        Ok(clearing) => standing(alloc, &clearing),
        Err(refused) => open_again(rt, alloc, refused.papers),
    }
}

#[test]
fn open(rt: HostRuntime) {
    expect(&rt, rt.alloc(), Call::Open, "1:10 2:20 |");
}

/// The record of the newcomer who enters.
pub const ENTRY: &str = "0,enter,3,1,10,10";

/// The record of the first student, who withdraws.
pub const WITHDRAWAL: &str = "0,withdraw,1";

/// The amendment of a record, made again where memory was refused.
fn amendment(rt: &impl Abort, alloc: Global, record: &str) -> Stamped {
    match stamped(alloc, record) {
        Ok(amendment) => amendment,
        Err(_) => stamped(alloc, record).expect(rt, "an amendment"),
    }
}

/// The papers are those of Market B: their zones, seats, lists and orders of entry.
fn expect_papers(rt: &impl Abort, alloc: Global, papers: &Papers) -> Result<(), AllocError> {
    let files = export(alloc, papers)?;
    let text = files_text(alloc, &files)?;
    same(rt, &text.as_str(), &EXPORTED);
    Ok(())
}

/// No amendment was accepted: the stamps are those of an opening.
fn expect_no_stamps(rt: &impl Abort, clearing: &Clearing) {
    same(rt, &clearing.accepted(), &Stamp::ZERO);
    for number in 1..=3 {
        let student = StudentNo::new(number).expect(rt, "a student");
        same(rt, &clearing.stamp_of_student(student), &Stamp::ZERO);
    }
    for number in &[10, 20] {
        let school = SchoolNo::new(*number).expect(rt, "a school");
        same(rt, &clearing.stamp_of_school(school), &Stamp::ZERO);
    }
}

/// The places and the log are this text.
fn expect_standing(
    rt: &impl Abort,
    alloc: Global,
    clearing: &Clearing,
    want: &str,
) -> Result<(), AllocError> {
    let kept = standing(alloc, clearing)?;
    same(rt, &kept.as_str(), &want);
    Ok(())
}

/// The clearing is that of Market B's opening: papers, stamps, places, log, and count of proposals.
fn expect_opening(rt: &impl Abort, alloc: Global, clearing: &Clearing) -> Result<(), AllocError> {
    same(rt, &clearing.proposals_last(), &2);
    expect_no_stamps(rt, clearing);
    expect_papers(rt, alloc, clearing.papers())?;
    expect_standing(rt, alloc, clearing, "1:10 2:20 |")
}

/// Sees that the clearing is as it was opened, and amends it again.
fn amend_again(
    rt: &impl Abort,
    alloc: Global,
    clearing: &mut Clearing,
    record: &str,
) -> Result<(), AllocError> {
    expect_opening(rt, alloc, clearing)?;
    assert!(rt; clearing.amend(amendment(rt, alloc, record)) == Ok(()));
    Ok(())
}

/// Amends the clearing, a second time where memory is refused.
fn amend_once(
    rt: &impl Abort,
    alloc: Global,
    clearing: &mut Clearing,
    record: &str,
) -> Result<String, AllocError> {
    if let Err(refusal) = clearing.amend(amendment(rt, alloc, record)) {
        same(rt, &refusal, &Refusal::OutOfMemory);
        amend_again(rt, alloc, clearing, record)?;
    }
    standing(alloc, clearing)
}

pub fn amended(rt: &impl Abort, alloc: Global, record: &str) -> Result<String, AllocError> {
    let papers = papers_of_b(rt, alloc);
    match Clearing::open(alloc, papers) {
        Ok(mut clearing) => amend_once(rt, alloc, &mut clearing, record),
        Err(_refused) => Err(AllocError),
    }
}

#[test]
fn each_growth_refused(rt: HostRuntime) {
    let want = "1:20 2:0 3:10 |(1,10)(2,20)(2,10)";
    expect(&rt, rt.alloc(), Call::Amend, want);
}

#[test]
fn withdraw(rt: HostRuntime) {
    expect(&rt, rt.alloc(), Call::Withdraw, "2:20 |");
}

/// Enters the newcomer into papers that are not settled, a second time where memory is refused, after which
/// no amendment was accepted yet.
fn enter_unsettled(rt: &impl Abort, alloc: Global, unsettled: &mut Unsettled) {
    if let Err(refusal) = unsettled.amend(amendment(rt, alloc, ENTRY)) {
        same(rt, &refusal, &Refusal::OutOfMemory);
        same(rt, &unsettled.accepted().get(), &0);
        assert!(rt; unsettled.amend(amendment(rt, alloc, ENTRY)) == Ok(()));
    }
}

/// Settles papers into which the newcomer has come. A refusal gives them back.
fn settle(rt: &impl Abort, alloc: Global, unsettled: Unsettled) -> Result<String, AllocError> {
    match unsettled.settle(alloc) {
        Ok(clearing) => standing(alloc, &clearing),
        Err(refused) => {
            same(rt, &refused.papers.students_len(), &3);
            Err(AllocError)
        }
    }
}

pub fn amended_unsettled(rt: &impl Abort, alloc: Global) -> Result<String, AllocError> {
    match Unsettled::new(alloc, papers_of_b(rt, alloc)) {
        Ok(mut unsettled) => {
            enter_unsettled(rt, alloc, &mut unsettled);
            settle(rt, alloc, unsettled)
        }
        Err(refused) => {
            same(rt, &refused.papers.students_len(), &2);
            Err(AllocError)
        }
    }
}

#[test]
fn amend_unsettled(rt: HostRuntime) {
    let want = "1:20 2:0 3:10 |(1,10)(2,20)(2,10)";
    expect(&rt, rt.alloc(), Call::AmendUnsettled, want);
}

pub fn papers_read(rt: &impl Abort, alloc: Global) -> Result<String, AllocError> {
    let schools = given(rt, read_schools(alloc, SCHOOLS))?;
    let roster = given(rt, read_roster(alloc, ROSTER))?;
    let lists = given(rt, read_lists(alloc, LISTS))?;
    let papers = given(rt, papers_of(alloc, seed(rt), &schools, &roster, &lists))?;
    let counts = (papers.schools_len(), papers.students_len());
    format!(in alloc; "{} schools, {} students", counts.0, counts.1)
}

#[test]
fn papers(rt: HostRuntime) {
    let want = "2 schools, 2 students";
    expect(&rt, rt.alloc(), Call::PapersOf, want);
}

pub fn script_read(rt: &impl Abort, alloc: Global) -> Result<String, AllocError> {
    let script = given(rt, read_script(alloc, SCRIPT))?;
    format!(in alloc; "{} records", script.len())
}

#[test]
fn script(rt: HostRuntime) {
    expect(&rt, rt.alloc(), Call::ReadScript, "5 records");
}

pub fn log_read(rt: &impl Abort, alloc: Global) -> Result<String, AllocError> {
    let log = given(rt, read_log(alloc, LOG))?;
    format!(in alloc; "{} entries", log.len())
}

#[test]
fn log(rt: HostRuntime) {
    expect(&rt, rt.alloc(), Call::ReadLog, "3 entries");
}

/// The verdict on the log under papers.
fn verdict(rt: &impl Abort, alloc: Global, papers: &Papers) -> Result<String, AllocError> {
    let log = given(rt, read_log(alloc, LOG))?;
    let verdict = audit(alloc, papers, log.as_slice())?;
    format!(in alloc; "{verdict:?}")
}

pub fn audited(rt: &impl Abort, alloc: Global) -> Result<String, AllocError> {
    let papers = papers_of_b(rt, alloc);
    verdict(rt, alloc, &papers)
}

// Without the newcomer nobody else can have school 10: the first entry is not valid.
#[test]
fn audit_of_a_log(rt: HostRuntime) {
    expect(&rt, rt.alloc(), Call::Audit, "BadEntry { line: 1 }");
}

/// Whether the standing assignment is stable.
fn stability(alloc: Global, clearing: &Clearing) -> Result<String, AllocError> {
    let stability = check_stable(alloc, clearing.papers(), clearing.places())?;
    format!(in alloc; "{stability:?}")
}

pub fn checked(rt: &impl Abort, alloc: Global) -> Result<String, AllocError> {
    let papers = papers_of_b(rt, alloc);
    match Clearing::open(alloc, papers) {
        Ok(clearing) => stability(alloc, &clearing),
        Err(_refused) => Err(AllocError),
    }
}

#[test]
fn check_of_stability(rt: HostRuntime) {
    expect(&rt, rt.alloc(), Call::CheckStable, "Stable");
}

/// The report of a clearing.
fn report_of(alloc: Global, clearing: &Clearing) -> Result<String, AllocError> {
    let text = report_text(alloc, clearing)?;
    let text = String::from_utf8_lossy(alloc, text.as_slice())?;
    format!(in alloc; "{text}")
}

pub fn reported(rt: &impl Abort, alloc: Global) -> Result<String, AllocError> {
    let papers = papers_of_b(rt, alloc);
    match Clearing::open(alloc, papers) {
        Ok(clearing) => report_of(alloc, &clearing),
        Err(_refused) => Err(AllocError),
    }
}

#[test]
fn report(rt: HostRuntime) {
    expect(&rt, rt.alloc(), Call::ReportText, crate::market::REPORT);
}

pub fn replayed(rt: &impl Abort, alloc: Global) -> Result<String, AllocError> {
    let papers = papers_of_b(rt, alloc);
    match replay(alloc, papers, JOURNAL.as_bytes()) {
        Ok((clearing, _tail)) => standing(alloc, &clearing),
        Err(fault) => {
            same(rt, &fault.cause, &JournalCause::OutOfMemory);
            Err(AllocError)
        }
    }
}

#[test]
fn replay_of_a_journal(rt: HostRuntime) {
    expect(&rt, rt.alloc(), Call::Replay, "1:10 2:20 |");
}
