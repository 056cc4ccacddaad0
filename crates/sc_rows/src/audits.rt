//! What the auditor says of logs and assignments. Both are written as pairs of a student and a school,
//! with the answer that is wanted after `=>`, one a line.
use crate::given::{amend, expect_said, papers_of};
use sc_audit::{Stability, Verdict, audit, check_stable};
use sc_intake::read_log;
use sc_markets::{FIVE_STUDENTS, Files, MARKET_A, MARKET_B_AND_NEWCOMER, assignment};
use sc_papers::{Assignment, FlatPapers};
use std::alloc::{AllocError, Global};
use std::process::Abort;

/// The pairs, one a row.
fn rows(alloc: Global, pairs: &str) -> Result<String, AllocError> {
    let mut rows = String::new(alloc);
    for pair in pairs.split_whitespace() {
        write!(rows, "{pair}\n")?;
    }
    Ok(rows)
}

/// A verdict in words.
fn verdict_text(alloc: Global, verdict: Verdict) -> Result<String, AllocError> {
    match verdict {
        Verdict::BadEntry { line } => format!(in alloc; "bad entry {line}"),
        Verdict::Over { school } => format!(in alloc; "over {}", school.get()),
        Verdict::Certified => String::from_str(alloc, "certified"),
    }
}

/// The auditor's verdict on a log.
fn verdict_on(
    rt: &impl Abort,
    alloc: Global,
    papers: &FlatPapers,
    pairs: &str,
) -> Result<String, AllocError> {
    let log = read_log(alloc, rows(alloc, pairs)?.as_bytes()).expect(rt, "a log");
    verdict_text(alloc, audit(alloc, papers, log.as_slice())?)
}

/// The logs under these papers have the wanted verdicts.
fn expect_verdicts(rt: &impl Abort, alloc: Global, papers: &FlatPapers, lines: &str) {
    for line in lines.lines() {
        let (log, want) = line.split_once("=> ").expect(rt, "a log and a verdict");
        expect_said(rt, log, verdict_on(rt, alloc, papers, log), want);
    }
}

#[test]
fn audits(rt: HostRuntime) {
    let lines = "\
1,10 2,20 2,10 => certified
2,10 1,10 2,20 => bad entry 1
1,10 2,10 2,20 => bad entry 2
=> over 10
";
    let papers = papers_of(&rt, rt.alloc(), MARKET_B_AND_NEWCOMER);
    expect_verdicts(&rt, rt.alloc(), &papers, lines);
}

#[test]
fn an_unknown_student_or_school_is_a_bad_entry(rt: HostRuntime) {
    let papers = papers_of(&rt, rt.alloc(), MARKET_B_AND_NEWCOMER);
    let lines = "9,10 => bad entry 1\n1,10 2,77 => bad entry 2\n";
    expect_verdicts(&rt, rt.alloc(), &papers, lines);
}

#[test]
fn a_correction_rewinds_to_the_start(rt: HostRuntime) {
    let mut papers = papers_of(&rt, rt.alloc(), FIVE_STUDENTS);
    let before = "2,10 3,20 2,20 => certified\n";
    expect_verdicts(&rt, rt.alloc(), &papers, before);
    amend(&rt, rt.alloc(), &mut papers, "correct,1,0,");
    let after = "2,10 3,20 2,20 => bad entry 1\n1,10 1,20 3,20 => certified\n";
    expect_verdicts(&rt, rt.alloc(), &papers, after);
}

/// A stability verdict in words.
fn stability_text(alloc: Global, stability: Stability) -> Result<String, AllocError> {
    match stability {
        Stability::NotAMatching => String::from_str(alloc, "not a matching"),
        Stability::OverSeats { school } => format!(in alloc; "over {}", school.get()),
        Stability::Blocked { student, school } => {
            format!(in alloc; "blocked by {} and {}", student.get(), school.get())
        }
        Stability::Stable => String::from_str(alloc, "stable"),
    }
}

/// The assignment of these pairs.
fn assignment_of(rt: &impl Abort, alloc: Global, pairs: &str) -> Result<Assignment, AllocError> {
    let rows = rows(alloc, pairs)?;
    Ok(assignment(alloc, rows.as_str()).expect(rt, "pairs"))
}

/// What the auditor finds of an assignment.
fn stability_of(
    rt: &impl Abort,
    alloc: Global,
    papers: &FlatPapers,
    pairs: &str,
) -> Result<String, AllocError> {
    let assignment = assignment_of(rt, alloc, pairs)?;
    stability_text(alloc, check_stable(alloc, papers, &assignment)?)
}

/// The assignments under these papers have the wanted stability verdicts.
fn expect_stabilities(rt: &impl Abort, alloc: Global, papers: &FlatPapers, lines: &str) {
    for line in lines.lines() {
        let (pairs, want) = line.split_once("=> ").expect(rt, "pairs and a verdict");
        expect_said(rt, pairs, stability_of(rt, alloc, papers, pairs), want);
    }
}

/// So have they under the papers of a market.
fn expect_stabilities_of(rt: &impl Abort, alloc: Global, files: Files<'_>, lines: &str) {
    let papers = papers_of(rt, alloc, files);
    expect_stabilities(rt, alloc, &papers, lines);
}

#[test]
fn stability_verdicts_of_market_a(rt: HostRuntime) {
    let lines = "1,10 2,20 => stable\n1,20 2,10 => stable\n";
    expect_stabilities_of(&rt, rt.alloc(), MARKET_A, lines);
}

#[test]
fn stability_verdicts(rt: HostRuntime) {
    let lines = "\
=> blocked by 1 and 10
1,20 2,10 => blocked by 3 and 10
1,10 3,10 => over 10
3,20 => not a matching
9,10 => not a matching
";
    expect_stabilities_of(&rt, rt.alloc(), MARKET_B_AND_NEWCOMER, lines);
}
