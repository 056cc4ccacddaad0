//! The auditor's verdicts beside those of the plain program: on the logs and the assignments of random
//! markets, and on all that comes of a single change of one.
use crate::comparing::same;
use crate::markets::{
    Dice, Family, papers_of, plain_log, plain_students, random_families, random_schools, school_no,
    student_no,
};
use crate::plain::{Market, School, Student};
use sc_audit::{Stability, Verdict, audit, check_stable};
use sc_engine::{Settled, settle};
use sc_papers::{Assignment, Papers, Rejection};
use std::alloc::Global;
use std::process::Abort;

/// Pairs of a student and a school: a log, or an assignment.
type Pairs = Vec<(u32, u32)>;

/// The students that a change may name are numbered below this, and the last of them is in no market.
const STUDENTS: u32 = 6;

/// The schools that a change may name are numbered below this, and the last of them is in no market.
const SCHOOLS: u32 = 5;

/// The pairs without the one at a place.
fn without(rt: &impl Abort, alloc: Global, pairs: &[(u32, u32)], at: usize) -> Pairs {
    let mut changed = Vec::new(alloc);
    for (position, pair) in pairs.iter().enumerate() {
        if position != at {
            changed.push(*pair).expect(rt, "memory");
        }
    }
    changed
}

/// The pairs with the one at a place twice.
fn with_repeat(rt: &impl Abort, alloc: Global, pairs: &[(u32, u32)], at: usize) -> Pairs {
    let mut changed = Vec::new(alloc);
    for (position, pair) in pairs.iter().enumerate() {
        changed.push(*pair).expect(rt, "memory");
        if position == at {
            changed.push(*pair).expect(rt, "memory");
        }
    }
    changed
}

/// The pairs with another at a place.
fn with_pair(
    rt: &impl Abort,
    alloc: Global,
    pairs: &[(u32, u32)],
    at: usize,
    other: (u32, u32),
) -> Pairs {
    let mut changed = Vec::new(alloc);
    for (position, pair) in pairs.iter().enumerate() {
        let kept = if position == at { other } else { *pair };
        changed.push(kept).expect(rt, "memory");
    }
    changed
}

/// The pairs with the one at a place and the next in each other's places, if there is a next.
fn with_swap(rt: &impl Abort, alloc: Global, pairs: &[(u32, u32)], at: usize) -> Pairs {
    let mut changed = Vec::from_slice(alloc, pairs).expect(rt, "memory");
    let slice = changed.as_mut_slice();
    if at < slice.len() && slice.len() - at > 1 {
        slice.swap(at, at + 1);
    }
    changed
}

/// A log as the auditor reads it.
fn rejections(rt: &impl Abort, alloc: Global, log: &[(u32, u32)]) -> Vec<Rejection> {
    let mut entries = Vec::new(alloc);
    for (student, school) in log {
        let entry = Rejection {
            student: student_no(rt, *student),
            school: school_no(rt, *school),
        };
        entries.push(entry).expect(rt, "memory");
    }
    entries
}

/// The verdict of the plain program on a log.
fn plain_verdict(
    rt: &impl Abort,
    alloc: Global,
    market: &Market<'_>,
    log: &[(u32, u32)],
) -> Verdict {
    if let Some(at) = market.first_bad_entry(log) {
        return Verdict::BadEntry {
            line: (at as u64).saturating_add(1),
        };
    }
    let matching = market.matching_of(rt, alloc, log);
    match market.first_over(&matching) {
        Some(school) => Verdict::Over {
            school: school_no(rt, school),
        },
        None => Verdict::Certified,
    }
}

/// The auditor judges a log as the plain program does.
fn judge_log(
    rt: &impl Abort,
    alloc: Global,
    market: &Market<'_>,
    papers: &Papers,
    log: &[(u32, u32)],
) {
    let entries = rejections(rt, alloc, log);
    let verdict = audit(alloc, papers, entries.as_slice()).expect(rt, "memory");
    drop(entries);
    same(rt, &verdict, &plain_verdict(rt, alloc, market, log));
}

/// The same for a changed log, which ends here.
fn judge_changed(
    rt: &impl Abort,
    alloc: Global,
    market: &Market<'_>,
    papers: &Papers,
    changed: Pairs,
) {
    judge_log(rt, alloc, market, papers, &changed);
    drop(changed);
}

/// The auditor judges each change of a log's entry at a place as the plain program does.
fn judge_changes_at(
    rt: &impl Abort,
    alloc: Global,
    market: &Market<'_>,
    papers: &Papers,
    log: &[(u32, u32)],
    at: usize,
) {
    assert!(rt; at < log.len());
    let entry = log[at];
    judge_changed(rt, alloc, market, papers, without(rt, alloc, log, at));
    judge_changed(rt, alloc, market, papers, with_repeat(rt, alloc, log, at));
    judge_changed(rt, alloc, market, papers, with_swap(rt, alloc, log, at));
    for student in 1..STUDENTS {
        let altered = with_pair(rt, alloc, log, at, (student, entry.1));
        judge_changed(rt, alloc, market, papers, altered);
    }
    for school in 1..SCHOOLS {
        let altered = with_pair(rt, alloc, log, at, (entry.0, school));
        judge_changed(rt, alloc, market, papers, altered);
    }
}

/// The auditor judges a log and each single change of it as the plain program does.
fn judge_log_and_changes(
    rt: &impl Abort,
    alloc: Global,
    market: &Market<'_>,
    papers: &Papers,
    log: &[(u32, u32)],
) {
    judge_log(rt, alloc, market, papers, log);
    for at in 0..log.len() {
        judge_changes_at(rt, alloc, market, papers, log, at);
    }
}

/// The auditor certifies the log of the proposals, and judges each single change of it as the plain
/// program does.
fn judge_settled_log(
    rt: &impl Abort,
    alloc: Global,
    market: &Market<'_>,
    papers: &Papers,
    settled: &Settled,
) {
    let verdict = audit(alloc, papers, settled.log.as_slice()).expect(rt, "memory");
    same(rt, &verdict, &Verdict::Certified);
    let log = plain_log(rt, alloc, settled);
    judge_log_and_changes(rt, alloc, market, papers, &log);
    drop(log);
}

/// An assignment as the auditor reads it.
fn assignment_of(rt: &impl Abort, alloc: Global, pairs: &[(u32, u32)]) -> Assignment {
    let mut assignment = Assignment::new(alloc);
    for (student, school) in pairs {
        let put = assignment.put(student_no(rt, *student), school_no(rt, *school));
        put.ok().expect(rt, "memory");
    }
    assignment
}

/// The verdict of the plain program on a matching.
fn matching_stability(rt: &impl Abort, market: &Market<'_>, matching: &[Option<u32>]) -> Stability {
    if let Some(school) = market.first_over(matching) {
        return Stability::OverSeats {
            school: school_no(rt, school),
        };
    }
    match market.first_block(matching) {
        Some((student, school)) => Stability::Blocked {
            student: student_no(rt, student),
            school: school_no(rt, school),
        },
        None => Stability::Stable,
    }
}

/// The verdict of the plain program on an assignment.
fn plain_stability(
    rt: &impl Abort,
    alloc: Global,
    market: &Market<'_>,
    pairs: &[(u32, u32)],
) -> Stability {
    if !market.is_matching(pairs) {
        return Stability::NotAMatching;
    }
    let matching = market.matching_of_pairs(rt, alloc, pairs);
    let stability = matching_stability(rt, market, &matching);
    drop(matching);
    stability
}

/// The auditor judges an assignment as the plain program does.
fn judge_assignment(
    rt: &impl Abort,
    alloc: Global,
    market: &Market<'_>,
    papers: &Papers,
    pairs: &[(u32, u32)],
) {
    let assignment = assignment_of(rt, alloc, pairs);
    let stability = check_stable(alloc, papers, &assignment).expect(rt, "memory");
    drop(assignment);
    same(rt, &stability, &plain_stability(rt, alloc, market, pairs));
}

/// Who has which school, in pairs.
fn pairs_of(
    rt: &impl Abort,
    alloc: Global,
    students: &[Student],
    matching: &[Option<u32>],
) -> Pairs {
    let mut pairs = Vec::new(alloc);
    for (student, has) in students.iter().zip(matching) {
        if let Some(school) = has {
            pairs.push((student.number, *school)).expect(rt, "memory");
        }
    }
    pairs
}

/// The pairs, in which the student has the school and no other.
fn with_school(
    rt: &impl Abort,
    alloc: Global,
    pairs: &[(u32, u32)],
    student: u32,
    school: u32,
) -> Pairs {
    let mut changed = Vec::new(alloc);
    changed.push((student, school)).expect(rt, "memory");
    for pair in pairs {
        if pair.0 != student {
            changed.push(*pair).expect(rt, "memory");
        }
    }
    changed
}

/// The auditor judges each assignment in which one student has another school as the plain program
/// does.
fn judge_other_schools(
    rt: &impl Abort,
    alloc: Global,
    market: &Market<'_>,
    papers: &Papers,
    pairs: &[(u32, u32)],
) {
    for student in 1..STUDENTS {
        for school in 1..SCHOOLS {
            let changed = with_school(rt, alloc, pairs, student, school);
            judge_assignment(rt, alloc, market, papers, &changed);
        }
    }
}

/// The auditor judges each matching of the papers as the plain program does.
fn judge_matchings(rt: &impl Abort, alloc: Global, market: &Market<'_>, papers: &Papers) {
    let matchings = market.matchings(rt, alloc);
    for matching in &matchings {
        let pairs = pairs_of(rt, alloc, market.students, matching);
        judge_assignment(rt, alloc, market, papers, &pairs);
    }
    drop(matchings);
}

/// Who has which school by the log of the proposals.
fn settled_pairs(rt: &impl Abort, alloc: Global, market: &Market<'_>, settled: &Settled) -> Pairs {
    let log = plain_log(rt, alloc, settled);
    let matching = market.matching_of(rt, alloc, &log);
    drop(log);
    pairs_of(rt, alloc, market.students, &matching)
}

/// The auditor finds the assignment of the proposals stable, and judges each in which one student has
/// another school, and each matching of the papers, as the plain program does.
fn judge_assignments(
    rt: &impl Abort,
    alloc: Global,
    market: &Market<'_>,
    papers: &Papers,
    settled: &Settled,
) {
    let stability = check_stable(alloc, papers, &settled.assignment).expect(rt, "memory");
    same(rt, &stability, &Stability::Stable);
    let pairs = settled_pairs(rt, alloc, market, settled);
    judge_other_schools(rt, alloc, market, papers, &pairs);
    drop(pairs);
    judge_matchings(rt, alloc, market, papers);
}

/// Compares the auditor's verdicts on a settling of the papers with those of the plain program.
fn judge_settled(
    rt: &impl Abort,
    alloc: Global,
    market: &Market<'_>,
    papers: &Papers,
    settled: &Settled,
) {
    judge_settled_log(rt, alloc, market, papers, settled);
    judge_assignments(rt, alloc, market, papers, settled);
}

/// Settles the papers of a market, and compares the auditor's verdicts.
fn judge_market(rt: &impl Abort, alloc: Global, market: &Market<'_>, papers: &Papers) {
    let settled = settle(alloc, papers).ok().expect(rt, "memory");
    judge_settled(rt, alloc, market, papers, &settled);
}

/// The same for the papers of these schools and families.
fn judge_papers(
    rt: &impl Abort,
    alloc: Global,
    schools: &[School],
    families: &[Family],
    papers: &Papers,
) {
    let students = plain_students(rt, alloc, families);
    let market = Market {
        schools,
        students: students.as_slice(),
    };
    judge_market(rt, alloc, &market, papers);
}

/// Settles the market of these schools and families, and compares the auditor's verdicts.
fn judge_families(rt: &impl Abort, alloc: Global, schools: &[School], families: &[Family]) {
    let papers = papers_of(rt, alloc, schools, families);
    judge_papers(rt, alloc, schools, families, &papers);
}

/// Settles a random market, and compares the auditor's verdicts with those of the plain program.
fn one_market(rt: &impl Abort, alloc: Global, dice: &mut Dice) {
    let schools = random_schools(rt, alloc, dice);
    let families = random_families(rt, alloc, dice, (schools.len() % 1_000) as u32);
    judge_families(rt, alloc, schools.as_slice(), families.as_slice());
}

#[test]
fn audits_of_random_markets(rt: HostRuntime) {
    let mut dice = Dice { state: 1962 };
    for _market in 0..4_000 {
        one_market(&rt, rt.alloc(), &mut dice);
    }
}
