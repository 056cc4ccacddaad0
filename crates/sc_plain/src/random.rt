use crate::markets::{
    Dice, Family, papers_of, plain_log, plain_students, random_families, random_schools, student_no,
};
use crate::plain::{Market, School};
use sc_engine::{Settled, settle};
use sc_papers::Papers;
use std::alloc::Global;
use std::process::Abort;

/// Whether a matching is the one that is best among all the stable matchings that the plain program lists.
fn is_best_of_all(
    rt: &impl Abort,
    alloc: Global,
    market: &Market<'_>,
    matching: &[Option<u32>],
) -> bool {
    let stable = market.stable_matchings(rt, alloc);
    market.is_best(matching, stable.as_slice())
}

/// Whether the log of the proposals is settled by the definitions, and its matching the one that is best
/// among all the stable matchings that the plain program lists.
fn agrees(
    rt: &impl Abort,
    alloc: Global,
    market: &Market<'_>,
    log: &[(u32, u32)],
    matching: &[Option<u32>],
) -> bool {
    market.is_settled(rt, alloc, log)
        && market.is_stable(matching)
        && is_best_of_all(rt, alloc, market, matching)
}

/// Whether each student has what the matching gives.
fn gives(
    rt: &impl Abort,
    market: &Market<'_>,
    settled: &Settled,
    matching: &[Option<u32>],
) -> bool {
    market.students.iter().zip(matching).all(|(student, given)| {
        let has = settled.assignment.get(student_no(rt, student.number));
        has.map(|school| school.get()) == *given
    })
}

/// Compares a settling, its log and the matching that this gives with the plain program.
fn compare_matching(
    rt: &impl Abort,
    alloc: Global,
    market: &Market<'_>,
    settled: &Settled,
    log: &[(u32, u32)],
    matching: &[Option<u32>],
) {
    assert!(rt; agrees(rt, alloc, market, log, matching));
    assert!(rt; gives(rt, market, settled, matching));
}

/// Compares a settling of a market with the plain program.
fn compare_settled(rt: &impl Abort, alloc: Global, market: &Market<'_>, settled: &Settled) {
    let log = plain_log(rt, alloc, settled);
    let matching = market.matching_of(rt, alloc, &log);
    compare_matching(rt, alloc, market, settled, &log, &matching);
}

/// Settles the papers of a market, and compares them with the plain program.
fn compare_market(rt: &impl Abort, alloc: Global, market: &Market<'_>, papers: &Papers) {
    let settled = settle(alloc, papers).ok().expect(rt, "memory");
    compare_settled(rt, alloc, market, &settled);
}

/// The same for the papers of these schools and families.
fn compare_papers(
    rt: &impl Abort,
    alloc: Global,
    schools: &[School],
    families: &[Family],
    papers: &Papers,
) {
    let students = plain_students(rt, alloc, families);
    let market = Market {
        schools,
        students: students.as_slice(),
    };
    compare_market(rt, alloc, &market, papers);
}

/// Settles the market of these schools and families, and compares it with the plain program.
fn compare_families(rt: &impl Abort, alloc: Global, schools: &[School], families: &[Family]) {
    let papers = papers_of(rt, alloc, schools, families);
    compare_papers(rt, alloc, schools, families, &papers);
}

/// Settles a random market, and compares it with the plain program.
fn one_market(rt: &impl Abort, alloc: Global, dice: &mut Dice) {
    let schools = random_schools(rt, alloc, dice);
    let families = random_families(rt, alloc, dice, (schools.len() % 1_000) as u32);
    compare_families(rt, alloc, schools.as_slice(), families.as_slice());
}

#[test]
fn thousands_of_random_markets(rt: HostRuntime) {
    let mut dice = Dice { state: 1962 };
    for _market in 0..4_000 {
        one_market(&rt, rt.alloc(), &mut dice);
    }
}
