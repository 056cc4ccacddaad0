//! Clearings after random lists of amendments: each stands, entry for entry of its log, as its papers do
//! when they are settled from scratch.
use crate::comparing::same;
use crate::markets::{
    Dice, list_of, papers_of, random_families, random_schools, school_no, some_schools, student_no,
    zone,
};
use crate::plain::School;
use sc_engine::{Settled, settle};
use sc_markets::seen;
use sc_papers::{Amendment, Count, SchoolList, SchoolNo, StudentNo};
use sc_repair::Clearing;
use std::alloc::Global;
use std::process::Abort;

/// An amendment names a student numbered from 1 up to this, in the papers or not.
pub const STUDENTS: u32 = 8;

/// A student in the papers or not.
fn random_student(rt: &impl Abort, dice: &mut Dice) -> StudentNo {
    student_no(rt, dice.roll(STUDENTS).saturating_add(1))
}

/// The number of the last school, now and then that of a missing one after it.
fn last_school(dice: &mut Dice, schools: u32) -> u32 {
    if dice.roll(10) == 0 {
        schools.saturating_add(1)
    } else {
        schools
    }
}

/// A school, seldom a missing one.
fn random_school(rt: &impl Abort, dice: &mut Dice, schools: u32) -> SchoolNo {
    let last = last_school(dice, schools);
    school_no(rt, dice.roll(last).saturating_add(1))
}

/// A school, seldom a missing one, or more often none.
fn random_school_or_none(rt: &impl Abort, dice: &mut Dice, schools: u32) -> Option<SchoolNo> {
    match dice.roll(3) {
        0 => Some(random_school(rt, dice, schools)),
        _ => None,
    }
}

/// One seat or two, now and then as many as a school may have.
fn random_count(rt: &impl Abort, dice: &mut Dice) -> Count {
    let seats = if dice.roll(20) == 0 {
        Count::GREATEST
    } else {
        dice.roll(2).saturating_add(1)
    };
    Count::new(seats).expect(rt, "a count")
}

/// Some schools or none, seldom a missing one among them.
fn random_list(rt: &impl Abort, alloc: Global, dice: &mut Dice, schools: u32) -> SchoolList {
    let last = last_school(dice, schools);
    let tries = dice.roll(6);
    let list = some_schools(rt, alloc, dice, last, tries);
    list_of(rt, alloc, list.as_slice())
}

fn random_entry(rt: &impl Abort, alloc: Global, dice: &mut Dice, schools: u32) -> Amendment {
    Amendment::Enter {
        student: random_student(rt, dice),
        zone: zone(rt, dice.roll(3)),
        siblings: random_list(rt, alloc, dice, schools),
        choices: random_list(rt, alloc, dice, schools),
        continuing: random_school_or_none(rt, dice, schools),
    }
}

fn random_reranking(rt: &impl Abort, alloc: Global, dice: &mut Dice, schools: u32) -> Amendment {
    Amendment::Rerank {
        student: random_student(rt, dice),
        choices: random_list(rt, alloc, dice, schools),
    }
}

fn random_correction(rt: &impl Abort, alloc: Global, dice: &mut Dice, schools: u32) -> Amendment {
    Amendment::Correct {
        student: random_student(rt, dice),
        zone: zone(rt, dice.roll(3)),
        siblings: random_list(rt, alloc, dice, schools),
        continuing: random_school_or_none(rt, dice, schools),
    }
}

/// An amendment of any kind, which the papers may allow or not, where schools are numbered from 1 up to
/// `schools`.
pub fn random_amendment(
    rt: &impl Abort,
    alloc: Global,
    dice: &mut Dice,
    schools: u32,
) -> Amendment {
    match dice.roll(7) {
        0 => random_correction(rt, alloc, dice, schools),
        1 => random_reranking(rt, alloc, dice, schools),
        2 => Amendment::Withdraw {
            student: random_student(rt, dice),
        },
        3 => Amendment::Add {
            school: random_school(rt, dice, schools),
            count: random_count(rt, dice),
        },
        4 => Amendment::Close {
            school: random_school(rt, dice, schools),
            count: random_count(rt, dice),
        },
        _ => random_entry(rt, alloc, dice, schools),
    }
}

/// Whether the student at the position has in the clearing what the settling gives.
fn has_the_same(clearing: &Clearing, settled: &Settled, position: usize) -> bool {
    match clearing.papers().student_at(position) {
        Some(student) => clearing.place_of(student) == Some(settled.assignment.get(student)),
        None => false,
    }
}

/// The clearing has the settling's log.
fn has_the_log(rt: &impl Abort, clearing: &Clearing, settled: &Settled) {
    let log = clearing.log().expect(rt, "memory");
    same(rt, &log.as_slice(), &settled.log.as_slice());
    drop(log);
}

/// The clearing has the settling's places.
fn has_the_places(rt: &impl Abort, clearing: &Clearing, settled: &Settled) {
    for position in 0..clearing.papers().students_len() {
        assert!(rt; has_the_same(clearing, settled, position));
    }
}

/// The clearing has the log and the places that its papers settle to from scratch.
fn stands_as_settled(rt: &impl Abort, alloc: Global, clearing: &Clearing) {
    let settled = settle(alloc, clearing.papers()).ok().expect(rt, "memory");
    has_the_log(rt, clearing, &settled);
    has_the_places(rt, clearing, &settled);
}

/// Amends a clearing, which then stands as settled from scratch; a refusal leaves the count of its
/// proposals.
fn amend(rt: &impl Abort, alloc: Global, clearing: &mut Clearing, amendment: Amendment) {
    let before = clearing.proposals_last();
    let stamped = seen(clearing, amendment);
    let is_accepted = clearing.amend(stamped).is_ok();
    assert!(rt; is_accepted || clearing.proposals_last() == before);
    stands_as_settled(rt, alloc, clearing);
}

/// Amends the clearing of a random market many times.
fn amend_often(
    rt: &impl Abort,
    alloc: Global,
    dice: &mut Dice,
    clearing: &mut Clearing,
    schools: u32,
) {
    for _amendment in 0..20 {
        let amendment = random_amendment(rt, alloc, dice, schools);
        amend(rt, alloc, clearing, amendment);
    }
}

/// The clearing of the market of these schools and of random families.
pub fn random_clearing(
    rt: &impl Abort,
    alloc: Global,
    dice: &mut Dice,
    schools: &[School],
) -> Clearing {
    let families = random_families(rt, alloc, dice, (schools.len() % 1_000) as u32);
    let papers = papers_of(rt, alloc, schools, families.as_slice());
    drop(families);
    Clearing::open(alloc, papers).ok().expect(rt, "memory")
}

/// Opens the clearing of a market, and amends it.
fn amend_market(rt: &impl Abort, alloc: Global, dice: &mut Dice, schools: &[School]) {
    let mut clearing = random_clearing(rt, alloc, dice, schools);
    let count = (schools.len() % 1_000) as u32;
    amend_often(rt, alloc, dice, &mut clearing, count);
}

/// Amends a random market many times.
fn one_market(rt: &impl Abort, alloc: Global, dice: &mut Dice) {
    let schools = random_schools(rt, alloc, dice);
    amend_market(rt, alloc, dice, schools.as_slice());
}

#[test]
fn amended_markets_stand_as_settled_from_scratch(rt: HostRuntime) {
    let mut dice = Dice { state: 1962 };
    for _market in 0..750 {
        one_market(&rt, rt.alloc(), &mut dice);
    }
}
