use crate::comparing::{same, same_in};
use crate::plain::{Market, Matching, School, Student};
use std::alloc::Global;
use std::process::Abort;

/// A student of a worked row, with the draw of the zero seed.
fn student<'a>(number: u32, zone: u32, siblings: &'a [u32], choices: &'a [u32]) -> Student<'a> {
    let draw = match number {
        1 => 0xe56a5d4028bd8653,
        2 => 0xb819d2bd1aed8da0,
        3 => 0xccef36a8c70d778b,
        4 => 0x7c5941da8d485751,
        _ => 0x3fe02477374ad8b8,
    };
    Student {
        number,
        draw,
        zone,
        siblings,
        choices,
        continuing: None,
    }
}

/// The same student, who continues at a school.
fn continuing<'a>(student: Student<'a>, school: u32) -> Student<'a> {
    Student {
        continuing: Some(school),
        ..student
    }
}

fn school(number: u32, zone: u32, seats: usize) -> School {
    School {
        number,
        zone,
        seats,
    }
}

/// Among the stable matchings, the best one is the one wanted, and no other.
fn expect_best(
    rt: &impl Abort,
    row: &str,
    market: &Market,
    stable: &[Matching],
    want: &[Option<u32>],
) {
    let mut found = 0_usize;
    for matching in stable {
        if market.is_best(matching, stable) {
            same_in(rt, &matching.as_slice(), &want, row);
            found = found.saturating_add(1);
        }
    }
    same_in(rt, &found, &1, row);
}

/// Among all matchings, the student-optimal one is the one wanted, and no other.
fn expect_optimal(
    rt: &impl Abort,
    alloc: Global,
    row: &str,
    market: &Market,
    want: &[Option<u32>],
) {
    let stable = market.stable_matchings(rt, alloc);
    expect_best(rt, row, market, &stable, want);
    drop(stable);
}

/// The same for one school and these students.
fn expect_at_one_school(
    rt: &impl Abort,
    alloc: Global,
    row: &str,
    school: School,
    students: &[Student],
    want: &[Option<u32>],
) {
    let market = Market {
        schools: &[school],
        students,
    };
    expect_optimal(rt, alloc, row, &market, want);
}

#[test]
fn one_school(rt: HostRuntime) {
    let alloc = rt.alloc();
    let students = [student(1, 0, &[], &[1]), student(2, 0, &[], &[1])];
    let zoned = [student(1, 1, &[], &[1]), student(2, 0, &[], &[1])];
    let continuing = [zoned[0], continuing(zoned[1], 1)];
    let (first, second) = ([Some(1), None], [None, Some(1)]);
    let row = "one seat, two students";
    expect_at_one_school(&rt, alloc, row, school(1, 0, 1), &students, &second);
    let row = "zone before draw";
    expect_at_one_school(&rt, alloc, row, school(1, 1, 1), &zoned, &first);
    let row = "a continuing student";
    expect_at_one_school(&rt, alloc, row, school(1, 1, 1), &continuing, &second);
    let alone = &students[..1];
    expect_at_one_school(&rt, alloc, "free seats", school(1, 0, 2), alone, &[Some(1)]);
    expect_at_one_school(&rt, alloc, "seat limits", school(1, 0, 0), alone, &[None]);
}

/// The students of Market A, and the newcomer of Market B.
fn newcomers() -> [Student<'static>; 3] {
    [
        student(1, 0, &[20], &[10, 20]),
        student(2, 0, &[10], &[20, 10]),
        student(3, 1, &[10], &[10]),
    ]
}

/// For each row the zone of school 10, the seats of both schools, and what the students have, with the newcomer
/// or without.
const MARKETS_A_AND_B: [(&str, u32, usize, usize, &[Option<u32>]); 7] = [
    ("Market A", 0, 1, 1, &[Some(10), Some(20)]),
    ("Market A, and a seat closed", 0, 0, 1, &[Some(20), None]),
    ("Market B", 1, 1, 1, &[Some(10), Some(20)]),
    (
        "Market B, and a newcomer",
        1,
        1,
        1,
        &[Some(20), None, Some(10)],
    ),
    ("the newcomer withdraws", 1, 1, 1, &[Some(10), Some(20)]),
    ("a seat added", 1, 2, 1, &[Some(10), Some(20), Some(10)]),
    ("either order", 1, 1, 2, &[Some(20), Some(20), Some(10)]),
];

/// The first of the newcomers have what is wanted at these schools.
fn expect_newcomers(
    rt: &impl Abort,
    alloc: Global,
    row: &str,
    schools: &[School],
    want: &[Option<u32>],
) {
    let students = newcomers();
    let market = Market {
        schools,
        students: &students[..want.len().min(3)],
    };
    expect_optimal(rt, alloc, row, &market, want);
}

#[test]
fn markets_a_and_b(rt: HostRuntime) {
    for (row, zone, seats_10, seats_20, want) in &MARKETS_A_AND_B {
        let schools = [school(10, *zone, *seats_10), school(20, 0, *seats_20)];
        expect_newcomers(&rt, rt.alloc(), row, &schools, want);
    }
}

#[test]
fn continuing_against_a_newcomer(rt: HostRuntime) {
    let alloc = rt.alloc();
    let schools = [school(10, 1, 1), school(20, 0, 1)];
    let [one, two, three] = newcomers();
    let students = [one, continuing(two, 10), three];
    let opening = Market {
        schools: &schools,
        students: &students[..2],
    };
    expect_optimal(&rt, alloc, "opening", &opening, &[Some(10), Some(20)]);
    let market = Market {
        schools: &schools,
        students: &students,
    };
    let want = [Some(20), Some(10), None];
    expect_optimal(&rt, alloc, "a newcomer", &market, &want);
    assert!(rt; market.is_settled(&rt, alloc, &[(1, 10), (2, 20), (3, 10)]));
}

/// The log is settled, and gives the matching.
fn expect_settled(
    rt: &impl Abort,
    alloc: Global,
    row: &str,
    market: &Market,
    log: &[(u32, u32)],
    want: &[Option<u32>],
) {
    assert!(rt; market.is_settled(rt, alloc, log), "{row}");
    let matching = market.matching_of(rt, alloc, log);
    same_in(rt, &matching.as_slice(), &want, row);
    drop(matching);
}

/// Five students, of whom the first is in this zone and the others in none.
fn five_students(zone: u32) -> [Student<'static>; 5] {
    [
        student(1, zone, &[], &[10, 20]),
        student(2, 0, &[], &[10, 20]),
        student(3, 0, &[], &[20]),
        student(4, 0, &[], &[20, 10]),
        student(5, 0, &[], &[20]),
    ]
}

/// With student 1 in this zone the matching is the optimal one, and the log the one that is settled. The opening's
/// log is bad from here on.
fn expect_correction(
    rt: &impl Abort,
    alloc: Global,
    zone: u32,
    want: &[Option<u32>],
    log: &[(u32, u32)],
    bad: Option<usize>,
) {
    let row = if zone == 0 { "corrected" } else { "opening" };
    let schools = [school(10, 1, 1), school(20, 0, 2)];
    let students = five_students(zone);
    let market = Market {
        schools: &schools,
        students: &students,
    };
    expect_optimal(rt, alloc, row, &market, want);
    expect_settled(rt, alloc, row, &market, log, want);
    same_in(rt, &market.first_bad_entry(&OPENING_LOG), &bad, row);
}

const OPENING_LOG: [(u32, u32); 3] = [(2, 10), (3, 20), (2, 20)];

#[test]
fn a_correction_rewinds_to_the_start(rt: HostRuntime) {
    let alloc = rt.alloc();
    let want = [Some(10), None, None, Some(20), Some(20)];
    expect_correction(&rt, alloc, 1, &want, &OPENING_LOG, None);
    let want = [None, Some(10), None, Some(20), Some(20)];
    let log = [(1, 10), (1, 20), (3, 20)];
    expect_correction(&rt, alloc, 0, &want, &log, Some(0));
}

#[test]
fn logs_of_market_b(rt: HostRuntime) {
    let alloc = rt.alloc();
    let schools = [school(10, 1, 1), school(20, 0, 1)];
    let students = newcomers();
    let market = Market {
        schools: &schools,
        students: &students,
    };
    let log = [(1, 10), (2, 20), (2, 10)];
    let want = [Some(20), None, Some(10)];
    expect_settled(&rt, alloc, "Market B", &market, &log, &want);
    expect_bad_entry(&rt, &market, &[(2, 10), (1, 10), (2, 20)], Some(0));
    expect_bad_entry(&rt, &market, &[(1, 10), (2, 10), (2, 20)], Some(1));
    expect_bad_entry(&rt, &market, &[], None);
    assert!(rt; !market.is_settled(&rt, alloc, &[]));
}

/// The log's first bad entry is the one at this place.
fn expect_bad_entry(rt: &impl Abort, market: &Market, log: &[(u32, u32)], want: Option<usize>) {
    same(rt, &market.first_bad_entry(log), &want);
}

/// The matching is stable, and there is a better one.
fn expect_not_the_best(rt: &impl Abort, alloc: Global, market: &Market, wrong: &[Option<u32>]) {
    let stable = market.stable_matchings(rt, alloc);
    assert!(rt; market.is_stable(wrong));
    assert!(rt; !market.is_best(wrong, &stable));
    drop(stable);
}

#[test]
fn stable_and_not_the_best(rt: HostRuntime) {
    let students = newcomers();
    for zone in 0..2 {
        let schools = [school(10, zone, 1), school(20, 0, 1)];
        let market = Market {
            schools: &schools,
            students: &students[..2],
        };
        expect_not_the_best(&rt, rt.alloc(), &market, &[Some(20), Some(10)]);
    }
}

/// Matchings of Market B with the newcomer, and whether each is stable.
const VERDICTS: [(&str, [Option<u32>; 3], bool); 5] = [
    ("settled", [Some(20), None, Some(10)], true),
    ("nothing", [None, None, None], false),
    ("blocked by the newcomer", [Some(20), Some(10), None], false),
    ("over its seats", [Some(10), None, Some(10)], false),
    ("not listed", [None, None, Some(20)], false),
];

/// Whether the matching is stable is what is wanted.
fn expect_verdict(
    rt: &impl Abort,
    row: &str,
    market: &Market,
    matching: &[Option<u32>],
    want: bool,
) {
    same_in(rt, &market.is_stable(matching), &want, row);
}

#[test]
fn stability_verdicts(rt: HostRuntime) {
    let schools = [school(10, 1, 1), school(20, 0, 1)];
    let students = newcomers();
    let market = Market {
        schools: &schools,
        students: &students,
    };
    for (row, matching, want) in &VERDICTS {
        expect_verdict(&rt, row, &market, matching, *want);
    }
}
