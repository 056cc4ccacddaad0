//! Clearings: what an opening and each amendment leave. A standing is written as each student's place, in
//! order of entry, and the log: `1:20 2:0 3:10 |(1,10)(2,20)(2,10)`, where 0 stands for no place.
//!
//! Each line of a script is a record and, after `=>`, what is wanted: the answer, how many proposals the
//! last settling then made, and the standing that is left.
use crate::comparing::{same, same_in};
use crate::given::{answered, expect_answered, expect_said, papers_of, school, student, wanted_of};
use sc_markets::{
    FIVE_STUDENTS, Files, MARKET_A, MARKET_B, MARKET_B_CONTINUING, TWO_STUDENTS, amendment,
    places_text, seen, standing,
};
use sc_papers::{FlatPapers, Refusal, Rejection};
use sc_repair::{Clearing, RegionList, region};
use std::alloc::{AllocError, Global};
use std::process::Abort;

/// The clearing of a market.
pub(super) fn open(rt: &impl Abort, alloc: Global, files: Files<'_>) -> Clearing {
    let papers = papers_of(rt, alloc, files);
    Clearing::open(alloc, papers).ok().expect(rt, "memory")
}

/// The clearing has this standing.
fn expect_standing(rt: &impl Abort, alloc: Global, clearing: &Clearing, want: &str) {
    expect_said(rt, "the standing", standing(alloc, clearing), want);
}

/// What the clearing answers to an amendment with the stamp that its record has, its refusal or `ok`, which is what
/// `check` says beforehand.
fn answer(
    rt: &impl Abort,
    alloc: Global,
    clearing: &mut Clearing,
    record: &str,
) -> Result<String, Refusal> {
    let stamped = seen(clearing, amendment(alloc, record)?);
    Ok(answered(rt, alloc, clearing, stamped, record)?)
}

/// What an amendment leaves, with the answer to it.
fn left_by(
    rt: &impl Abort,
    alloc: Global,
    clearing: &mut Clearing,
    record: &str,
) -> Result<String, Refusal> {
    let answer = answer(rt, alloc, clearing, record)?;
    let standing = standing(alloc, clearing)?;
    let proposals = clearing.proposals_last();
    Ok(format!(in alloc; "{answer}, {proposals}: {standing}")?)
}

/// The record leaves what is wanted.
fn expect_left(rt: &impl Abort, alloc: Global, clearing: &mut Clearing, record: &str, want: &str) {
    let left = left_by(rt, alloc, clearing, record);
    expect_answered(rt, record, left, want);
}

/// The record of a line leaves what is wanted.
fn expect_line(rt: &impl Abort, alloc: Global, clearing: &mut Clearing, line: &str) {
    let (record, want) = wanted_of(rt, line);
    expect_left(rt, alloc, clearing, record, want);
}

/// The clearing of the market has this standing, and the records leave what is wanted, one after another.
fn walk(rt: &impl Abort, alloc: Global, files: Files<'_>, opening: &str, script: &str) {
    let mut clearing = open(rt, alloc, files);
    expect_standing(rt, alloc, &clearing, opening);
    for line in script.lines() {
        expect_line(rt, alloc, &mut clearing, line);
    }
}

#[test]
fn market_a_and_a_seat_closed(rt: HostRuntime) {
    let script = "close,10,1 => ok, 4: 1:20 2:0 |(1,10)(2,20)(2,10)\n";
    walk(&rt, rt.alloc(), MARKET_A, "1:10 2:20 |", script);
}

#[test]
fn market_b_and_a_newcomer_until_the_newcomer_withdraws(rt: HostRuntime) {
    let script = "\
enter,3,1,10,10 => ok, 3: 1:20 2:0 3:10 |(1,10)(2,20)(2,10)
withdraw,3 => ok, 0: 1:10 2:20 |
";
    walk(&rt, rt.alloc(), MARKET_B, "1:10 2:20 |", script);
}

#[test]
fn a_seat_added(rt: HostRuntime) {
    let script = "\
enter,3,1,10,10 => ok, 3: 1:20 2:0 3:10 |(1,10)(2,20)(2,10)
add,10,1 => ok, 3: 1:10 2:20 3:10 |
";
    walk(&rt, rt.alloc(), MARKET_B, "1:10 2:20 |", script);
}

#[test]
fn free_seats_and_seat_limits(rt: HostRuntime) {
    let files = Files {
        schools: "10,0,2\n",
        students: "1,0,\n",
        lists: "1,10\n",
    };
    let script = "\
close,10,2 => ok, 1: 1:0 |(1,10)
close,10,1 => TooFewSeats, 1: 1:0 |(1,10)
add,10,10000 => ok, 1: 1:10 |
add,10,1 => TooManySeats, 1: 1:10 |
";
    walk(&rt, rt.alloc(), files, "1:10 |", script);
}

#[test]
fn a_correction_rewinds_to_the_start(rt: HostRuntime) {
    let opening = "1:10 2:0 3:0 4:20 5:20 |(2,10)(3,20)(2,20)";
    let script = "correct,1,0, => ok, 6: 1:0 2:10 3:0 4:20 5:20 |(1,10)(1,20)(3,20)\n";
    walk(&rt, rt.alloc(), FIVE_STUDENTS, opening, script);
}

/// The records, one after another, are accepted, and the last settling made so many proposals.
fn expect_proposals(rt: &impl Abort, alloc: Global, files: Files<'_>, records: &str, want: u64) {
    let mut clearing = open(rt, alloc, files);
    for record in records.lines() {
        let answer = answer(rt, alloc, &mut clearing, record);
        expect_answered(rt, record, answer, "ok");
    }
    same_in(rt, &clearing.proposals_last(), &want, records);
}

#[test]
fn counts_of_proposals(rt: HostRuntime) {
    let alloc = rt.alloc();
    expect_proposals(&rt, alloc, MARKET_B, "enter,3,1,10,10", 3);
    expect_proposals(&rt, alloc, MARKET_B, "enter,3,1,10,10\nwithdraw,3", 0);
    expect_proposals(&rt, alloc, MARKET_B, "enter,3,1,10,10\nadd,10,1", 3);
    expect_proposals(&rt, alloc, FIVE_STUDENTS, "correct,1,0,", 6);
}

/// Two schools with a seat each, and no student lists both. Students 2 and 3 have a sibling there.
const TWO_PARTS: Files<'static> = Files {
    schools: "10,0,1\n20,0,1\n",
    students: "1,0,\n2,0,20\n3,0,10\n4,0,\n",
    lists: "1,10\n2,20\n3,10\n4,20\n",
};

#[test]
fn newcomers_and_changes_in_two_parts_in_turn(rt: HostRuntime) {
    let script = "\
add,10,1 => ok, 2: 1:10 2:20 3:10 4:0 |(4,20)
enter,5,0,,20 => ok, 1: 1:10 2:20 3:10 4:0 5:0 |(4,20)(5,20)
add,20,2 => ok, 3: 1:10 2:20 3:10 4:20 5:20 |
enter,6,0,10,10 => ok, 1: 1:0 2:20 3:10 4:20 5:20 6:10 |(1,10)
rerank,1,10 => ok, 3: 1:0 2:20 3:10 4:20 5:20 6:10 |(1,10)
add,20,1 => ok, 3: 1:0 2:20 3:10 4:20 5:20 6:10 |(1,10)
enter,7,0,,20 => ok, 1: 1:0 2:20 3:10 4:20 5:20 6:10 7:20 |(1,10)
";
    walk(
        &rt,
        rt.alloc(),
        TWO_PARTS,
        "1:0 2:20 3:10 4:0 |(1,10)(4,20)",
        script,
    );
}

#[test]
fn an_amendment_settles_its_region_alone(rt: HostRuntime) {
    let script = "\
withdraw,3 => ok, 0: 1:10 2:20 4:0 |(4,20)
rerank,1,10 => ok, 1: 1:10 2:20 4:0 |(4,20)
add,20,1 => ok, 2: 1:10 2:20 4:20 |
enter,5,0,10,10 => ok, 1: 1:0 2:20 4:20 5:10 |(1,10)
";
    let opening = "1:0 2:20 3:10 4:0 |(1,10)(4,20)";
    walk(&rt, rt.alloc(), TWO_PARTS, opening, script);
}

/// Market B and school 30, which two other students choose.
const TWO_REGIONS: Files<'static> = Files {
    schools: "10,1,1\n20,0,1\n30,0,1\n",
    students: "1,0,20\n2,0,10\n6,0,\n7,0,\n",
    lists: "1,10 20\n2,20 10\n6,30\n7,30\n",
};

/// The numbers of a region's students, in its order.
fn numbers_text(alloc: Global, region: &RegionList) -> Result<String, AllocError> {
    let mut text = String::new(alloc);
    for position in 0..region.len() {
        if let Some(student) = region.at(position) {
            write!(text, "{} ", student.get())?;
        }
    }
    Ok(text)
}

/// The region of an amendment of the papers, before it is made.
fn region_of(alloc: Global, papers: &FlatPapers, record: &str) -> Result<RegionList, Refusal> {
    let amendment = amendment(alloc, record)?;
    region(alloc, papers, &amendment)
}

/// The numbers of its students.
fn region_text(alloc: Global, papers: &FlatPapers, record: &str) -> Result<String, Refusal> {
    let region = region_of(alloc, papers, record)?;
    let text = numbers_text(alloc, &region)?;
    Ok(text)
}

/// The amendment has a region of these students.
fn expect_region(rt: &impl Abort, alloc: Global, clearing: &Clearing, record: &str, want: &str) {
    let region = region_text(alloc, clearing.papers(), record);
    expect_answered(rt, record, region, want);
}

/// The students have these places, in order of entry.
fn expect_places(rt: &impl Abort, alloc: Global, clearing: &Clearing, want: &str) {
    expect_said(rt, "the places", places_text(alloc, clearing), want);
}

/// Student 3 enters beside a region apart, whose students keep what they have. From scratch the chains make seven
/// proposals.
fn expect_newcomer_beside_a_region(rt: &impl Abort, alloc: Global, clearing: &mut Clearing) {
    let record = "enter,3,1,10,10";
    expect_region(rt, alloc, clearing, record, "1 2 3 ");
    let answer = answer(rt, alloc, clearing, record);
    expect_answered(rt, record, answer, "ok");
    expect_places(rt, alloc, clearing, "1:20 2:0 6:0 7:30 3:10 ");
    assert!(rt; clearing.proposals_last() <= 5);
}

#[test]
fn a_region_apart(rt: HostRuntime) {
    let mut clearing = open(&rt, rt.alloc(), TWO_REGIONS);
    expect_places(&rt, rt.alloc(), &clearing, "1:10 2:20 6:0 7:30 ");
    expect_newcomer_beside_a_region(&rt, rt.alloc(), &mut clearing);
}

#[test]
fn rerank_in_its_region(rt: HostRuntime) {
    let mut clearing = open(&rt, rt.alloc(), TWO_REGIONS);
    expect_newcomer_beside_a_region(&rt, rt.alloc(), &mut clearing);
    let before = "1:20 2:0 6:0 7:30 3:10 |(6,30)(1,10)(2,20)(2,10)";
    expect_standing(&rt, rt.alloc(), &clearing, before);
    let record = "rerank,1,10 20";
    expect_region(&rt, rt.alloc(), &clearing, record, "1 2 3 ");
    let want = "ok, 5: 1:20 2:0 6:0 7:30 3:10 |(6,30)(1,10)(2,20)(2,10)";
    expect_left(&rt, rt.alloc(), &mut clearing, record, want);
}

#[test]
fn rerank_to_the_same(rt: HostRuntime) {
    let script = "\
enter,3,1,10,10 => ok, 3: 1:20 2:0 3:10 |(1,10)(2,20)(2,10)
rerank,1,10 20 => ok, 5: 1:20 2:0 3:10 |(1,10)(2,20)(2,10)
rerank,1,10 10 => SchoolTwice 10, 5: 1:20 2:0 3:10 |(1,10)(2,20)(2,10)
";
    walk(&rt, rt.alloc(), MARKET_B, "1:10 2:20 |", script);
}

/// A student goes and comes back, as these lines say, with the same key at school 1.
fn expect_the_same_key(
    rt: &impl Abort,
    alloc: Global,
    clearing: &mut Clearing,
    number: u32,
    [going, coming]: [&str; 2],
) {
    let (student, one_school) = (student(rt, number), school(rt, 1));
    let before = clearing.papers().key(student, one_school);
    assert!(rt; before.is_some());
    expect_line(rt, alloc, clearing, going);
    assert!(rt; clearing.papers().key(student, one_school).is_none());
    expect_line(rt, alloc, clearing, coming);
    assert!(rt; clearing.papers().key(student, one_school) == before);
}

#[test]
fn withdraw_and_return(rt: HostRuntime) {
    let mut clearing = open(&rt, rt.alloc(), TWO_STUDENTS);
    expect_standing(&rt, rt.alloc(), &clearing, "1:0 2:1 |(1,1)");
    let lines = [
        "withdraw,2 => ok, 0: 1:1 |",
        "enter,2,0,,1 => ok, 1: 1:0 2:1 |(1,1)",
    ];
    expect_the_same_key(&rt, rt.alloc(), &mut clearing, 2, lines);
    let lines = [
        "withdraw,1 => ok, 1: 2:1 |",
        "enter,1,0,,1 => ok, 1: 2:1 1:0 |(1,1)",
    ];
    expect_the_same_key(&rt, rt.alloc(), &mut clearing, 1, lines);
}

#[test]
fn either_order(rt: HostRuntime) {
    let newcomer_first = "\
enter,3,1,10,10 => ok, 3: 1:20 2:0 3:10 |(1,10)(2,20)(2,10)
add,20,1 => ok, 4: 1:20 2:20 3:10 |(1,10)
";
    walk(&rt, rt.alloc(), MARKET_B, "1:10 2:20 |", newcomer_first);
    let seat_first = "\
add,20,1 => ok, 2: 1:10 2:20 |
enter,3,1,10,10 => ok, 2: 1:20 2:20 3:10 |(1,10)
";
    walk(&rt, rt.alloc(), MARKET_B, "1:10 2:20 |", seat_first);
}

#[test]
fn a_continuing_student(rt: HostRuntime) {
    let files = Files {
        schools: "1,1,1\n",
        students: "1,1,,\n2,0,,1\n",
        lists: "1,1\n2,1\n",
    };
    walk(&rt, rt.alloc(), files, "1:0 2:1 |(1,1)", "");
}

#[test]
fn continuing_against_a_newcomer(rt: HostRuntime) {
    let script = "\
enter,3,1,10,10 => ok, 3: 1:20 2:10 3:0 |(1,10)(2,20)(3,10)
correct,2,0,10 => ok, 4: 1:20 2:0 3:10 |(1,10)(2,20)(2,10)
correct,2,0,10,77 => UnknownSchool 77, 4: 1:20 2:0 3:10 |(1,10)(2,20)(2,10)
enter,4,0,77,10,78 => UnknownSchool 77, 4: 1:20 2:0 3:10 |(1,10)(2,20)(2,10)
correct,2,0,10,10 => ok, 4: 1:20 2:10 3:0 |(1,10)(2,20)(3,10)
";
    walk(&rt, rt.alloc(), MARKET_B_CONTINUING, "1:10 2:20 |", script);
}

// The list of 21 schools has an unknown one, too: its length comes first.
#[test]
fn each_refusal_once(rt: HostRuntime) {
    let script = "\
enter,3,1,10,10 => ok, 3: 1:20 2:0 3:10 |(1,10)(2,20)(2,10)
enter,1,0,, => StudentExists, 3: 1:20 2:0 3:10 |(1,10)(2,20)(2,10)
enter,4,0,, => EmptyList, 3: 1:20 2:0 3:10 |(1,10)(2,20)(2,10)
enter,4,0,,77 1 2 3 4 5 6 7 8 9 10 11 12 13 14 15 16 17 18 19 20 => ListTooLong, 3: 1:20 2:0 3:10 |(1,10)(2,20)(2,10)
enter,4,0,,77 => UnknownSchool 77, 3: 1:20 2:0 3:10 |(1,10)(2,20)(2,10)
enter,4,0,,77 10 10 => UnknownSchool 77, 3: 1:20 2:0 3:10 |(1,10)(2,20)(2,10)
enter,4,0,77,10 10 => UnknownSchool 77, 3: 1:20 2:0 3:10 |(1,10)(2,20)(2,10)
enter,4,0,10 10,10 => SchoolTwice 10, 3: 1:20 2:0 3:10 |(1,10)(2,20)(2,10)
withdraw,99 => UnknownStudent, 3: 1:20 2:0 3:10 |(1,10)(2,20)(2,10)
add,77,1 => UnknownSchool 77, 3: 1:20 2:0 3:10 |(1,10)(2,20)(2,10)
";
    walk(&rt, rt.alloc(), MARKET_B, "1:10 2:20 |", script);
}

fn expect_assignment(rt: &impl Abort, clearing: &Clearing) {
    assert!(rt; clearing.places().at(0) == Some((student(rt, 2), school(rt, 1))));
    let places = clearing.assignment().expect(rt, "memory");
    assert!(rt; places.at(0) == clearing.places().at(0));
    drop(places);
}

fn expect_rejected(rt: &impl Abort, log: &[Rejection]) {
    let rejected = Rejection {
        student: student(rt, 1),
        school: school(rt, 1),
    };
    same(rt, &log, &[rejected].as_slice());
}

fn expect_log(rt: &impl Abort, clearing: &Clearing) {
    let log = clearing.log().expect(rt, "memory");
    assert!(rt; log.len() == clearing.log_len());
    expect_rejected(rt, log.as_slice());
    drop(log);
}

fn expect_read_back(rt: &impl Abort, clearing: &Clearing) {
    assert!(rt; clearing.place_of(student(rt, 1)) == Some(None));
    assert!(rt; clearing.place_of(student(rt, 3)).is_none());
    assert!(rt; clearing.held(school(rt, 1)) == Some(1));
    assert!(rt; clearing.held(school(rt, 2)).is_none());
    assert!(rt; clearing.proposals_last() == 2);
    expect_assignment(rt, clearing);
    expect_log(rt, clearing);
}

#[test]
fn one_seat_two_students(rt: HostRuntime) {
    let clearing = open(&rt, rt.alloc(), TWO_STUDENTS);
    expect_read_back(&rt, &clearing);
}
