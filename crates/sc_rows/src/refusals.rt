//! What the papers refuse, and in which order it is tested. Each line of a script is a record and, after
//! `=>`, the answer that is wanted.
use crate::given::{amend, expect_said, papers_of, school, student, wanted_of};
use sc_markets::{MARKET_B, amendment};
use sc_papers::{
    Amendment, FlatPapers, Papers, Refusal, SchoolList, SchoolNo, SchoolRefusal, Seats, Seed,
    Stamp, Student, Zone,
};
use std::alloc::{AllocError, Global};
use std::process::Abort;

fn zero_papers(rt: &impl Abort, alloc: Global) -> Papers {
    let seed = Seed::from_hex(&[b'0'; 64]).expect(rt, "a seed");
    Papers::new(alloc, seed)
}

fn add_school(rt: &impl Abort, papers: &mut Papers, number: u32) -> Result<(), SchoolRefusal> {
    let zone = Zone::new(0).expect(rt, "a zone");
    let seats = Seats::new(1).expect(rt, "seats");
    papers.add_school(school(rt, number), zone, seats)
}

/// The papers answer so to one more school.
fn expect_school(
    rt: &impl Abort,
    papers: &mut Papers,
    number: u32,
    want: Result<(), SchoolRefusal>,
) {
    assert!(rt; add_school(rt, papers, number) == want);
}

fn fill_with_schools(rt: &impl Abort, papers: &mut Papers) {
    for number in 1..5001 {
        expect_school(rt, papers, number, Ok(()));
    }
    expect_school(rt, papers, 7, Err(SchoolRefusal::SchoolExists));
    expect_school(rt, papers, 5001, Err(SchoolRefusal::TooManySchools));
}

#[test]
fn constructors_refusals_of_schools(rt: HostRuntime) {
    let mut papers = zero_papers(&rt, rt.alloc());
    fill_with_schools(&rt, &mut papers);
    drop(papers);
    let mut closed = papers_of(&rt, rt.alloc(), MARKET_B);
    expect_school(&rt, &mut closed, 30, Err(SchoolRefusal::SchoolsClosed));
}

/// The entry of a student who lists school 10 alone.
fn entry(rt: &impl Abort, alloc: Global, number: u32) -> Result<Amendment, AllocError> {
    let mut choices = Vec::new(alloc);
    choices.push(school(rt, 10))?;
    Ok(Amendment::Enter {
        student: student(rt, number),
        zone: Zone::new(0).expect(rt, "a zone"),
        siblings: SchoolList::from_vec(Vec::new(alloc)),
        choices: SchoolList::from_vec(choices),
        continuing: None,
    })
}

/// The refusal of an amendment, which `check` and `apply` both answer.
fn refusal_of(rt: &impl Abort, papers: &mut Papers, amendment: Amendment) -> Option<Refusal> {
    let checked = papers.check(&amendment).err();
    let applied = papers.apply(amendment).err();
    assert!(rt; checked == applied);
    applied
}

fn fill_with_students(rt: &impl Abort, alloc: Global, papers: &mut Papers) {
    for number in 1..200_001 {
        let entry = entry(rt, alloc, number).expect(rt, "memory");
        papers.apply(entry).expect(rt, "room");
    }
    let one_more = entry(rt, alloc, 200_001).expect(rt, "memory");
    assert!(rt; refusal_of(rt, papers, one_more) == Some(Refusal::RosterFull));
}

#[test]
fn constructors_refusals_at_a_full_roster(rt: HostRuntime) {
    let mut papers = zero_papers(&rt, rt.alloc());
    expect_school(&rt, &mut papers, 10, Ok(()));
    fill_with_students(&rt, rt.alloc(), &mut papers);
}

/// What the papers answer to an amendment: its refusal, or `ok`.
fn answer(
    rt: &impl Abort,
    alloc: Global,
    papers: &mut Papers,
    record: &str,
) -> Result<String, AllocError> {
    let amendment = amendment(alloc, record).expect(rt, "an amendment");
    match refusal_of(rt, papers, amendment) {
        Some(refusal) => refusal.to_string(alloc),
        None => String::from_str(alloc, "ok"),
    }
}

/// How many seats a school of the papers has.
fn seats(rt: &impl Abort, papers: &FlatPapers, number: u32) -> u32 {
    let found = papers.school(school(rt, number)).expect(rt, "a school");
    found.seats.get()
}

/// The papers give the wanted answers, one after another.
fn expect_answers(rt: &impl Abort, alloc: Global, papers: &mut Papers, script: &str) {
    for line in script.lines() {
        let (record, want) = wanted_of(rt, line);
        expect_said(rt, record, answer(rt, alloc, papers, record), want);
    }
}

/// The papers have two students, and so many seats in school 10.
fn expect_two_students(rt: &impl Abort, papers: &FlatPapers, left: u32) {
    assert!(rt; papers.students_len() == 2);
    assert!(rt; seats(rt, papers, 10) == left);
    assert!(rt; seats(rt, papers, 20) == 1);
}

/// Market B gives the wanted answers, and then has two students, and so many seats in school 10.
fn expect_of_market_b(rt: &impl Abort, alloc: Global, script: &str, left: u32) {
    let mut papers = papers_of(rt, alloc, MARKET_B);
    expect_answers(rt, alloc, &mut papers, script);
    expect_two_students(rt, &papers, left);
}

/// A list's schools as a text: `10 20 `.
fn list_text(alloc: Global, list: &[SchoolNo]) -> Result<String, AllocError> {
    let mut text = String::new(alloc);
    for school in list {
        write!(text, "{} ", school.get())?;
    }
    Ok(text)
}

/// A student of the papers as a text: the zone, the siblings and the choices, and the school at which they continue, or 0.
fn student_text(alloc: Global, student: &Student) -> Result<String, AllocError> {
    let siblings = list_text(alloc, student.siblings.as_slice())?;
    let choices = list_text(alloc, student.choices.as_slice())?;
    let continuing = student.continuing.map_or(0, |school| school.get());
    let zone = student.zone.get();
    format!(in alloc; "{zone},{siblings},{choices},{continuing}")
}

/// The students of the papers, in order of entry, a line each.
pub(super) fn students_text(alloc: Global, papers: &Papers) -> Result<String, AllocError> {
    let mut text = String::new(alloc);
    for position in 0..papers.students_len() {
        if let Some(number) = papers.student_at(position) {
            if let Some(student) = papers.student(number) {
                let line = student_text(alloc, student)?;
                write!(text, "{},{line}\n", number.get())?;
            }
        }
    }
    Ok(text)
}

/// The papers are those of Market B with its newcomer.
fn expect_unchanged(rt: &impl Abort, alloc: Global, papers: &Papers) {
    let want = "1,0,20 ,10 20 ,0\n2,0,10 ,20 10 ,0\n3,1,10 ,10 ,0\n";
    expect_said(rt, "the students", students_text(alloc, papers), want);
    assert!(rt; papers.schools_len() == 2);
    assert!(rt; seats(rt, papers, 10) == 1);
    assert!(rt; seats(rt, papers, 20) == 1);
}

// The list of 21 schools begins with an unknown one: its length comes first.
#[test]
fn each_refusal_once(rt: HostRuntime) {
    let script = "\
withdraw,99 => UnknownStudent
enter,1,0,, => StudentExists
enter,4,0,, => EmptyList
enter,4,0,,77 1 2 3 4 5 6 7 8 9 10 11 12 13 14 15 16 17 18 19 20 => ListTooLong
enter,4,0,,77 => UnknownSchool 77
enter,4,0,,77 10 10 => UnknownSchool 77
enter,4,0,77,10 10 => UnknownSchool 77
enter,4,0,10 10,10 => SchoolTwice 10
add,77,1 => UnknownSchool 77
";
    let mut papers = papers_of(&rt, rt.alloc(), MARKET_B);
    amend(&rt, rt.alloc(), &mut papers, "enter,3,1,10,10");
    for line in script.lines() {
        expect_answers(&rt, rt.alloc(), &mut papers, line);
        expect_unchanged(&rt, rt.alloc(), &papers);
    }
}

/// The refusal has this text.
fn expect_text(rt: &impl Abort, alloc: Global, refusal: Refusal, want: &str) {
    expect_said(rt, want, refusal.to_string(alloc), want);
}

/// Those that name no number.
fn expect_texts(rt: &impl Abort, alloc: Global) {
    expect_text(rt, alloc, Refusal::Shape, "Shape");
    expect_text(rt, alloc, Refusal::UnknownStudent, "UnknownStudent");
    expect_text(rt, alloc, Refusal::StudentExists, "StudentExists");
    expect_text(rt, alloc, Refusal::EmptyList, "EmptyList");
    expect_text(rt, alloc, Refusal::ListTooLong, "ListTooLong");
    expect_text(rt, alloc, Refusal::RosterFull, "RosterFull");
    expect_text(rt, alloc, Refusal::TooManySeats, "TooManySeats");
    expect_text(rt, alloc, Refusal::TooFewSeats, "TooFewSeats");
    expect_text(rt, alloc, Refusal::OutOfMemory, "OutOfMemory");
    expect_text(rt, alloc, Refusal::Spent, "Spent");
}

#[test]
fn texts_of_refusals(rt: HostRuntime) {
    expect_texts(&rt, rt.alloc());
    let school = school(&rt, 99_999);
    let unknown = Refusal::UnknownSchool { school };
    expect_text(&rt, rt.alloc(), unknown, "UnknownSchool 99999");
    let twice = Refusal::SchoolTwice { school };
    expect_text(&rt, rt.alloc(), twice, "SchoolTwice 99999");
    let stamp = Stamp::new(999_999_999).expect(&rt, "a stamp");
    let stale = Refusal::Stale { stamp };
    expect_text(&rt, rt.alloc(), stale, "Stale 999999999");
}

/// What may keep a school out, and its text.
const TEXTS_OF_SCHOOLS: &[(SchoolRefusal, &str)] = &[
    (
        SchoolRefusal::SchoolExists,
        "the school is already in the papers",
    ),
    (
        SchoolRefusal::TooManySchools,
        "there are as many schools as there may be",
    ),
    (
        SchoolRefusal::SchoolsClosed,
        "no school is added once a student has entered",
    ),
    (SchoolRefusal::OutOfMemory, "out of memory"),
];

#[test]
fn texts_of_refusals_of_schools(rt: HostRuntime) {
    for (refusal, want) in TEXTS_OF_SCHOOLS {
        expect_said(&rt, want, refusal.to_string(rt.alloc()), want);
    }
}

// A list of 21 schools has an unknown one, too: its length comes first. A list of 20 is not too long.
#[test]
fn refusals_to_enter_in_their_order(rt: HostRuntime) {
    let script = "\
enter,1,0,, => StudentExists
enter,4,0,, => EmptyList
enter,4,0,,77 1 2 3 4 5 6 7 8 9 10 11 12 13 14 15 16 17 18 19 20 => ListTooLong
enter,4,0,77 1 2 3 4 5 6 7 8 9 10 11 12 13 14 15 16 17 18 19 20,10 => ListTooLong
enter,4,0,,77 1 2 3 4 5 6 7 8 9 10 11 12 13 14 15 16 17 18 19 => UnknownSchool 77
enter,4,0,,77 => UnknownSchool 77
enter,4,0,,77 10 10 => UnknownSchool 77
enter,4,0,77,10 10 => UnknownSchool 77
enter,4,0,77,10,78 => UnknownSchool 77
enter,4,0,10 10,10 10,77 => UnknownSchool 77
enter,4,0,10 10,10 => SchoolTwice 10
";
    expect_of_market_b(&rt, rt.alloc(), script, 1);
}

#[test]
fn refusals_to_rerank_in_their_order(rt: HostRuntime) {
    let script = "\
rerank,9, => UnknownStudent
rerank,1, => EmptyList
rerank,1,77 1 2 3 4 5 6 7 8 9 10 11 12 13 14 15 16 17 18 19 20 => ListTooLong
rerank,1,10 10 77 => UnknownSchool 77
rerank,1,10 20 10 => SchoolTwice 10
";
    expect_of_market_b(&rt, rt.alloc(), script, 1);
}

#[test]
fn refusals_to_correct_in_their_order(rt: HostRuntime) {
    let script = "\
correct,9,1,77 1 2 3 4 5 6 7 8 9 10 11 12 13 14 15 16 17 18 19 20 => UnknownStudent
correct,1,1,77 1 2 3 4 5 6 7 8 9 10 11 12 13 14 15 16 17 18 19 20 => ListTooLong
correct,1,1,10 10 77 => UnknownSchool 77
correct,1,1,77,78 => UnknownSchool 77
correct,1,1,20 20,77 => UnknownSchool 77
correct,1,1,20 20 => SchoolTwice 20
";
    expect_of_market_b(&rt, rt.alloc(), script, 1);
}

#[test]
fn refusals_of_the_unknown(rt: HostRuntime) {
    let script = "\
withdraw,9 => UnknownStudent
add,77,10000 => UnknownSchool 77
close,77,10000 => UnknownSchool 77
";
    expect_of_market_b(&rt, rt.alloc(), script, 1);
}

#[test]
fn free_seats_and_seat_limits(rt: HostRuntime) {
    let to_the_most = "add,10,9999 => ok\nadd,10,1 => TooManySeats\n";
    expect_of_market_b(&rt, rt.alloc(), to_the_most, 10_000);
    let to_none = "close,10,1 => ok\nclose,10,1 => TooFewSeats\n";
    expect_of_market_b(&rt, rt.alloc(), to_none, 0);
    let from_the_most = "add,10,9999 => ok\nclose,10,10000 => ok\nclose,10,1 => TooFewSeats\n";
    expect_of_market_b(&rt, rt.alloc(), from_the_most, 0);
}
