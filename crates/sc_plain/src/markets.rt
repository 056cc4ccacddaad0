//! Small markets drawn at random, as papers and for the plain program. Where memory is refused these helpers end
//! the test: an answer handed on instead would have every owner's freeing proved once more for each call.
use crate::plain::{School, Student};
use sc_engine::Settled;
use sc_papers::{Amendment, Papers, SchoolList, SchoolNo, Seats, Seed, StudentNo, Zone};
use std::alloc::Global;
use std::process::Abort;

/// Dice that fall the same way in every run.
#[derive(Drop)]
pub struct Dice {
    pub state: u64,
}

impl Dice {
    /// A number below `sides`, by Knuth's linear congruential generator.
    pub fn roll(&mut self, sides: u32) -> u32 {
        self.state = self
            .state
            .wrapping_mul(6_364_136_223_846_793_005)
            .wrapping_add(1_442_695_040_888_963_407);
        let fallen = (self.state >> 33) as u32;
        if sides == 0 { 0 } else { fallen % sides }
    }
}

/// A student of a random market.
#[derive(Drop)]
pub struct Family {
    number: u32,
    zone: u32,
    siblings: Vec<u32>,
    choices: Vec<u32>,
    continuing: Option<u32>,
}

/// The draw of a student under the zero seed.
fn draw_of(number: u32) -> u64 {
    match number {
        1 => 0xe56a5d4028bd8653,
        2 => 0xb819d2bd1aed8da0,
        3 => 0xccef36a8c70d778b,
        _ => 0x7c5941da8d485751,
    }
}

/// Some of the schools numbered from 1, each once, in an order of their own.
pub fn some_schools(
    rt: &impl Abort,
    alloc: Global,
    dice: &mut Dice,
    schools: u32,
    tries: u32,
) -> Vec<u32> {
    let mut list = Vec::new(alloc);
    for _try in 0..tries {
        let school = dice.roll(schools).saturating_add(1);
        if !list.as_slice().contains(&school) {
            list.push(school).expect(rt, "memory");
        }
    }
    list
}

/// One of the schools numbered from 1, or more often none.
fn at_most_one_school(dice: &mut Dice, schools: u32) -> Option<u32> {
    match dice.roll(3) {
        0 => Some(dice.roll(schools).saturating_add(1)),
        _ => None,
    }
}

/// Up to three schools, numbered from 1, in one of two zones or in none, with no seat up to two, entering
/// from the first or from the last.
pub fn random_schools(rt: &impl Abort, alloc: Global, dice: &mut Dice) -> Vec<School> {
    let mut schools = Vec::new(alloc);
    for number in 1..dice.roll(3).saturating_add(2) {
        let school = School {
            number,
            zone: dice.roll(3),
            seats: dice.roll(3) as usize,
        };
        schools.push(school).expect(rt, "memory");
    }
    if dice.roll(2) == 0 {
        schools.as_mut_slice().reverse();
    }
    schools
}

/// The student of this number.
fn random_family(
    rt: &impl Abort,
    alloc: Global,
    dice: &mut Dice,
    schools: u32,
    number: u32,
) -> Family {
    let siblings = dice.roll(2);
    let choices = dice.roll(4).saturating_add(1);
    Family {
        number,
        zone: dice.roll(3),
        siblings: some_schools(rt, alloc, dice, schools, siblings),
        choices: some_schools(rt, alloc, dice, schools, choices),
        continuing: at_most_one_school(dice, schools),
    }
}

/// Up to four students, numbered from 1, entering from the first or from the last.
pub fn random_families(
    rt: &impl Abort,
    alloc: Global,
    dice: &mut Dice,
    schools: u32,
) -> Vec<Family> {
    let mut families = Vec::new(alloc);
    for number in 1..dice.roll(4).saturating_add(2) {
        let family = random_family(rt, alloc, dice, schools, number);
        families.push(family).ok().expect(rt, "memory");
    }
    if dice.roll(2) == 0 {
        families.as_mut_slice().reverse();
    }
    families
}

pub fn student_no(rt: &impl Abort, number: u32) -> StudentNo {
    StudentNo::new(number).expect(rt, "a student")
}

pub fn school_no(rt: &impl Abort, number: u32) -> SchoolNo {
    SchoolNo::new(number).expect(rt, "a school")
}

/// The number of a school, if there is one.
fn school_or_none(rt: &impl Abort, number: Option<u32>) -> Option<SchoolNo> {
    match number {
        Some(number) => Some(school_no(rt, number)),
        None => None,
    }
}

pub fn zone(rt: &impl Abort, number: u32) -> Zone {
    Zone::new(number).expect(rt, "a zone")
}

pub fn list_of(rt: &impl Abort, alloc: Global, numbers: &[u32]) -> SchoolList {
    let mut schools = Vec::new(alloc);
    for number in numbers {
        schools.push(school_no(rt, *number)).expect(rt, "memory");
    }
    SchoolList::from_vec(schools)
}

/// Adds the schools to papers without students.
fn add_schools(rt: &impl Abort, papers: &mut Papers, schools: &[School]) {
    for school in schools {
        let seats = Seats::new((school.seats % 10_001) as u32).expect(rt, "seats");
        let added = papers.add_school(school_no(rt, school.number), zone(rt, school.zone), seats);
        added.expect(rt, "a school that can be added");
    }
}

/// The amendment by which a family enters.
fn entry_of(rt: &impl Abort, alloc: Global, family: &Family) -> Amendment {
    Amendment::Enter {
        student: student_no(rt, family.number),
        zone: zone(rt, family.zone),
        siblings: list_of(rt, alloc, family.siblings.as_slice()),
        choices: list_of(rt, alloc, family.choices.as_slice()),
        continuing: school_or_none(rt, family.continuing),
    }
}

fn fill(
    rt: &impl Abort,
    alloc: Global,
    papers: &mut Papers,
    schools: &[School],
    families: &[Family],
) {
    add_schools(rt, papers, schools);
    for family in families {
        let entered = papers.apply(entry_of(rt, alloc, family));
        entered.expect(rt, "a student who can enter");
    }
}

/// The seed of 64 zeros.
fn zero_seed(rt: &impl Abort) -> Seed {
    Seed::from_hex(&[b'0'; 64]).ok().expect(rt, "a seed")
}

/// The market as papers under the zero seed.
pub fn papers_of(
    rt: &impl Abort,
    alloc: Global,
    schools: &[School],
    families: &[Family],
) -> Papers {
    let mut papers = Papers::new(alloc, zero_seed(rt));
    fill(rt, alloc, &mut papers, schools, families);
    papers
}

/// A student of the market, for the plain program.
fn plain_student(family: &Family) -> Student<'_> {
    Student {
        number: family.number,
        draw: draw_of(family.number),
        zone: family.zone,
        siblings: family.siblings.as_slice(),
        choices: family.choices.as_slice(),
        continuing: family.continuing,
    }
}

/// The students of the market, for the plain program.
pub fn plain_students<'a>(
    rt: &impl Abort,
    alloc: Global,
    families: &'a [Family],
) -> Vec<Student<'a>> {
    let mut students = Vec::new(alloc);
    for family in families {
        students.push(plain_student(family)).expect(rt, "memory");
    }
    students
}

/// The rejections of a log in plain numbers.
pub fn plain_log(rt: &impl Abort, alloc: Global, settled: &Settled) -> Vec<(u32, u32)> {
    let mut log = Vec::new(alloc);
    for entry in &settled.log {
        let pair = (entry.student.get(), entry.school.get());
        log.push(pair).expect(rt, "memory");
    }
    log
}
