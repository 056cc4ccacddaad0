//! Random lists of stamped amendments of three desks, woven in many ways: each amendment is answered by the
//! stamp that stands, and weavings that leave the same papers leave the same report.
use crate::amendments::{STUDENTS, random_amendment, random_clearing};
use crate::markets::{Dice, random_schools, student_no};
use crate::plain::School;
use sc_markets::stamp_of;
use sc_papers::{Papers, Refusal, Stamp, Stamped, StudentNo};
use sc_repair::Clearing;
use sc_report::report_text;
use sc_stamps::record_of;
use std::alloc::{AllocError, Global};
use std::process::Abort;

/// Which of the desks a, b and c hands in its next amendment, one after the other.
const WEAVINGS: [&str; 12] = [
    "bcaccbcaabab",
    "bbabcccbaaac",
    "cabbcbbcaaca",
    "ababcaccbbac",
    "ccabbbabacca",
    "caaacbabbccb",
    "cacbcbcbbaaa",
    "cbcabacbabca",
    "aaabbabccbcc",
    "ccbaacbcaabb",
    "bacacbacbabc",
    "ccbaacbcbaab",
];

/// What a weaving leaves.
#[derive(Drop)]
struct Left {
    papers: String,
    report: Vec<u8>,
}

/// The dice of each desk, which make the same list in each weaving.
#[derive(Drop)]
struct Desks {
    a: Dice,
    b: Dice,
    c: Dice,
}

impl Desks {
    fn dice(&mut self, desk: u8) -> &mut Dice {
        match desk {
            b'a' => &mut self.a,
            b'b' => &mut self.b,
            _ => &mut self.c,
        }
    }
}

/// A desk's next amendment, with a stamp that may be old.
fn random_stamped(rt: &impl Abort, alloc: Global, dice: &mut Dice, schools: u32) -> Stamped {
    let amendment = random_amendment(rt, alloc, dice, schools);
    let number = dice.roll(4).saturating_sub(1);
    let stamp = Stamp::new(number).expect(rt, "a stamp");
    Stamped { stamp, amendment }
}

/// An amendment is accepted only with the stamp that stands, which a stale one is told.
fn expect_answer(rt: &impl Abort, answer: Result<(), Refusal>, carried: u32, stood: u32) {
    match answer {
        Ok(()) => assert!(rt; carried == stood),
        Err(refusal) => {
            let is_stale = refusal.code() == 12;
            assert!(rt; !is_stale || carried != stood);
            assert!(rt; !is_stale || refusal.number() == Some(stood));
        }
    }
}

/// Hands an amendment in. It is counted where it is accepted, and only there.
fn hand_in(rt: &impl Abort, clearing: &mut Clearing, stamped: Stamped) {
    let carried = stamped.stamp.get();
    let stood = stamp_of(clearing, record_of(&stamped.amendment)).get();
    let before = clearing.accepted().get();
    let answer = clearing.amend(stamped);
    let counted = clearing.accepted().get().saturating_sub(before);
    assert!(rt; counted == u32::from(answer.is_ok()));
    expect_answer(rt, answer, carried, stood);
}

/// Writes a student, if the papers have the student.
fn write_student(text: &mut String, papers: &Papers, student: StudentNo) -> Result<(), AllocError> {
    match papers.student(student) {
        Some(row) => write!(text, "{} {row:?} ", student.get()),
        None => Ok(()),
    }
}

/// Writes the schools in their order.
fn write_schools(text: &mut String, papers: &Papers) -> Result<(), AllocError> {
    for position in 0..papers.schools_len() {
        if let Some(school) = papers.school_at(position) {
            write!(text, "{:?} ", papers.school(school))?;
        }
    }
    Ok(())
}

/// The papers as a text that does not tell the order of entry.
fn papers_text(rt: &impl Abort, alloc: Global, papers: &Papers) -> String {
    let mut text = String::new(alloc);
    for below in 0..STUDENTS {
        let student = student_no(rt, below.saturating_add(1));
        write_student(&mut text, papers, student).expect(rt, "memory");
    }
    write_schools(&mut text, papers).expect(rt, "memory");
    text
}

/// Lets the desks amend the clearing in turn, as they are woven.
fn weave(
    rt: &impl Abort,
    alloc: Global,
    clearing: &mut Clearing,
    seed: u32,
    schools: u32,
    weaving: &str,
) {
    let mut desks = Desks {
        a: Dice {
            state: u64::from(seed),
        },
        b: Dice {
            state: u64::from(seed).wrapping_add(1962),
        },
        c: Dice {
            state: u64::from(seed).wrapping_add(1971),
        },
    };
    for desk in weaving.bytes() {
        let stamped = random_stamped(rt, alloc, desks.dice(desk), schools);
        hand_in(rt, clearing, stamped);
    }
}

/// The papers and the report of the clearing.
fn left_in(rt: &impl Abort, alloc: Global, clearing: &Clearing) -> Left {
    Left {
        papers: papers_text(rt, alloc, clearing.papers()),
        report: report_text(alloc, clearing).ok().expect(rt, "memory"),
    }
}

/// Opens the clearing of a market, and lets the desks amend it.
fn weave_market(
    rt: &impl Abort,
    alloc: Global,
    seed: u32,
    schools: &[School],
    weaving: &str,
) -> Left {
    let mut dice = Dice {
        state: u64::from(seed),
    };
    let count = (schools.len() % 1_000) as u32;
    let mut clearing = random_clearing(rt, alloc, &mut dice, schools);
    weave(rt, alloc, &mut clearing, seed, count, weaving);
    let left = left_in(rt, alloc, &clearing);
    drop(clearing);
    left
}

/// Whether two weavings leave the same papers.
fn same_papers(one: &Left, other: &Left) -> bool {
    one.papers.as_str() == other.papers.as_str()
}

/// How many of the earlier weavings left the same papers; each of them left the same report.
fn count_same(rt: &impl Abort, earlier: &[Left], left: &Left) -> u32 {
    let mut same: u32 = 0;
    for other in earlier {
        if same_papers(other, left) {
            assert!(rt; other.report.as_slice() == left.report.as_slice());
            same = same.saturating_add(1);
        }
    }
    same
}

/// Weaves the lists that the seed gives in each way, and counts the pairs that leave the same papers.
fn weave_each_way(rt: &impl Abort, alloc: Global, seed: u32, schools: &[School]) -> u32 {
    let mut earlier = Vec::new(alloc);
    let mut same: u32 = 0;
    for weaving in &WEAVINGS {
        let left = weave_market(rt, alloc, seed, schools, weaving);
        same = same.saturating_add(count_same(rt, earlier.as_slice(), &left));
        earlier.push(left).ok().expect(rt, "memory");
    }
    same
}

/// Draws the schools that the seed gives, and weaves the lists in each way.
fn weave_all(rt: &impl Abort, alloc: Global, seed: u32) -> u32 {
    let mut dice = Dice {
        state: u64::from(seed),
    };
    let schools = random_schools(rt, alloc, &mut dice);
    weave_each_way(rt, alloc, seed, schools.as_slice())
}

#[test]
fn weavings_of_three_desks(rt: HostRuntime) {
    let mut same: u32 = 0;
    for seed in 0..60 {
        same = same.saturating_add(weave_all(&rt, rt.alloc(), seed));
    }
    assert!(rt; same > 0);
}
