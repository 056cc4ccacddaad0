//! Amendments taken back, and an assignment whose students move.
ghost use Rattle.std.specs.Prelude.{◌≡◌};
ghost use Rattle.sc_papers.specs.TakingBack.{is_withdrawal};

use crate::given::{amendment_of, papers_of, school, student};
use sc_markets::{MARKET_B, assignment};
use sc_papers::{Amendment, Assignment, Papers};
use std::alloc::Global;
use std::process::Abort;

/// The papers are those of market B.
fn expect_market_b(rt: &impl Abort, papers: &Papers) {
    assert!(rt; papers.students_len() == 2);
    assert!(rt; papers.student_at(0) == Some(student(rt, 1)));
    assert!(rt; papers.seats_of(school(rt, 10)).get() == 1);
    let one = papers.student(student(rt, 1)).expect(rt, "student 1");
    assert!(rt; one.zone.get() == 0);
    assert!(rt; one.siblings.as_slice() == [school(rt, 20)].as_slice());
    assert!(rt; one.choices.as_slice() == [school(rt, 10), school(rt, 20)].as_slice());
    assert!(rt; one.continuing.is_none());
}

fn is_withdrawal(amendment: &Amendment) -> bool
    ensures { result ≡ is_withdrawal amendment.now }
{
    match amendment {
        Amendment::Withdraw { .. } => true,
        _ => false,
    }
}

/// Makes the amendment of a record and takes it back.
fn there_and_back(rt: &impl Abort, alloc: Global, papers: &mut Papers, record: &str) {
    let amendment = amendment_of(rt, alloc, record);
    assert!(rt; !is_withdrawal(&amendment));
    papers
        .check(&amendment)
        .expect(rt, "an amendment that is allowed");
    let back = papers.apply_reversibly(amendment).expect(rt, "memory");
    papers.take_back(back);
    expect_market_b(rt, papers);
}

fn each_there_and_back(rt: &impl Abort, alloc: Global, papers: &mut Papers) {
    there_and_back(rt, alloc, papers, "enter,3,1,10,10");
    there_and_back(rt, alloc, papers, "rerank,1,20");
    there_and_back(rt, alloc, papers, "correct,1,7,");
    there_and_back(rt, alloc, papers, "correct,1,7,,10");
    there_and_back(rt, alloc, papers, "add,10,1");
    there_and_back(rt, alloc, papers, "close,10,1");
}

#[test]
fn amendments_are_taken_back(rt: HostRuntime) {
    let mut papers = papers_of(&rt, rt.alloc(), MARKET_B);
    each_there_and_back(&rt, rt.alloc(), &mut papers);
}

fn move_about(rt: &impl Abort, assignment: &mut Assignment) {
    assignment.move_to(student(rt, 2), Some(school(rt, 30)));
    assert!(rt; assignment.get(student(rt, 2)) == Some(school(rt, 30)));
    assignment.move_to(student(rt, 2), None);
    assert!(rt; assignment.get(student(rt, 2)).is_none());
    assignment.move_to(student(rt, 2), Some(school(rt, 10)));
    assert!(rt; assignment.get(student(rt, 2)).is_none());
    assert!(rt; assignment.get(student(rt, 3)) == Some(school(rt, 10)));
    assignment.truncate(1);
    assert!(rt; assignment.len() == 1);
}

#[test]
fn students_of_an_assignment_move(rt: HostRuntime) {
    let mut assignment = assignment(rt.alloc(), "1,20\n2,10\n3,10\n").expect(&rt, "pairs");
    move_about(&rt, &mut assignment);
}
