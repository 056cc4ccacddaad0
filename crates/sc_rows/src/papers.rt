//! Papers: what they hold, the keys, and what each amendment changes.
use crate::comparing::same_in;
use crate::given::{amend, amendment_of, expect_said, papers_of, school, student};
use crate::refusals::students_text;
use sc_markets::{Files, MARKET_B, assignment};
use sc_papers::{Assignment, FlatPapers, Key, Papers, Refusal, Seed, Student};
use std::alloc::Global;
use std::process::Abort;

fn expect_schools(rt: &impl Abort, papers: &FlatPapers) {
    assert!(rt; papers.schools_len() == 2);
    assert!(rt; papers.school_at(1) == Some(school(rt, 20)));
    assert!(rt; papers.school_position(school(rt, 20)) == Some(1));
    let ten = papers.school(school(rt, 10)).expect(rt, "school 10");
    assert!(rt; ten.zone.get() == 1);
    let twenty = papers.seats_at(1).expect(rt, "the seats of school 20");
    assert!(rt; twenty.get() == 1);
    assert!(rt; papers.seats_at(2).is_none());
    assert!(rt; Seed::from_hex(&[b'0'; 64]) == Ok(papers.seed()));
}

/// The student chooses 20 before 10.
fn expect_choices(rt: &impl Abort, student: &Student) {
    assert!(rt; student.choices.as_slice() == [school(rt, 20), school(rt, 10)].as_slice());
}

fn expect_student_copied(rt: &impl Abort, alloc: Global, student: &Student) {
    let again = student.copy(alloc).expect(rt, "memory");
    expect_choices(rt, &again);
}

fn expect_students(rt: &impl Abort, alloc: Global, papers: &Papers) {
    assert!(rt; papers.students_len() == 2);
    assert!(rt; papers.student_at(0) == Some(student(rt, 1)));
    assert!(rt; papers.student_position(student(rt, 2)) == Some(1));
    let two = papers.student(student(rt, 2)).expect(rt, "student 2");
    expect_student_copied(rt, alloc, two);
    let second = papers.record_at(1).expect(rt, "the second student");
    assert!(rt; second.choices.as_slice() == two.choices.as_slice());
    assert!(rt; papers.record_at(2).is_none());
}

#[test]
fn schools_and_students_are_read_back(rt: HostRuntime) {
    let papers = papers_of(&rt, rt.alloc(), MARKET_B);
    expect_schools(&rt, &papers);
    expect_students(&rt, rt.alloc(), &papers);
}

/// The student at this position has this number, and has at school 10 a key of this class and draw.
fn expect_key(rt: &impl Abort, papers: &FlatPapers, at: usize, number: u32, class: u8, draw: u64) {
    let want = Some(Key {
        class,
        draw,
        student: student(rt, number),
    });
    assert!(rt; papers.key(student(rt, number), school(rt, 10)) == want);
    assert!(rt; papers.key_at(at, 0) == want);
    assert!(rt; papers.key_at(at, 1).is_none());
}

fn expect_keys(rt: &impl Abort, papers: &FlatPapers) {
    expect_key(rt, papers, 0, 1, 1, 0xe56a5d4028bd8653);
    expect_key(rt, papers, 1, 2, 2, 0xb819d2bd1aed8da0);
    expect_key(rt, papers, 2, 3, 3, 0xccef36a8c70d778b);
    expect_key(rt, papers, 3, 4, 4, 0x7c5941da8d485751);
    expect_key(rt, papers, 4, 5, 0, 0x3fe02477374ad8b8);
}

// The classes by the rule: sibling and zone, sibling, zone, none of these, and before them all the last
// student, who continues at the school. The draws are the lottery's under the zero seed.
#[test]
fn keys_by_class_draw_and_number(rt: HostRuntime) {
    let files = Files {
        schools: "10,1,1\n",
        students: "1,1,10,\n2,0,10,\n3,1,,\n4,2,,\n5,1,10,10\n",
        lists: "1,10\n2,10\n3,10\n4,10\n5,10\n",
    };
    let papers = papers_of(&rt, rt.alloc(), files);
    expect_keys(&rt, &papers);
}

fn leave_and_return(rt: &impl Abort, alloc: Global, papers: &mut Papers) {
    let before = papers.key(student(rt, 1), school(rt, 10));
    amend(rt, alloc, papers, "withdraw,1");
    assert!(rt; papers.students_len() == 1);
    assert!(rt; papers.key(student(rt, 1), school(rt, 10)).is_none());
    amend(rt, alloc, papers, "enter,1,0,20,10 20");
    assert!(rt; papers.student_at(0) == Some(student(rt, 2)));
    assert!(rt; papers.student_at(1) == Some(student(rt, 1)));
    assert!(rt; papers.key(student(rt, 1), school(rt, 10)) == before);
}

#[test]
fn withdraw_and_return(rt: HostRuntime) {
    let mut papers = papers_of(&rt, rt.alloc(), MARKET_B);
    leave_and_return(&rt, rt.alloc(), &mut papers);
}

fn expect_changed(rt: &impl Abort, copy: &Papers) {
    assert!(rt; copy.student_at(0) == Some(student(rt, 1)));
    let one = copy.student(student(rt, 1)).expect(rt, "student 1");
    assert!(rt; one.zone.get() == 7);
    assert!(rt; one.siblings.as_slice().is_empty());
    assert!(rt; one.choices.as_slice() == [school(rt, 20)].as_slice());
}

fn change_and_copy(rt: &impl Abort, alloc: Global, papers: &mut Papers) {
    amend(rt, alloc, papers, "rerank,1,20");
    amend(rt, alloc, papers, "correct,1,7,");
    let copy = papers.copy().expect(rt, "memory");
    expect_changed(rt, &copy);
    drop(copy);
}

#[test]
fn changes_keep_the_place_and_the_rest(rt: HostRuntime) {
    let mut papers = papers_of(&rt, rt.alloc(), MARKET_B);
    change_and_copy(&rt, rt.alloc(), &mut papers);
}

fn expect_assigned(rt: &impl Abort, copy: &Assignment) {
    assert!(rt; copy.len() == 2);
    assert!(rt; copy.get(student(rt, 2)) == Some(school(rt, 30)));
    assert!(rt; copy.at(0) == Some((student(rt, 2), school(rt, 30))));
    assert!(rt; copy.at(2).is_none());
}

fn expect_assigned_in_a_copy(rt: &impl Abort, assignment: &Assignment) {
    let copy = assignment.copy().expect(rt, "memory");
    expect_assigned(rt, &copy);
    drop(copy);
}

#[test]
fn an_assignment_is_a_map(rt: HostRuntime) {
    let assignment = assignment(rt.alloc(), "2,10\n1,20\n2,30\n").expect(&rt, "pairs");
    expect_assigned_in_a_copy(&rt, &assignment);
}

/// The students of the papers as a text, made again where memory was refused.
fn students_of(rt: &impl Abort, alloc: Global, papers: &Papers) -> String {
    match students_text(alloc, papers) {
        Ok(students) => students,
        Err(_) => students_text(alloc, papers).expect(rt, "memory"),
    }
}

/// The papers have these students, and make the amendment.
fn expect_kept(rt: &impl Abort, alloc: Global, papers: &mut Papers, before: &str, record: &str) {
    expect_said(rt, record, students_text(alloc, papers), before);
    let again = amendment_of(rt, alloc, record);
    same_in(rt, &papers.apply(again), &Ok(()), record);
}

/// Makes an amendment for which memory may be refused: if it is, the papers stay as they were, and the same
/// amendment then succeeds.
fn amend_or_keep(rt: &impl Abort, alloc: Global, papers: &mut Papers, record: &str) {
    let before = students_of(rt, alloc, papers);
    let first = amendment_of(rt, alloc, record);
    if papers.apply(first) == Err(Refusal::OutOfMemory) {
        expect_kept(rt, alloc, papers, before.as_str(), record);
    }
}

/// Makes each amendment of a script so.
fn amend_each_or_keep(rt: &impl Abort, alloc: Global, papers: &mut Papers, script: &str) {
    for record in script.lines() {
        amend_or_keep(rt, alloc, papers, record);
    }
}

// Run with each allocation refused in turn, this one sees want of memory from each amendment that
// takes any.
#[test]
fn papers_stay_where_memory_is_refused(rt: HostRuntime) {
    let mut papers = papers_of(&rt, rt.alloc(), MARKET_B);
    let script = "enter,3,1,10,10\nrerank,1,20\ncorrect,2,1,20\nwithdraw,1\nadd,10,1\nclose,10,1\n";
    amend_each_or_keep(&rt, rt.alloc(), &mut papers, script);
}
