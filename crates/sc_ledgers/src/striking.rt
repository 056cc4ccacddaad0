//! Striking what a turn left in the ledgers, before its chain runs anew.

ghost use Rattle.std.specs.Prelude.{◌≡◌, ◌<◌, ℕ, Contains, length, slice_get, Some};
ghost use Rattle.sc_papers.specs.Market.{choices_of, student_at};
ghost use Rattle.sc_papers.specs.declared.rejection.Rejection.{Rejection};
ghost use Rattle.sc_ledgers.specs.Course.{labels_of, AreGone, AreStruck, HasNone, IsAfter};

use crate::ledger::Ledger;
use sc_papers::{FlatPapers, MOST_STUDENTS, Rejection};

/// Strikes the label of a turn that the student at a position has at the choice of this rank, if there is one.
fn strike_at(papers: &FlatPapers, ledgers: &mut Vec<Ledger>, turn: u32, student: usize, rank: usize)
    requires within { student < length papers.now.students }
    requires one_each { length ledgers.old.items ≡ length papers.now.schools }
    ensures one_each { length ledgers.new.items ≡ length papers.now.schools }
    ensures struck { AreStruck turn (labels_of papers.now ledgers.old.items) (labels_of papers.now ledgers.new.items) }
    ensures none { (s : ℕ) → slice_get (choices_of papers.now (student_at papers.now student)) rank ≡ Some s
        → HasNone papers.now turn (student_at papers.now student) s (labels_of papers.now ledgers.new.items) }
{
    if let Some(proposal) = papers.proposal(student, rank) {
        ledgers[proposal.position].strike_of(&proposal.key, turn);
    }
}

/// Strikes the label of a turn that the student whom an entry names has at the choice after the school that rejected them, if there is
/// one.
fn strike_next(papers: &FlatPapers, ledgers: &mut Vec<Ledger>, turn: u32, entry: &Rejection)
    requires one_each { length ledgers.old.items ≡ length papers.now.schools }
    ensures one_each { length ledgers.new.items ≡ length papers.now.schools }
    ensures struck { AreStruck turn (labels_of papers.now ledgers.old.items) (labels_of papers.now ledgers.new.items) }
    ensures none { (s : ℕ) → IsAfter papers.now entry.now s
        → HasNone papers.now turn entry.now.student s (labels_of papers.now ledgers.new.items) }
{
    let Some(student) = papers.student_position(entry.student) else {
        return;
    };
    let Some(rank) = papers.choice_rank_at(student, entry.school) else {
        return;
    };
    // This call tells that the papers are within their limits, so that a rank can be counted.
    prove!(papers.students_len() <= MOST_STUDENTS);
    strike_at(papers, ledgers, turn, student, rank + 1);
}

/// Strikes the labels of a turn, of which these rejections came: those at its student's first choice, and at the choice after each school
/// that rejected somebody.
pub fn strike_turn(papers: &FlatPapers, ledgers: &mut Vec<Ledger>, turn: u32, segment: &[Rejection])
    requires within { turn < length papers.now.students }
    requires one_each { length ledgers.old.items ≡ length papers.now.schools }
    ensures one_each { length ledgers.new.items ≡ length papers.now.schools }
    ensures struck { AreStruck turn (labels_of papers.now ledgers.old.items) (labels_of papers.now ledgers.new.items) }
    ensures first { (s : ℕ) → slice_get (choices_of papers.now (student_at papers.now turn)) 0 ≡ Some s
        → HasNone papers.now turn (student_at papers.now turn) s (labels_of papers.now ledgers.new.items) }
    ensures later { (e : Rejection) (s : ℕ) → Contains segment.now e → IsAfter papers.now e s
        → HasNone papers.now turn e.student s (labels_of papers.now ledgers.new.items) }
{
    strike_at(papers, ledgers, turn, turn as usize, 0);
    for entry in segment {
        strike_next(papers, ledgers, turn, entry);
    }
}

/// Strikes every label of the student at a position, by the choices and the keys that the papers have for them. It takes no memory.
pub fn strike_student(papers: &FlatPapers, ledgers: &mut Vec<Ledger>, student: usize)
    requires within { student < length papers.now.students }
    requires one_each { length ledgers.old.items ≡ length papers.now.schools }
    ensures one_each { length ledgers.new.items ≡ length papers.now.schools }
    ensures gone { AreGone papers.now (student_at papers.now student) (length (choices_of papers.now (student_at papers.now student)))
        (labels_of papers.now ledgers.old.items) (labels_of papers.now ledgers.new.items) }
{
    // This call tells that the papers are within their limits, so that a rank can be counted.
    prove!(papers.students_len() <= MOST_STUDENTS);
    let mut rank = 0_usize;
    while let Some(proposal) = papers.proposal(student, rank) {
        ledgers[proposal.position].strike(&proposal.key);
        rank += 1;
    }
}
