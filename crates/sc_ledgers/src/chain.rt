//! The chain of a turn, by ledgers.

ghost use Rattle.std.specs.Prelude.{◌≡◌, ◌<◌, ◌==◌, ◌+◌, ◌++◌, ℕ, All, Bool, List, [], Contains, IfOk, IfSome, OnOk, length, nat_eq, position, Some, true};
ghost use Rattle.sc_papers.specs.Market.{choices_of, student_at, students_of};
ghost use Rattle.sc_papers.specs.Restriction.{joined};
ghost use Rattle.sc_papers.specs.declared.rejection.Rejection.{Rejection};
ghost use Rattle.sc_ledgers.specs.Cohort.{cohort};
ghost use Rattle.sc_ledgers.specs.Course.{labels_of, AreTogether, Begins, Came, Course, Ended};
ghost use Rattle.sc_ledgers.specs.declared.ledger.Label.{Label};
ghost use Rattle.sc_ledgers.specs.declared.ledger.TheConstants.{NEVER};

use crate::ledger::{Answer, Ledger};
use sc_papers::{FlatPapers, MOST_STUDENTS, Rejection, Seats};
use std::alloc::AllocError;

/// The student in hand: where they stand in the order of entry, and the rank of the choice to which they propose.
#[derive(Clone, Copy)]
pub(crate) struct Hand {
    pub(crate) position: usize,
    pub(crate) rank: usize,
}

/// Lets the student in hand propose in a turn; a school that takes them notes it. The answer is the rejection that comes of it,
/// if one does.
fn propose(
    papers: &FlatPapers,
    ledgers: &mut Vec<Ledger>,
    turn: u32,
    hand: Hand,
) -> Result<Option<Rejection>, AllocError>
    requires few { turn < NEVER }
    requires within { hand.position < length papers.now.students }
    requires one_each { length ledgers.old.items ≡ length papers.now.schools }
    ensures one_each { length ledgers.new.items ≡ length papers.now.schools }
    ensures asked { IfOk result (λ out. IfSome out (λ e. Contains (choices_of papers.now (student_at papers.now hand.position)) e.school)) }
    ensures came { IfOk result (λ out. (enters : ℕ → Bool) (new : List (List Rejection)) (chain : List Rejection) (labels : ℕ → List Label)
        → Begins (cohort papers.now enters) new turn labels
        → Course (cohort papers.now enters) new turn (joined new ++ chain) (student_at papers.now hand.position) hand.rank labels
        (labels_of papers.now ledgers.old.items)
        → Came (cohort papers.now enters) new turn chain labels (labels_of papers.now ledgers.new.items) out) }
{
    let Some(proposal) = papers.proposal(hand.position, hand.rank) else {
        return Ok(None);
    };
    let at = proposal.position;
    let school = proposal.school;
    let key = proposal.key;
    let seats = papers.seats_at(at).unwrap_or(Seats::NONE);
    match ledgers[at].ask(seats.get() as usize, turn, &key) {
        Answer::Refused => {
            let student = key.student;
            Ok(Some(Rejection { student, school }))
        }
        Answer::Seated => {
            ledgers[at].note(key, turn)?;
            Ok(None)
        }
        Answer::PutsOut(last) => {
            ledgers[at].note(key, turn)?;
            let student = last.student;
            Ok(Some(Rejection { student, school }))
        }
    }
}

/// The student whom a rejection names, in hand: they propose to the choice after the school that rejected them.
pub(crate) fn hand_after(papers: &FlatPapers, entry: &Rejection) -> Hand
    requires listed { Contains (choices_of papers.now entry.now.student) entry.now.school }
    ensures student { position (nat_eq entry.now.student) (students_of papers.now) ≡ Some result.position }
    ensures rank { (rank : ℕ) × (position (λ t. t == entry.now.school) (choices_of papers.now entry.now.student) ≡ Some rank)
        × (result.rank ≡ rank + 1) }
{
    let Some(position) = papers.student_position(entry.student) else {
        unreachable!()
    };
    let Some(rank) = papers.choice_rank_at(position, entry.school) else {
        unreachable!()
    };
    // This call tells that the papers are within their limits, so that a rank can be counted.
    prove!(papers.students_len() <= MOST_STUDENTS);
    Hand {
        position,
        rank: rank + 1,
    }
}

/// Runs the chain of a turn, in which its student enters: whoever is put out proposes to the next choice, until a school
/// has room or the one in hand has no choice left. The chain's rejections are put at the end of a list, which is empty, and each
/// school notes whom it takes. After a refused growth the ledgers are to be given up.
pub fn run_chain(
    papers: &FlatPapers,
    ledgers: &mut Vec<Ledger>,
    turn: u32,
    chain: &mut Vec<Rejection>,
) -> Result<(), AllocError>
    requires one_each { length ledgers.old.items ≡ length papers.now.schools }
    requires none { chain.old.items ≡ [] }
    requires begins { (enters : ℕ → Bool) × (new : List (List Rejection)) × Begins (cohort papers.now enters) new turn (labels_of papers.now ledgers.old.items) }
    ensures one_each { length ledgers.new.items ≡ length papers.now.schools }
    ensures among { OnOk result ((enters : ℕ → Bool) (new : List (List Rejection)) (test inner : ℕ → Bool)
        → Begins (cohort papers.now enters) new turn (labels_of papers.now ledgers.old.items)
        → AreTogether papers.now test inner → test (student_at papers.now turn) ≡ true
        → All (λ e. test e.student ≡ true) chain.new.items) }
    ensures ended { OnOk result ((enters : ℕ → Bool) (new : List (List Rejection))
        → Begins (cohort papers.now enters) new turn (labels_of papers.now ledgers.old.items)
        → Ended (cohort papers.now enters) new turn chain.new.items (labels_of papers.now ledgers.old.items)
        (labels_of papers.now ledgers.new.items)) }
{
    // This call tells that the papers are within their limits, so that a turn is one of some label.
    prove!(papers.students_len() <= MOST_STUDENTS);
    let mut hand = Hand {
        position: turn as usize,
        rank: 0,
    };
    while let Some(entry) = propose(papers, ledgers, turn, hand)? {
        chain.push(entry)?;
        hand = hand_after(papers, &entry);
    }
    Ok(())
}
