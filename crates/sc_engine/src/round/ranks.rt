//! Where the students of a round stand, by the ranks of their choices.

ghost use Rattle.std.specs.Prelude.{◌≡◌, ℕ, ◌<◌, true, None, Some, length, position, nat_eq, map, slice_index_or, IfOk, IsSome};
ghost use Rattle.sc_papers.specs.Assignment.{assigned};
ghost use Rattle.sc_papers.specs.Market.{is_student, students_of};
ghost use Rattle.sc_engine.specs.Proposals.{IsProposal};
ghost use Rattle.sc_engine.specs.RoundView.{next_of};

use sc_papers::{Assignment, FlatPapers, Proposal, SchoolNo, StudentNo};
use std::alloc::{AllocError, Global};

/// Each student's choice, in order of entry.
#[tactic(auto, using(crate::proofs::Settling::gives_all))]
pub(super) fn assignment_of(
    alloc: Global,
    ranks: &[Option<u8>],
    papers: &FlatPapers,
) -> Result<Assignment, AllocError>
    ensures { IfOk result (λ assignment. (i : ℕ) → assigned assignment i ≡ next_of papers.now ranks.now i) }
{
    let mut assignment = Assignment::with_room(alloc, papers.seed(), papers.students_len())?;
    for position in 0..papers.students_len() {
        let Some(student) = papers.student_at(position) else {
            unreachable!()
        };
        assignment.give(student, choice_at(ranks, papers, position))?;
    }
    Ok(assignment)
}

/// The choice at which each student stands, in order of entry.
pub(super) fn places_of(
    alloc: Global,
    ranks: &[Option<u8>],
    papers: &FlatPapers,
) -> Result<Vec<Option<SchoolNo>>, AllocError>
    ensures { IfOk result (λ places. places.items ≡ map (next_of papers.now ranks.now) (students_of papers.now)) }
{
    let mut places = Vec::with_capacity(alloc, papers.students_len())?;
    for position in 0..papers.students_len() {
        places.push(choice_at(ranks, papers, position))?;
    }
    Ok(places)
}

/// The rank of the choice at which the student at the position stands: none past the end.
fn rank_at(ranks: &[Option<u8>], at: usize) -> Option<usize>
    ensures rank { result ≡ slice_index_or ranks.now at None }
    ensures within { IsSome result → at < length ranks.now }
{
    match ranks.get(at) {
        Some(rank) => rank.map(usize::from),
        None => None,
    }
}

/// The choice at which the student at the position stands.
#[tactic(auto, using(crate::proofs::Tables::next_absent, crate::proofs::Tables::next_there))]
fn choice_at(ranks: &[Option<u8>], papers: &FlatPapers, at: usize) -> Option<SchoolNo>
    requires { at < length papers.now.students }
    ensures { (i : ℕ) → position (nat_eq i) (students_of papers.now) ≡ Some at
        → result ≡ next_of papers.now ranks.now i }
{
    let rank = rank_at(ranks, at)?;
    papers.choice_at(at, rank)
}

/// The choice at which the student at the position stands, with its position and the student's key there.
///
/// It is taken into the loop that asks for it, so that what it answers stays in registers.
#[inline(always)]
#[tactic(auto, using(crate::proofs::Tables::next_absent, crate::proofs::Proposing::proposes_nothing))]
pub(super) fn proposal_of(ranks: &[Option<u8>], papers: &FlatPapers, at: usize) -> Option<Proposal>
    requires { at < length papers.now.students }
    ensures { (i : ℕ) → position (nat_eq i) (students_of papers.now) ≡ Some at
        → IsProposal papers.now i (next_of papers.now ranks.now i) result }
{
    let rank = rank_at(ranks, at)?;
    papers.proposal(at, rank)
}

/// The choice at which the student stands.
#[tactic(auto, using(crate::proofs::Tables::next_nowhere))]
pub(super) fn next_in(
    ranks: &[Option<u8>],
    papers: &FlatPapers,
    student: StudentNo,
) -> Option<SchoolNo>
    ensures { result ≡ next_of papers.now ranks.now student }
{
    choice_at(ranks, papers, papers.student_position(student)?)
}

/// The position of a student of the papers, who often stands at the guess: then no number is looked up.
pub(super) fn position_near(papers: &FlatPapers, student: StudentNo, guess: usize) -> usize
    requires { is_student papers.now student ≡ true }
    ensures { position (nat_eq student) (students_of papers.now) ≡ Some result }
{
    let Some(at) = papers.student_position_near(student, guess) else {
        unreachable!()
    };
    at
}
