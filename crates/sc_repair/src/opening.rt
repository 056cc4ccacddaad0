//! Settling papers from scratch.

ghost use Rattle.std.specs.Prelude.{◌≡◌, ◌+◌, List, [], ◌++◌, length, IfOk, OnOk};
ghost use Rattle.sc_papers.specs.Assignment.{assigned};
ghost use Rattle.sc_papers.specs.Market.{students_of};
ghost use Rattle.sc_papers.specs.Progress.{placed};
ghost use Rattle.sc_papers.specs.Restriction.{joined};
ghost use Rattle.sc_papers.specs.declared.rejection.Rejection.{Rejection};
ghost use Rattle.sc_checkpoint.specs.Chains.{logs_in, students_in, with_chain};
ghost use Rattle.sc_engine.specs.Fresh.{IsFresh};
ghost use Rattle.sc_engine.specs.Round.{view_of};
ghost use Rattle.sc_repair.specs.Changed.{standing_of};
ghost use Rattle.sc_repair.specs.Resumption.{without_leaver, GoesOn, HasComeIn, MayComeIn};
ghost use Rattle.sc_repair.specs.Standing.{IsCertified};

use crate::places::Places;
use sc_checkpoint::Segments;
use sc_engine::Round;
use sc_papers::{FlatPapers, StudentNo};
use sc_seats::Roll;
use std::alloc::{AllocError, Global};

/// Enters a student, who often stands at the guessed position, into a round, and puts the rejections of their chain at the end of the segments.
fn enter_next<R: Roll>(
    round: &mut Round<R>,
    papers: &FlatPapers,
    segments: &mut Segments,
    student: StudentNo,
    guess: usize,
) -> Result<(), AllocError>
    requires { MayComeIn R.keys R.seats papers.now round.old student }
    ensures entered { OnOk result (HasComeIn R.keys R.seats papers.now round.old round.new student) }
    ensures chain { OnOk result ((chain : List Rejection)
        × ((view_of R.keys R.seats round.new).log ≡ (view_of R.keys R.seats round.old).log ++ chain)
        × (segments.new ≡ with_chain segments.old student chain)) }
{
    let before = round.log().len();
    round.enter_near(papers, student, guess)?;
    segments.push(student, &round.log()[before..])?;
    Ok(())
}

/// Enters all students but one who leaves, if one does, in order of entry, into a round in which nothing has happened, and makes a
/// segment for each.
fn enter_all<R: Roll>(
    round: &mut Round<R>,
    papers: &FlatPapers,
    segments: &mut Segments,
    leaver: Option<StudentNo>,
) -> Result<(), AllocError>
    requires fresh { IsFresh R.keys R.seats papers.now round.old }
    requires none { segments.old ≡ [] }
    ensures { OnOk result (GoesOn papers.now leaver (view_of R.keys R.seats round.new)
        (students_in segments.new) (logs_in segments.new) (length papers.now.students)) }
{
    for position in 0..papers.students_len() {
        let Some(student) = papers.student_at(position) else {
            unreachable!()
        };
        if leaver != Some(student) {
            enter_next(round, papers, segments, student, position)?;
        }
    }
    Ok(())
}

/// What a settling of papers comes to: the places, the segments, and how many proposals it made.
#[derive(Drop)]
pub(crate) struct Opening {
    pub(crate) places: Places,
    pub(crate) segments: Segments,
    pub(crate) proposals: u64,
}

/// Settles papers, as they are without a student who leaves, if one does: each other one enters, in order of entry. The only error is
/// want of memory.
///
/// The cost is an offer for each proposal.
pub(crate) fn settle_all<R: Roll>(
    alloc: Global,
    papers: &FlatPapers,
    leaver: Option<StudentNo>,
) -> Result<Opening, AllocError>
    ensures theirs { IfOk result (λ made. students_in made.segments ≡ students_of (without_leaver papers.now leaver)) }
    ensures certified { IfOk result (λ made. IsCertified
        (standing_of (without_leaver papers.now leaver) made.places made.segments made.proposals)) }
    ensures proposals { IfOk result (λ made. made.proposals
        ≡ length (joined (logs_in made.segments)) + placed papers.now (assigned made.places)) }
{
    let mut segments = Segments::new(alloc);
    let mut round: Round<R> = Round::start(alloc, papers)?;
    enter_all(&mut round, papers, &mut segments, leaver)?;
    let assignment = round.assignment(papers)?;
    let places = Places::of(alloc, papers, assignment)?;
    let proposals = round.proposals();
    Ok(Opening {
        places,
        segments,
        proposals,
    })
}
