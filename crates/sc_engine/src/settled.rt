//! What a whole round comes to.

ghost use Rattle.std.specs.Prelude.{◌≡◌, ℕ, ◌+◌, length, IfOk, OnOk};
ghost use Rattle.sc_papers.specs.Assignment.{assigned};
ghost use Rattle.sc_papers.specs.Log.{next_choice, IsSettled};
ghost use Rattle.sc_papers.specs.Market.{students_of};
ghost use Rattle.sc_papers.specs.Matching.{IsStudentOptimal};
ghost use Rattle.sc_papers.specs.Progress.{placed};
ghost use Rattle.sc_engine.specs.SettledPlaces.{AreSettledPlaces};
ghost use Rattle.sc_engine.specs.Fresh.{IsFresh};
ghost use Rattle.sc_engine.specs.InOrder.{IsInOrder};
ghost use Rattle.sc_engine.specs.Round.{view_of};
ghost use Rattle.sc_engine.specs.RoundView.{SettlesThese};

use crate::applicants::applicants_by_first_key;
use crate::round::Round;
use sc_papers::{Assignment, FlatPapers, Rejection, SchoolNo};
use sc_seats::{HeapRoll, Roll};
use sc_tallies::Tally;
use std::alloc::{AllocError, Global};

/// What the proposals came to.
#[derive(Drop)]
pub struct Settled {
    /// The rejections, in the order in which they happened.
    pub log: Vec<Rejection>,
    /// Who has which school.
    pub assignment: Assignment,
    /// How many proposals were made.
    pub proposals: u64,
}

/// What settling comes to, where nobody asks for the log.
#[derive(Drop)]
pub struct SettledPlaces {
    /// The school that each student has, if any, in the papers' order of entry.
    pub places: Vec<Option<SchoolNo>>,
    /// How many students have each school, and the last key among them, in the papers' order of entry.
    pub tallies: Vec<Tally>,
}

/// Enters all students in order of entry: the log is that of the first student's chain, then of the second's, and so on. It is
/// settled for the papers, and so its matching, which the assignment is, is the student-optimal stable matching (Gale
/// and Shapley 1962).
///
/// The only error is want of memory. The cost is two look-ups by number and an offer for each
/// proposal, which takes the logarithm of a school's seats, and memory is taken in proportion to the
/// students, the schools and the rejections.
pub fn settle(alloc: Global, papers: &FlatPapers) -> Result<Settled, AllocError>
    ensures settled { IfOk result (λ settled. IsSettled papers.now settled.log.items) }
    ensures in_order { IfOk result (λ settled. IsInOrder papers.now settled.log.items) }
    ensures matching { IfOk result (λ settled. (i : ℕ)
        → assigned settled.assignment i ≡ next_choice papers.now settled.log.items i) }
    ensures optimal { IfOk result (λ settled. IsStudentOptimal papers.now (assigned settled.assignment)) }
    ensures proposals { IfOk result (λ settled. settled.proposals
        ≡ length settled.log.items + placed papers.now (assigned settled.assignment)) }
{
    let mut round: Round<HeapRoll> = Round::start(alloc, papers)?;
    enter_all(&mut round, papers)?;
    let settled = round.into_settled(papers)?;
    Ok(settled)
}

/// Settles papers as `settle` does, to the same matching, and answers the school that each student has, if any, and the
/// tallies of the schools, which their rolls tell. The students enter by their priority class at their first choice, and
/// within a class by the first byte of their draw, so that fewer of them are put out again. The cost is two passes over the
/// students more; no log is kept, and no student is put into a table.
#[tactic(auto, using(crate::proofs::Settling::settled_places))]
pub fn settle_places(alloc: Global, papers: &FlatPapers) -> Result<SettledPlaces, AllocError>
    ensures { IfOk result (λ settled. AreSettledPlaces papers.now settled.places.items settled.tallies.items) }
{
    let mut round: Round<HeapRoll> = Round::start(alloc, papers)?;
    let applicants = applicants_by_first_key(alloc, papers)?;
    round.enter_together(papers, applicants.as_slice())?;
    drop(applicants);
    let places = round.into_places(papers)?;
    Ok(places)
}

/// Enters all students in order of entry into a round in which nobody has entered.
fn enter_all<R: Roll>(round: &mut Round<R>, papers: &FlatPapers) -> Result<(), AllocError>
    requires { IsFresh R.keys R.seats papers.now round.old }
    ensures settles { OnOk result (SettlesThese papers.now (view_of R.keys R.seats round.new) (students_of papers.now)) }
    ensures in_order { OnOk result (IsInOrder papers.now (view_of R.keys R.seats round.new).log) }
{
    for position in 0..papers.students_len() {
        let Some(student) = papers.student_at(position) else {
            unreachable!()
        };
        round.enter_one(papers, student)?;
    }
    Ok(())
}
