//! Rounds that go on from where students stand.

ghost use Rattle.std.specs.Prelude.{◌≡◌, ◌<◌, ◌≤◌, length, true, false, Contains, slice_get, IfOk, OnOk, IfSome};
ghost use Rattle.sc_papers.specs.Market.{choices_of, is_student, seats_of, student_at};
ghost use Rattle.sc_papers.specs.Matching.{held};
ghost use Rattle.sc_engine.specs.RoundView.{Fits, StandsToo, has_entered, next_of};

use super::Round;
use super::ranks::position_near;
use super::rolls::offer_to;
use sc_checkpoint::Standing;
use sc_papers::{FlatPapers, LONGEST_LIST, MOST_STUDENTS, SchoolNo};
use sc_seats::{HeldKey, Roll};
use std::alloc::{AllocError, Global};

/// The rank of the school among the choices of the student at the position, or a rank after the last where there is no
/// school. The student's row is read, and no record.
fn rank_in(papers: &FlatPapers, at: usize, school: Option<SchoolNo>) -> usize
    requires student { at < length papers.now.students }
    requires listed { IfSome school (λ s. Contains (choices_of papers.now (student_at papers.now at)) s) }
    ensures rank { slice_get (choices_of papers.now (student_at papers.now at)) result ≡ school }
    ensures within { result ≤ LONGEST_LIST }
{
    // This call tells that the choices are few enough.
    prove!(papers.students_len() <= MOST_STUDENTS);
    let Some(school) = school else {
        return papers.classed_choices_at(at).len();
    };
    let Some(rank) = papers.choice_rank_at(at, school) else {
        unreachable!()
    };
    rank
}

impl<R: Roll> Round<R> {
    ghost use Rattle.sc_engine.specs.Fresh.{CanResume, CanTakeAll, IsResumed};
    ghost use Rattle.sc_engine.specs.Round.{view_of, is_spent};

    /// Puts the student at their next choice, and on the roll of that school, which has room. That is no
    /// proposal: it was made before.
    fn put(&mut self, papers: &FlatPapers, choice: Standing) -> Result<(), AllocError>
        requires fits { Fits papers.now (view_of R.keys R.seats self.old) }
        requires student { is_student papers.now choice.student ≡ true }
        requires absent { has_entered papers.now self.old.ranks choice.student ≡ false }
        requires listed { IfSome choice.next (λ s. Contains (choices_of papers.now choice.student) s) }
        requires room { IfSome choice.next (λ s. held papers.now
            (next_of papers.now self.old.ranks) s < seats_of papers.now s) }
        ensures stands { OnOk result (StandsToo papers.now (view_of R.keys R.seats self.old)
            (view_of R.keys R.seats self.new) choice.student choice.next) }
        ensures spent { is_spent self.new ≡ is_spent self.old }
    {
        // Mostly the students stand one after the other.
        let at = position_near(papers, choice.student, self.ranks.as_slice().len());
        let rank = rank_in(papers, at, choice.next);
        self.ranks.make_room(at)?;
        self.ranks.put(at, rank as u8);
        let Some(proposal) = papers.proposal(at, rank) else {
            return Ok(());
        };
        let offered = HeldKey::of(proposal.key, at);
        let out = offer_to(&mut self.rolls, proposal.position, offered)?;
        if out.is_some() {
            unreachable!()
        }
        Ok(())
    }

    /// A round in which the students of these next choices have entered and stand at them,
    /// with an empty log and no proposals counted, or the error of a refused growth. After each earlier
    /// log that leaves them there the round goes on as if it had made that log itself.
    ///
    /// It takes memory for each student and each school of the papers and for the seats held. The cost
    /// is a look at the student's row and an offer for each of them. A student who does not stand right after the one before
    /// in the order of entry is looked up by number.
    pub fn resume(
        alloc: Global,
        papers: &FlatPapers,
        next_choices: &[Standing],
    ) -> Result<Self, AllocError>
        requires { CanResume papers.now next_choices.now }
        ensures { IfOk result (IsResumed R.keys R.seats papers.now next_choices.now) }
    {
        let mut round = Round::start(alloc, papers)?;
        round.put_all(papers, next_choices)?;
        Ok(round)
    }

    /// Puts each student of these next choices at theirs, in a round in which nobody has entered.
    fn put_all(&mut self, papers: &FlatPapers, next_choices: &[Standing]) -> Result<(), AllocError>
        requires { CanTakeAll R.keys R.seats papers.now next_choices.now self.old }
        ensures { OnOk result (IsResumed R.keys R.seats papers.now next_choices.now self.new) }
    {
        for choice in next_choices {
            self.put(papers, *choice)?;
        }
        Ok(())
    }
}
