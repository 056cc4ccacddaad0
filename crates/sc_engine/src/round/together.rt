//! Rounds that everybody enters at once, several proposing one after the other.

ghost use Rattle.std.specs.Prelude.{◌≡◌, ℕ, Bool, ◌<◌, ◌≤◌, ◌∷◌, ◌++◌, [], false, All, List, None, Some, length, slice_get, slice_index_or, true, OnErr, OnOk};
ghost use Rattle.sc_papers.specs.Market.{choices_of, student_at, students_of};
ghost use Rattle.sc_papers.specs.declared.rejection.Rejection.{Rejection as Entry};
ghost use Rattle.sc_engine.specs.Applicants.{numbers_of, AreEverybody, IsWithin};
ghost use Rattle.sc_engine.specs.Fresh.{IsFresh};
ghost use Rattle.sc_engine.specs.Proposals.{IsProposal};
ghost use Rattle.sc_engine.specs.RoundView.{next_of, choices_left, HaveEntered, IsAway, IsAwayAt};
ghost use Rattle.sc_engine.specs.Together.{entries_of, moved_to, PassesUnnoted, SomeWait, Waits};

use super::Round;
use super::chains::PutOut;
use super::rolls::is_refused;
use crate::rank_table::rank_or_none;
use sc_papers::{ClassedChoice, FlatPapers, Proposal};
use sc_seats::Roll;
use std::alloc::AllocError;
use std::collections::VecDeque;

/// How many rows are asked for at once.
const AHEAD: usize = 16;

/// How many may wait before they propose.
const MOST_WAITING: usize = 32;

/// Asks for the rows of the next of these students, from a turn on, so that the waits of many for far memory pass side by
/// side: to read the choice at which they stand, their first, brings near what their proposals read. Nobody looks at what was
/// read: it goes into a list, since a read that goes nowhere is none.
fn ask_for_applicants(
    papers: &FlatPapers,
    applicants: &[u32],
    turn: usize,
    read: &mut Vec<ClassedChoice>,
) -> Result<(), AllocError>
    requires within { All (IsWithin papers.now) applicants.now }
    requires turn { turn < length applicants.now }
{
    read.clear();
    let end = applicants.len().min(turn + AHEAD);
    for applicant in &applicants[turn..end] {
        if let Some(choice) = papers.classed_choices_at(*applicant as usize).first() {
            read.push(*choice)?;
        }
    }
    Ok(())
}

/// The same for the first of those who have been put out, where they may stand in the order of entry, at the ranks at which
/// whoever stands there does.
fn ask_for_put_out(
    papers: &FlatPapers,
    ranks: &[Option<u8>],
    waiting: &VecDeque<PutOut>,
    read: &mut Vec<ClassedChoice>,
) -> Result<(), AllocError> {
    read.clear();
    for out in waiting.iter().take(AHEAD) {
        if let Some(Some(rank)) = ranks.get(out.guess)
            && out.guess < papers.students_len()
            && let Some(choice) = papers.classed_choices_at(out.guess).get(usize::from(*rank))
        {
            read.push(*choice)?;
        }
    }
    Ok(())
}

impl<R: Roll> Round<R> {
    ghost use Rattle.sc_engine.specs.Round.{view_of, is_spent};

    /// The rank of the first choice of the student at the position, who is away, from the rank at which they stand on, whose
    /// school does not refuse them at once, and their proposal there, if there is one. No roll changes.
    fn first_open(&self, papers: &FlatPapers, proposer: usize, from: u8) -> (u8, Option<Proposal>)
        requires away { IsAwayAt papers.now (view_of R.keys R.seats self.now) proposer }
        requires stands { slice_index_or self.now.ranks proposer None ≡ Some from }
        ensures passed { (away : ℕ → Bool)
            → IsAway papers.now (view_of R.keys R.seats self.now) away (student_at papers.now proposer)
            → PassesUnnoted papers.now (view_of R.keys R.seats self.now) away
            (moved_to (view_of R.keys R.seats self.now) proposer result.0) (student_at papers.now proposer) }
        ensures next { IsProposal papers.now (student_at papers.now proposer)
            (slice_get (choices_of papers.now (student_at papers.now proposer)) result.0) result.1 }
    {
        let mut rank = from;
        while let Some(proposal) = papers.proposal(proposer, usize::from(rank)) {
            if !is_refused(&self.rolls, proposal.position, &proposal.key) {
                return (rank, Some(proposal));
            }
            rank += 1;
        }
        (rank, None)
    }

    /// The student at the position, who is away, moves on from their next choice to the first whose school does not refuse
    /// them at once, and the answer is their proposal there, if there is one. Nobody asks for the rejections on the way, and
    /// so none is noted.
    fn pass_on(&mut self, papers: &FlatPapers, proposer: usize) -> Option<Proposal>
        requires { IsAwayAt papers.now (view_of R.keys R.seats self.old) proposer }
        ensures passed { (away : ℕ → Bool)
            → IsAway papers.now (view_of R.keys R.seats self.old) away (student_at papers.now proposer)
            → PassesUnnoted papers.now (view_of R.keys R.seats self.old) away (view_of R.keys R.seats self.new)
            (student_at papers.now proposer) }
        ensures next { IsProposal papers.now (student_at papers.now proposer)
            (next_of papers.now self.new.ranks (student_at papers.now proposer)) result }
    {
        let from = rank_or_none(self.ranks.as_slice(), proposer)?;
        let (rank, proposal) = self.first_open(papers, proposer, from);
        self.ranks.move_to(proposer, rank);
        proposal
    }

    /// The student at the position, who waits, proposes, and whoever is put out waits from then on. Nobody asks for the
    /// rejections, and so they are forgotten.
    fn propose_on(
        &mut self,
        papers: &FlatPapers,
        proposer: usize,
        waiting: &mut VecDeque<PutOut>,
    ) -> Result<(), AllocError>
        requires within { proposer < length papers.now.students }
        requires wait { SomeWait papers.now (view_of R.keys R.seats self.old) (student_at papers.now proposer) }
        ensures wait { OnOk result ((hands : List ℕ) (outs : List Entry)
            → Waits papers.now (view_of R.keys R.seats self.old) (student_at papers.now proposer ∷ hands)
            (outs ++ entries_of waiting.old.items)
            → Waits papers.now (view_of R.keys R.seats self.new) hands (outs ++ entries_of waiting.new.items)) }
        ensures left { OnOk result (choices_left papers.now self.new.ranks ≤ choices_left papers.now self.old.ranks) }
    {
        self.forget_log();
        let Some(proposal) = self.pass_on(papers, proposer) else {
            return Ok(());
        };
        if let Some(out) = self.offer_seat(papers, proposer, &proposal)? {
            waiting.push_back(out)?;
        }
        Ok(())
    }

    /// Those who have been put out move on to their next choices and propose, the first first, until fewer than so many wait.
    fn work_off(
        &mut self,
        papers: &FlatPapers,
        waiting: &mut VecDeque<PutOut>,
        read: &mut Vec<ClassedChoice>,
        least: usize,
    ) -> Result<(), AllocError>
        requires some { 0 < least }
        requires wait { (hands : List ℕ) × Waits papers.now (view_of R.keys R.seats self.old) hands
            (entries_of waiting.old.items) }
        ensures wait { OnOk result ((hands : List ℕ)
            → Waits papers.now (view_of R.keys R.seats self.old) hands (entries_of waiting.old.items)
            → Waits papers.now (view_of R.keys R.seats self.new) hands (entries_of waiting.new.items)) }
        ensures few { OnOk result (length waiting.new.items < least) }
    {
        let mut near = 0;
        while waiting.len() >= least {
            if near == 0 {
                ask_for_put_out(papers, self.ranks.as_slice(), waiting, read)?;
                near = AHEAD;
            }
            near -= 1;
            let Some(out) = waiting.pop_front() else {
                unreachable!()
            };
            let at = self.note(papers, out)?;
            self.propose_on(papers, at, waiting)?;
        }
        Ok(())
    }

    /// Everybody proposes, who all wait at their first choices, in this order, and whoever is put out before too many wait.
    fn settle_together(&mut self, papers: &FlatPapers, applicants: &[u32]) -> Result<(), AllocError>
        requires within { All (IsWithin papers.now) applicants.now }
        requires wait { Waits papers.now (view_of R.keys R.seats self.old) (numbers_of papers.now applicants.now) [] }
        ensures { OnOk result (Waits papers.now (view_of R.keys R.seats self.new) [] []) }
    {
        let mut waiting = VecDeque::new(self.alloc);
        let mut read = Vec::new(self.alloc);
        for (turn, applicant) in applicants.iter().enumerate() {
            if turn % AHEAD == 0 {
                ask_for_applicants(papers, applicants, turn, &mut read)?;
            }
            self.propose_on(papers, *applicant as usize, &mut waiting)?;
            if waiting.len() >= MOST_WAITING {
                self.work_off(papers, &mut waiting, &mut read, AHEAD)?;
            }
        }
        self.work_off(papers, &mut waiting, &mut read, 1)?;
        Ok(())
    }

    /// Everybody stands at their first choice, and proposes, in this order.
    fn enter_everybody(&mut self, papers: &FlatPapers, applicants: &[u32]) -> Result<(), AllocError>
        requires fresh { IsFresh R.keys R.seats papers.now self.old }
        requires everybody { AreEverybody papers.now applicants.now }
        ensures { OnOk result (HaveEntered papers.now (view_of R.keys R.seats self.new) (students_of papers.now)) }
    {
        self.ranks.put_everybody(papers.students_len())?;
        self.settle_together(papers, applicants)?;
        Ok(())
    }

    /// Each student of a list, who are all students, enters this round, in which nobody has entered. All go to their first
    /// choices, and several at a time propose: the order in which students propose changes nothing (McVitie and Wilson 1971).
    /// The only error is want of memory, after which the round is spent.
    pub(crate) fn enter_together(
        &mut self,
        papers: &FlatPapers,
        applicants: &[u32],
    ) -> Result<(), AllocError>
        requires fresh { IsFresh R.keys R.seats papers.now self.old }
        requires everybody { AreEverybody papers.now applicants.now }
        ensures entered { OnOk result (HaveEntered papers.now (view_of R.keys R.seats self.new)
            (students_of papers.now)) }
        ensures ready { OnOk result (is_spent self.new ≡ false) }
        ensures spent { OnErr result (is_spent self.new ≡ true) }
    {
        let entered = self.enter_everybody(papers, applicants);
        self.spent = entered.is_err();
        entered
    }
}
