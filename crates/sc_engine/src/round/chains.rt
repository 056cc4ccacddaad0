//! Chains of proposals, by which students enter a round.

ghost use Rattle.std.specs.Prelude.{◌≡◌, ℕ, ◌+◌, ◌^◌, ◌<◌, Bool, [], ◌∷◌, ◌++◌, None, Some, length, nat_eq, position, slice_index_or, slice_set, IfOk, OnOk};
ghost use Rattle.std.specs.Option.{option_map};
ghost use Rattle.sc_papers.specs.Market.{student_at, students_of};
ghost use Rattle.sc_engine.specs.Proposals.{IsProposal};
ghost use Rattle.sc_engine.specs.RoundView.{next_of, choices_left, FitsBut, IsAway, IsAwayAt, IsPutOut, IsSomeAway, IsYetToEnter, Enters, Moves, Passes, Proposes, nobody, only};

use super::Round;
use super::ranks::{position_near, proposal_of};
use super::rolls::{is_refused, offer_to};
use sc_papers::{FlatPapers, LONGEST_LIST, Proposal, Rejection};
use sc_seats::{HeldKey, Roll};
use std::alloc::AllocError;

/// A student whom a school puts out, with its rejection of them, which is yet to be noted, and where they may stand in the
/// order of entry. Until it is noted they stand where they stood.
#[derive(Clone, Copy)]
pub(crate) struct PutOut {
    pub(crate) entry: Rejection,
    pub(crate) guess: usize,
}

impl<R: Roll> Round<R> {
    ghost use Rattle.sc_engine.specs.Round.{view_of};

    /// Notes what a proposal of the student at the position came to: the school rejects them, and they move on to the next
    /// choice.
    ///
    /// It is taken into the loop over a student's choices, where most rejections are.
    #[inline(always)]
    fn reject(&mut self, at: usize, entry: Rejection) -> Result<(), AllocError>
        requires count_fits { self.old.proposals + 1 < 2 ^ 64 }
        requires rank { (rank : ℕ) → slice_index_or self.old.ranks at None ≡ Some rank → rank < LONGEST_LIST }
        ensures log { OnOk result (self.new.log.items ≡ self.old.log.items ++ entry ∷ []) }
        ensures moved { OnOk result ((rank : ℕ) → slice_index_or self.old.ranks at None ≡ Some rank
            → self.new.ranks ≡ slice_set self.old.ranks at (Some (rank + 1))) }
        ensures rolls { self.new.rolls.items ≡ self.old.rolls.items }
        ensures proposals { OnOk result (self.new.proposals ≡ self.old.proposals + 1) }
    {
        self.log.push(entry)?;
        self.proposals += 1;
        self.ranks.move_on(at);
        Ok(())
    }

    /// The first proposal of the student at the position, who is away, from their next choice on, that its school does not
    /// refuse at once, if there is one. Those that it does are made and noted, and no roll changes. The student's row is at
    /// hand after the first of them.
    fn next_open(
        &mut self,
        papers: &FlatPapers,
        proposer: usize,
    ) -> Result<Option<Proposal>, AllocError>
        requires { IsAwayAt papers.now (view_of R.keys R.seats self.old) proposer }
        ensures passed { OnOk result ((away : ℕ → Bool)
            → IsAway papers.now (view_of R.keys R.seats self.old) away (student_at papers.now proposer)
            → Passes papers.now (view_of R.keys R.seats self.old) away (view_of R.keys R.seats self.new)
            (student_at papers.now proposer)) }
        ensures next { IfOk result (IsProposal papers.now (student_at papers.now proposer)
            (next_of papers.now self.new.ranks (student_at papers.now proposer))) }
    {
        'passed: while let Some(proposal) = proposal_of(self.ranks.as_slice(), papers, proposer) {
            if !is_refused(&self.rolls, proposal.position, &proposal.key) {
                return Ok(Some(proposal));
            }
            let student = proposal.key.student;
            let school = proposal.school;
            self.reject(proposer, Rejection { student, school })?;
        }
        Ok(None)
    }

    /// The student at the position, who is away, is offered a seat at the choice at which they stand, which this proposal is.
    /// Whoever is put out there is away from then on, and that is noted only when they go on.
    pub(super) fn offer_seat(
        &mut self,
        papers: &FlatPapers,
        proposer: usize,
        proposal: &Proposal,
    ) -> Result<Option<PutOut>, AllocError>
        requires away { IsSomeAway papers.now (view_of R.keys R.seats self.old) (student_at papers.now proposer) }
        requires made { IsProposal papers.now (student_at papers.now proposer)
            (next_of papers.now self.old.ranks (student_at papers.now proposer)) (Some proposal.now) }
        ensures { IfOk result (λ out. (away : ℕ → Bool)
            → IsAway papers.now (view_of R.keys R.seats self.old) away (student_at papers.now proposer)
            → Proposes papers.now (view_of R.keys R.seats self.old) away (view_of R.keys R.seats self.new)
            (student_at papers.now proposer) (option_map (λ o. o.entry) out)) }
    {
        let offered = HeldKey::of(proposal.key, proposer);
        let Some(out) = offer_to(&mut self.rolls, proposal.position, offered)? else {
            self.proposals += 1;
            return Ok(None);
        };
        let school = proposal.school;
        let student = out.key().student;
        let entry = Rejection { student, school };
        let guess = out.guess();
        Ok(Some(PutOut { entry, guess }))
    }

    /// The student at the position, who is away, proposes, from their next choice on, until a school does not refuse them
    /// at once. Whoever is put out there is away from then on, and that is noted only when they go on.
    fn propose(
        &mut self,
        papers: &FlatPapers,
        proposer: usize,
    ) -> Result<Option<PutOut>, AllocError>
        requires { IsAwayAt papers.now (view_of R.keys R.seats self.old) proposer }
        ensures { IfOk result (λ out. (away : ℕ → Bool)
            → IsAway papers.now (view_of R.keys R.seats self.old) away (student_at papers.now proposer)
            → Proposes papers.now (view_of R.keys R.seats self.old) away (view_of R.keys R.seats self.new)
            (student_at papers.now proposer) (option_map (λ o. o.entry) out)) }
    {
        let Some(proposal) = self.next_open(papers, proposer)? else {
            return Ok(None);
        };
        self.offer_seat(papers, proposer, &proposal)
    }

    /// Notes that a student has been put out, who moves on to the next choice. The answer is where they stand in the order of
    /// entry.
    pub(super) fn note(&mut self, papers: &FlatPapers, out: PutOut) -> Result<usize, AllocError>
        requires away { IsSomeAway papers.now (view_of R.keys R.seats self.old) out.entry.student }
        requires out { IsPutOut papers.now (view_of R.keys R.seats self.old) out.entry }
        ensures found { IfOk result (λ at. position (nat_eq out.entry.student) (students_of papers.now) ≡ Some at) }
        ensures noted { OnOk result ((away : ℕ → Bool)
            → IsAway papers.now (view_of R.keys R.seats self.old) away out.entry.student
            → Passes papers.now (view_of R.keys R.seats self.old) away (view_of R.keys R.seats self.new)
            out.entry.student) }
        ensures left { OnOk result (choices_left papers.now self.new.ranks
            < choices_left papers.now self.old.ranks) }
    {
        let PutOut { entry, guess } = out;
        let at = position_near(papers, entry.student, guess);
        self.reject(at, entry)?;
        Ok(at)
    }

    /// The chain of the student at the position: whoever is put out proposes to the next choice, until
    /// nobody is put out or the one put out has no choice left.
    fn chain(&mut self, papers: &FlatPapers, first: usize) -> Result<(), AllocError>
        requires within { first < length papers.now.students }
        requires fits { FitsBut papers.now (view_of R.keys R.seats self.old) (only (student_at papers.now first)) }
        ensures { OnOk result (Moves papers.now (view_of R.keys R.seats self.old) (only (student_at papers.now first))
            (view_of R.keys R.seats self.new) nobody) }
    {
        let mut proposer = first;
        while let Some(out) = self.propose(papers, proposer)? {
            proposer = self.note(papers, out)?;
        }
        Ok(())
    }

    /// The student at the position goes to their first choice, and their chain follows.
    pub(super) fn enter(&mut self, papers: &FlatPapers, at: usize) -> Result<(), AllocError>
        requires { IsYetToEnter papers.now (view_of R.keys R.seats self.old) at }
        ensures { OnOk result (Enters papers.now (view_of R.keys R.seats self.old)
            (view_of R.keys R.seats self.new) (student_at papers.now at)) }
    {
        self.ranks.make_room(at)?;
        self.ranks.put(at, 0);
        self.chain(papers, at)?;
        Ok(())
    }
}
