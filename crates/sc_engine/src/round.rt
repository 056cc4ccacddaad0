//! Rounds of proposals.

ghost use Rattle.std.specs.Prelude.{◌≡◌, ℕ, true, false, IfOk, OnOk, OnErr};
ghost use Rattle.sc_papers.specs.Assignment.{assigned};
ghost use Rattle.sc_papers.specs.Market.{is_student, student_at};
ghost use Rattle.sc_engine.specs.RoundView.{next_of, Fits, Enters, IsYetToEnter, has_entered, without_log};
ghost use Rattle.sc_tallies.specs.Places.{ArePlaces};
ghost use Rattle.sc_tallies.specs.Tally.{AreTallies};

mod chains;
mod ranks;
mod resume;
mod rolls;
mod starting;
mod together;

use crate::rank_table::RankTable;
use crate::settled::{Settled, SettledPlaces};
use ranks::{assignment_of, next_in, places_of, position_near};
use rolls::tallies_of;
use sc_papers::{Assignment, FlatPapers, Rejection, SchoolNo, StudentNo};
use sc_seats::Roll;
use std::alloc::{AllocError, Global};

/// A round of proposals: who has entered and stands where, who holds each school's seats, and the
/// rejections so far. Students and schools go by their positions in the papers.
pub struct Round<R: Roll> {
    alloc: Global,
    // By position of the student: the rank in the choices at which the student stands, if they have
    // entered. Nobody has who comes after the last of these positions, and so in order of entry the next
    // to enter stands right after it.
    ranks: RankTable,
    // By position of the school.
    rolls: Vec<R>,
    log: Vec<Rejection>,
    proposals: u64,
    // A growth was refused: the rest is no longer to be trusted.
    spent: bool,
}

impl<R: Roll> Drop for Round<R> {
    fn drop(self) {
        let Round {
            alloc: _,
            ranks: _,
            rolls: _,
            log: _,
            proposals: _,
            spent: _,
        } = self;
    }
}

impl<R: Roll> Round<R> {
    ghost use Rattle.sc_engine.specs.Round.{view_of, is_spent};

    /// Enters one more student, by one whole chain: the student proposes, whoever is put out proposes
    /// to the next choice, until nobody is put out or the one put out has no choice left. After it the
    /// round's log, after each earlier log that the round continued, is settled for those who have
    /// entered, in whatever order they did.
    ///
    /// A refused growth leaves the round spent, and a spent round answers the error to every student.
    /// Memory is taken by the log, the rolls and the table of ranks alone.
    pub fn enter_one(&mut self, papers: &FlatPapers, student: StudentNo) -> Result<(), AllocError>
        // Of a round that is not spent: it fits the papers, and the student is in them and has not
        // entered.
        requires fits { is_spent self.old ≡ false → Fits papers.now (view_of R.keys R.seats self.old) }
        requires student { is_spent self.old ≡ false → is_student papers.now student ≡ true }
        requires absent { is_spent self.old ≡ false
            → has_entered papers.now (view_of R.keys R.seats self.old).ranks student ≡ false }
        ensures enters { OnOk result (Enters papers.now (view_of R.keys R.seats self.old)
            (view_of R.keys R.seats self.new) student) }
        ensures was_ready { OnOk result (is_spent self.old ≡ false) }
        ensures ready { OnOk result (is_spent self.new ≡ false) }
        ensures spent { OnErr result (is_spent self.new ≡ true) }
    {
        // Mostly the students enter in order.
        let guess = self.ranks.as_slice().len();
        self.enter_near(papers, student, guess)
    }

    /// Does what `enter_one` does. A student who stands at the guessed position of the order of entry is not looked up
    /// by number.
    pub fn enter_near(
        &mut self,
        papers: &FlatPapers,
        student: StudentNo,
        guess: usize,
    ) -> Result<(), AllocError>
        requires fits { is_spent self.old ≡ false → Fits papers.now (view_of R.keys R.seats self.old) }
        requires student { is_spent self.old ≡ false → is_student papers.now student ≡ true }
        requires absent { is_spent self.old ≡ false
            → has_entered papers.now (view_of R.keys R.seats self.old).ranks student ≡ false }
        ensures enters { OnOk result (Enters papers.now (view_of R.keys R.seats self.old)
            (view_of R.keys R.seats self.new) student) }
        ensures was_ready { OnOk result (is_spent self.old ≡ false) }
        ensures ready { OnOk result (is_spent self.new ≡ false) }
        ensures spent { OnErr result (is_spent self.new ≡ true) }
    {
        if self.spent {
            return Err(AllocError);
        }
        let at = position_near(papers, student, guess);
        self.enter_at(papers, at)
    }

    /// Does what `enter_one` does, for the student at a position of the order of entry.
    pub(crate) fn enter_at(&mut self, papers: &FlatPapers, at: usize) -> Result<(), AllocError>
        requires { is_spent self.old ≡ false → IsYetToEnter papers.now (view_of R.keys R.seats self.old) at }
        ensures enters { OnOk result (Enters papers.now (view_of R.keys R.seats self.old)
            (view_of R.keys R.seats self.new) (student_at papers.now at)) }
        ensures was_ready { OnOk result (is_spent self.old ≡ false) }
        ensures ready { OnOk result (is_spent self.new ≡ false) }
        ensures spent { OnErr result (is_spent self.new ≡ true) }
    {
        if self.spent {
            return Err(AllocError);
        }
        let entered = self.enter(papers, at);
        self.spent = entered.is_err();
        entered
    }

    /// The first of the student's choices that has not rejected them, or `None` where there is none or
    /// the student has not entered. In constant time. Of a spent round nothing is said.
    pub fn next_choice(&self, papers: &FlatPapers, student: StudentNo) -> Option<SchoolNo>
        requires { is_spent self.now ≡ false → Fits papers.now (view_of R.keys R.seats self.now) }
        ensures { is_spent self.now ≡ false → result ≡ next_of papers.now
            (view_of R.keys R.seats self.now).ranks student }
    {
        if self.spent {
            return None;
        }
        next_in(self.ranks.as_slice(), papers, student)
    }

    /// The rejections, in the order in which they happened.
    pub fn log(&self) -> &[Rejection]
        ensures { result.now ≡ (view_of R.keys R.seats self.now).log }
    {
        self.log.as_slice()
    }

    /// How many proposals were made.
    pub fn proposals(&self) -> u64
        ensures { result ≡ (view_of R.keys R.seats self.now).proposals }
    {
        self.proposals
    }

    /// Forgets the log and the count of proposals. Whoever stands somewhere stays there, and the round goes
    /// on as after the log that it had. It takes no memory.
    pub(crate) fn forget_log(&mut self)
        ensures forgotten { view_of R.keys R.seats self.new ≡ without_log (view_of R.keys R.seats self.old) }
        ensures spent { is_spent self.new ≡ is_spent self.old }
    {
        self.log.clear();
        self.proposals = 0;
    }

    /// Whether a growth was refused, so that the round can no longer be used.
    pub fn is_spent(&self) -> bool
        ensures { result ≡ is_spent self.now }
    {
        self.spent
    }

    /// The choices at which the students of the round stand. A spent round answers the error, and so
    /// does want of memory. The cost is a look at each student of the papers.
    pub fn assignment(&self, papers: &FlatPapers) -> Result<Assignment, AllocError>
        requires { is_spent self.now ≡ false → Fits papers.now (view_of R.keys R.seats self.now) }
        ensures was_ready { OnOk result (is_spent self.now ≡ false) }
        ensures given { IfOk result (λ assignment. (i : ℕ)
            → assigned assignment i ≡ next_of papers.now (view_of R.keys R.seats self.now).ranks i) }
    {
        if self.spent {
            return Err(AllocError);
        }
        let standing = assignment_of(self.alloc, self.ranks.as_slice(), papers)?;
        Ok(standing)
    }

    /// The choices at which the students of the round stand, in the papers' order of entry, and the tallies of the schools,
    /// which their rolls tell. A spent round answers the error, and so does want of memory. On an error the round is given
    /// up. The cost is a look at each student of the papers and at each school.
    pub(crate) fn into_places(self, papers: &FlatPapers) -> Result<SettledPlaces, AllocError>
        requires { is_spent self ≡ false → Fits papers.now (view_of R.keys R.seats self) }
        ensures was_ready { OnOk result (is_spent self ≡ false) }
        ensures places { IfOk result (λ settled. ArePlaces papers.now
            (next_of papers.now (view_of R.keys R.seats self).ranks) settled.places.items) }
        ensures tallies { IfOk result (λ settled. AreTallies papers.now
            (next_of papers.now (view_of R.keys R.seats self).ranks) settled.tallies.items) }
    {
        if self.spent {
            return Err(AllocError);
        }
        let tallies = tallies_of(self.alloc, &self.rolls, papers)?;
        let places = places_of(self.alloc, self.ranks.as_slice(), papers)?;
        Ok(SettledPlaces { places, tallies })
    }

    /// The log and the count of proposals of the round, and the choices at which its students stand. A
    /// spent round answers the error. On an error the round is given up.
    pub fn into_settled(self, papers: &FlatPapers) -> Result<Settled, AllocError>
        requires { is_spent self ≡ false → Fits papers.now (view_of R.keys R.seats self) }
        ensures was_ready { OnOk result (is_spent self ≡ false) }
        ensures log { IfOk result (λ settled. settled.log.items ≡ (view_of R.keys R.seats self).log) }
        ensures given { IfOk result (λ settled. (i : ℕ)
            → assigned settled.assignment i ≡ next_of papers.now (view_of R.keys R.seats self).ranks i) }
        ensures proposals { IfOk result (λ settled. settled.proposals ≡ (view_of R.keys R.seats self).proposals) }
    {
        let assignment = self.assignment(papers)?;
        let Round {
            alloc: _,
            ranks: _,
            rolls: _,
            log,
            proposals,
            spent: _,
        } = self;
        Ok(Settled {
            log,
            assignment,
            proposals,
        })
    }
}
