//! What the auditor keeps while it reads a log.
ghost use Rattle.std.specs.Prelude.{◌≡◌, ℕ, ◌<◌, All, List, [], length, map, slice_get, None, Some, IfOk, OnOk, IfSome, IfNone};
ghost use Rattle.std.specs.Option.{option_map};
ghost use Rattle.sc_papers.specs.Log.{IsValidLog};
ghost use Rattle.sc_papers.specs.Market.{schools_of, seats_of, students_of, student_at};
ghost use Rattle.sc_papers.specs.Matching.{WithinSeats};
ghost use Rattle.sc_papers.specs.declared.rejection.Rejection.{Rejection as Rejected};
ghost use Rattle.sc_audit.specs.BestKeys.{BestView};
ghost use Rattle.sc_audit.specs.Over.{IsFirstOver};
ghost use Rattle.sc_audit.specs.declared.waiting.Waiting.{Waiting as Waits};
ghost use Rattle.sc_tallies.specs.Places.{ArePlaces};

use crate::best_keys::BestKeys;
use crate::hints::Hints;
use crate::least::lesser;
use crate::waiting::Waiting;
use sc_papers::{FlatPapers, Rejection, SchoolNo, Seats};
use std::alloc::{AllocError, Global};

/// Who stands where after the entries so far, and the best keys of each school, as many as it has
/// seats: who stands at a school and is not behind them all is kept there. Students and schools go by
/// their positions in the papers.
pub(crate) struct AuditState {
    // The rank in their choices at which each student stands, if they stand anywhere.
    stands: Vec<Option<u8>>,
    schools: Vec<BestKeys>,
    // Where the students may stand in the papers, by their numbers.
    hints: Hints,
}

impl Drop for AuditState {
    fn drop(self) {
        let AuditState {
            stands: _,
            schools: _,
            hints: _,
        } = self;
    }
}

/// The seats of the school at the position.
fn seats_at(papers: &FlatPapers, position: usize) -> Seats
    requires { position < length papers.now.schools }
    ensures { (s : ℕ) → slice_get (schools_of papers.now) position ≡ Some s → result ≡ seats_of papers.now s }
{
    let Some(school) = papers.school_at(position) else {
        unreachable!()
    };
    papers.seats_of(school)
}

/// Each school with its seats, before anything is offered.
fn no_keys(alloc: Global, papers: &FlatPapers) -> Result<Vec<BestKeys>, AllocError>
    ensures seats { IfOk result (λ schools. map (λ (best : BestView). best.seats) schools.items
        ≡ map (seats_of papers.now) (schools_of papers.now)) }
    ensures empty { IfOk result (λ schools. All (λ (best : BestView). best.keys ≡ []) schools.items) }
{
    let mut schools = Vec::with_capacity(alloc, papers.schools_len())?;
    for position in 0..papers.schools_len() {
        schools.push(BestKeys::none(alloc, seats_at(papers, position)))?;
    }
    Ok(schools)
}

/// A hint for each student of the papers. The only error is want of memory; the cost is a pass over the students.
fn hints_of(alloc: Global, papers: &FlatPapers) -> Result<Hints, AllocError> {
    let students = papers.students_len();
    let mut hints = Hints::with_room(alloc, students)?;
    for position in 0..students {
        if let Some(student) = papers.student_at(position) {
            hints.note(student, position);
        }
    }
    Ok(hints)
}

/// The school at which somebody waits, if they do.
fn school_of(waiting: Option<Waiting>) -> Option<SchoolNo>
    ensures { result ≡ option_map (λ (w : Waits). w.school) waiting }
{
    let waiting = waiting?;
    Some(waiting.school)
}

impl AuditState {
    ghost use Rattle.sc_audit.specs.AuditState.{view_of};
    ghost use Rattle.sc_audit.specs.AuditView.{next_of, waiting_rank, waiting_at, KeepsBestAtEach, KeepsBestAndHas, MovesTo, Follows, Finds};
    ghost use Rattle.std.specs.Option.{option_map};
    ghost use Rattle.std.specs.Prelude.{◌≡◌, ℕ, ◌<◌, List, [], length, nat_eq, position, Some, None, IfOk, OnOk, IfSome, IfNone};

    /// The student at the position moves to the choice of a rank, if there is one of it.
    fn move_to(&mut self, papers: &FlatPapers, student: usize, rank: u8) -> Result<(), AllocError>
        requires here { KeepsBestAndHas papers.now (view_of self.old) student }
        requires nowhere { next_of papers.now self.old.stands.items (student_at papers.now student) ≡ None }
        ensures { OnOk result (MovesTo papers.now (view_of self.old) (student_at papers.now student)
            rank (view_of self.new)) }
    {
        let Some(proposal) = papers.proposal(student, usize::from(rank)) else {
            return Ok(());
        };
        self.schools[proposal.position].offer(proposal.key)?;
        self.stands[student] = Some(rank);
        Ok(())
    }

    /// The state before the first entry: each student stands at the first choice. The cost is an offer
    /// for each student, and memory is taken for each student and each school.
    pub(crate) fn start(alloc: Global, papers: &FlatPapers) -> Result<Self, AllocError>
        ensures { IfOk result (λ state. Follows papers.now [] (view_of state)) }
    {
        let mut state = AuditState {
            stands: Vec::from_elem(alloc, None, papers.students_len())?,
            schools: no_keys(alloc, papers)?,
            hints: hints_of(alloc, papers)?,
        };
        state.start_all(papers)?;
        Ok(state)
    }

    /// All students, who stand nowhere, move to their first choices.
    fn start_all(&mut self, papers: &FlatPapers) -> Result<(), AllocError>
        requires keeps_best { KeepsBestAtEach papers.now (view_of self.old) }
        requires nowhere { (i : ℕ) → next_of papers.now self.old.stands.items i ≡ None }
        ensures { OnOk result (Follows papers.now [] (view_of self.new)) }
    {
        for position in 0..papers.students_len() {
            self.move_to(papers, position, 0)?;
        }
        Ok(())
    }

    /// Takes one more entry of a log, if it is valid after those before: the student leaves the school
    /// and moves to the next choice. The cost is an offer, and a look-up of the student by number where the guess
    /// at where they stand is wrong.
    pub(crate) fn take(&mut self, papers: &FlatPapers, entry: Rejection) -> Result<bool, AllocError>
        requires keeps_best { KeepsBestAtEach papers.now (view_of self.old) }
        ensures { IfOk result (λ valid. (log : List Rejected) → IsValidLog papers.now log
            → Follows papers.now log (view_of self.old) → Finds papers.now log entry valid (view_of self.new)) }
    {
        let Some((student, rank)) = self.waiting_rank(papers, entry) else {
            return Ok(false);
        };
        self.stands[student] = None;
        self.move_to(papers, student, rank + 1)?;
        Ok(true)
    }

    /// The student's position, and the rank in their choices at which they stand at the entry's school
    /// without being kept there.
    fn waiting_rank(&self, papers: &FlatPapers, entry: Rejection) -> Option<(usize, u8)>
        requires { KeepsBestAtEach papers.now (view_of self.now) }
        ensures position { IfSome result (λ found. position (nat_eq entry.student) (students_of papers.now)
            ≡ Some found.0) }
        ensures rank { option_map (λ found. found.1) result ≡ waiting_rank
            (waiting_at papers.now (view_of self.now) entry.student) entry.school }
    {
        let guess = self.hints.guess(entry.student);
        let student = papers.student_position_near(entry.student, guess)?;
        let waiting = self.waiting_at(papers, student)?;
        if waiting.school == entry.school {
            Some((student, waiting.rank))
        } else {
            None
        }
    }

    /// The least number of a school at which a student stands without being kept there.
    pub(crate) fn least_over(&self, papers: &FlatPapers) -> Option<SchoolNo>
        requires { KeepsBestAtEach papers.now (view_of self.now) }
        ensures over { IfSome result (IsFirstOver papers.now (next_of papers.now self.now.stands.items)) }
        ensures within { IfNone result (WithinSeats papers.now (next_of papers.now self.now.stands.items)) }
    {
        let mut least = None;
        for position in 0..papers.students_len() {
            least = lesser(least, school_of(self.waiting_at(papers, position)));
        }
        least
    }

    /// The school at which the student at the position stands, if they stand anywhere.
    fn school_at(&self, papers: &FlatPapers, student: usize) -> Option<SchoolNo>
        requires { KeepsBestAndHas papers.now (view_of self.now) student }
        ensures { result ≡ next_of papers.now self.now.stands.items (student_at papers.now student) }
    {
        let rank = self.stands[student]?;
        let proposal = papers.proposal(student, usize::from(rank))?;
        Some(proposal.school)
    }

    /// The school at which each student stands, in order of entry. The only error is want of memory.
    pub(crate) fn places(
        &self,
        alloc: Global,
        papers: &FlatPapers,
    ) -> Result<Vec<Option<SchoolNo>>, AllocError>
        requires { KeepsBestAtEach papers.now (view_of self.now) }
        ensures { IfOk result (λ places. ArePlaces papers.now (next_of papers.now self.now.stands.items) places.items) }
    {
        let mut places = Vec::with_capacity(alloc, papers.students_len())?;
        for position in 0..papers.students_len() {
            places.push(self.school_at(papers, position))?;
        }
        Ok(places)
    }

    /// Where the student at the position stands without being kept there: all keys that are kept are ahead.
    fn waiting_at(&self, papers: &FlatPapers, student: usize) -> Option<Waiting>
        requires { KeepsBestAndHas papers.now (view_of self.now) student }
        ensures { result ≡ waiting_at papers.now (view_of self.now) (student_at papers.now student) }
    {
        let rank = self.stands[student]?;
        let proposal = papers.proposal(student, usize::from(rank))?;
        if self.schools[proposal.position].are_ahead_of(&proposal.key) {
            Some(Waiting {
                rank,
                school: proposal.school,
            })
        } else {
            None
        }
    }
}
