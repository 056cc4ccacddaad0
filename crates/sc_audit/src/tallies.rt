//! What the tallies say of the schools: which is over its seats, and which would take a student.
ghost use Rattle.std.specs.Prelude.{◌≡◌, ℕ, ◌<◌, true, Some, length, slice_get};
ghost use Rattle.sc_papers.specs.Market.{is_school, schools_of, student_at};
ghost use Rattle.sc_papers.specs.Matching.{Matching};
ghost use Rattle.sc_tallies.specs.Tally.{AreTallies, IsForEachSchool};
ghost use Rattle.sc_audit.specs.Least.{LeastOf};
ghost use Rattle.sc_audit.specs.Tallies.{over_at, would_take};

use crate::least::lesser;
use sc_papers::{FlatPapers, SchoolNo};
use sc_tallies::Tally;

/// The school at the position, if more students have it than it has seats.
fn over_at(tallies: &[Tally], papers: &FlatPapers, position: usize) -> Option<SchoolNo>
    requires within { position < length papers.now.schools }
    requires tallies { IsForEachSchool papers.now tallies.now }
    ensures { (a : Matching) (s : ℕ) → AreTallies papers.now a tallies.now
        → slice_get (schools_of papers.now) position ≡ Some s → result ≡ over_at papers.now a s }
{
    let Some(school) = papers.school_at(position) else {
        unreachable!()
    };
    if papers.seats_of(school).get() < tallies[position].held {
        Some(school)
    } else {
        None
    }
}

/// The least number of a school that more students have than it has seats.
pub(crate) fn least_over(tallies: &[Tally], papers: &FlatPapers) -> Option<SchoolNo>
    requires { IsForEachSchool papers.now tallies.now }
    ensures { (a : Matching) → AreTallies papers.now a tallies.now
        → LeastOf (schools_of papers.now) (over_at papers.now a) (length papers.now.schools) result }
{
    let mut least = None;
    for position in 0..papers.schools_len() {
        least = lesser(least, over_at(tallies, papers, position));
    }
    least
}

/// Whether the school has a free seat, or the student at the position is ahead there of somebody who has
/// it.
pub(crate) fn would_take(
    tallies: &[Tally],
    papers: &FlatPapers,
    student: usize,
    school: SchoolNo,
) -> bool
    requires student { student < length papers.now.students }
    requires school { is_school papers.now school ≡ true }
    requires tallies { IsForEachSchool papers.now tallies.now }
    ensures { (a : Matching) → AreTallies papers.now a tallies.now
        → result ≡ would_take papers.now a (student_at papers.now student) school }
{
    let (at, key) = papers.position_and_key(student, school);
    let tally = tallies[at];
    if tally.held < papers.seats_of(school).get() {
        return true;
    }
    match tally.last {
        Some(last) => key < last,
        None => false,
    }
}
