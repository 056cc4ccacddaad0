ghost use Rattle.std.specs.Prelude.{IfOk};
ghost use Rattle.sc_papers.specs.Assignment.{assigned};
ghost use Rattle.sc_papers.specs.Matching.{IsMatching};
ghost use Rattle.sc_tallies.specs.Tally.{AreTallies};
ghost use Rattle.sc_audit.specs.Stability.{IsStability};

use crate::blocks::first_block;
use crate::membership::is_matching;
use crate::stability::Stability;
use crate::tallies::least_over;
use sc_papers::{Assignment, FlatPapers, MOST_STUDENTS};
use sc_tallies::{Tally, places_of, tallies};
use std::alloc::{AllocError, Global};

/// Whether an assignment, whoever made it, is a stable matching of the papers (Gale and Shapley 1962),
/// or the first thing that is wrong with it: it is no matching of theirs, a school is over its seats, or
/// a student and a school block.
///
/// The only error is want of memory, and says nothing of the assignment. The cost is a pass over the
/// assignment, and a few look-ups for each student and each choice that the student prefers to what they
/// have. Memory is taken in proportion to the schools and the students.
pub fn check_stable(
    alloc: Global,
    papers: &FlatPapers,
    assignment: &Assignment,
) -> Result<Stability, AllocError>
    ensures { IfOk result (IsStability papers.now (assigned assignment.now)) }
{
    if !is_matching(papers, assignment) {
        return Ok(Stability::NotAMatching);
    }
    let places = places_of(alloc, papers, assignment)?;
    let tallies = tallies(alloc, papers, places.as_slice())?;
    Ok(judge(tallies.as_slice(), papers, assignment))
}

/// What is wrong with a matching, by the tallies of the schools.
fn judge(tallies: &[Tally], papers: &FlatPapers, assignment: &Assignment) -> Stability
    requires matching { IsMatching papers.now (assigned assignment.now) }
    requires tallies { AreTallies papers.now (assigned assignment.now) tallies.now }
    ensures { IsStability papers.now (assigned assignment.now) result }
{
    // This call tells that the papers are well-formed.
    prove!(papers.students_len() <= MOST_STUDENTS);
    if let Some(school) = least_over(tallies, papers) {
        return Stability::OverSeats { school };
    }
    match first_block(tallies, papers, assignment) {
        Some((student, school)) => Stability::Blocked { student, school },
        None => Stability::Stable,
    }
}
