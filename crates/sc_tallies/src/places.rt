//! The school that each student has, in order of entry.

ghost use Rattle.std.specs.Prelude.{IfOk};
ghost use Rattle.sc_papers.specs.Assignment.{assigned};
ghost use Rattle.sc_tallies.specs.Places.{ArePlaces};

use sc_papers::{Assignment, FlatPapers, SchoolNo};
use std::alloc::{AllocError, Global};

/// The school that each student of the papers has by an assignment, if any, in the papers' order of entry.
///
/// The only error is a refused growth; memory is taken for each student. The cost is a look-up of each student who
/// has a school where the assignment's pairs are in another order than the students.
pub fn places_of(
    alloc: Global,
    papers: &FlatPapers,
    assignment: &Assignment,
) -> Result<Vec<Option<SchoolNo>>, AllocError>
    ensures { IfOk result (λ places. ArePlaces papers.now (assigned assignment.now) places.items) }
{
    let mut places = Vec::with_capacity(alloc, papers.students_len())?;
    // Mostly the pairs stand in the students' order.
    let mut guess: usize = 0;
    for position in 0..papers.students_len() {
        let Some(student) = papers.student_at(position) else {
            unreachable!()
        };
        let place = assignment.get_near(student, guess);
        places.push(place)?;
        guess = guess.saturating_add(usize::from(place.is_some()));
    }
    Ok(places)
}
