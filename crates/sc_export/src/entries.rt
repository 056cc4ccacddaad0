//! The schools and the students of papers by their positions in the orders of entry.
ghost use Rattle.std.specs.Prelude.{◌≡◌, slice_get, option_map};

use sc_papers::{FlatPapers, MOST_STUDENTS, Papers, School, SchoolNo, Student, StudentNo};

/// The school at a position, and what the papers hold of it.
pub(crate) fn school_entry(papers: &FlatPapers, position: usize) -> Option<(SchoolNo, School)>
    ensures { result ≡ slice_get papers.now.schools position }
{
    // This call tells that the papers are well-formed.
    prove!(papers.students_len() <= MOST_STUDENTS);
    let number = papers.school_at(position)?;
    let school = papers.school(number)?;
    Some((number, school))
}

/// The student at a position, and what the papers hold of them.
pub(crate) fn student_entry(papers: &Papers, position: usize) -> Option<(StudentNo, &Student)>
    ensures { option_map (λ entry. (entry.0, entry.1.now)) result ≡ slice_get papers.now.students position }
{
    // This call tells that the papers are well-formed.
    prove!(papers.students_len() <= MOST_STUDENTS);
    let number = papers.student_at(position)?;
    let record = papers.record_at(position)?;
    Some((number, record))
}
