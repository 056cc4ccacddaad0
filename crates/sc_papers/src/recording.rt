//! Records made of what flat papers tell of students, and changed.

ghost use Rattle.std.specs.Prelude.{◌≡◌, ◌<◌, All, Some, length, map, IfOk};
ghost use Rattle.sc_papers.specs.Market.{schools_of, siblings_of, student_at, student_of};
ghost use Rattle.sc_papers.specs.Records.{AreRecords};
ghost use Rattle.sc_papers.specs.Placed.{schools_at};
ghost use Rattle.sc_papers.specs.StudentRow.{IsRowAt};

use crate::classed_choice::ClassedChoice;
use crate::flat_papers::FlatPapers;
use crate::limits::MOST_STUDENTS;
use crate::records::Student;
use crate::school_list::SchoolList;
use crate::school_no::SchoolNo;
use crate::student_row::StudentRow;
use crate::zone::Zone;
use std::alloc::AllocError;
use std::mem;

/// The schools that stand at these positions of the order of entry, each from 0.
fn schools_at(papers: &FlatPapers, positions: &[u16]) -> Result<SchoolList, AllocError>
    requires { All (λ p. p < length papers.now.schools) positions.now }
    ensures { IfOk result (λ list. list ≡ schools_at (schools_of papers.now) positions.now) }
{
    let mut schools = Vec::with_capacity(papers.allocator(), positions.len())?;
    for position in positions {
        let Some(school) = papers.school_at(usize::from(*position)) else {
            unreachable!()
        };
        schools.push(school)?;
    }
    Ok(SchoolList::from_vec(schools))
}

/// The schools of some choices.
fn schools_chosen(papers: &FlatPapers, choices: &[ClassedChoice]) -> Result<SchoolList, AllocError>
    requires { All (λ c. c.position < length papers.now.schools) choices.now }
    ensures { IfOk result (λ list. list ≡ schools_at (schools_of papers.now) (map (λ c. c.position) choices.now)) }
{
    let mut schools = Vec::with_capacity(papers.allocator(), choices.len())?;
    for choice in choices {
        let Some(school) = papers.school_at(choice.position()) else {
            unreachable!()
        };
        schools.push(school)?;
    }
    Ok(SchoolList::from_vec(schools))
}

/// The schools of the siblings of the student at a position of the order of entry, from 0, who has this row.
fn siblings_at(
    papers: &FlatPapers,
    position: usize,
    row: &StudentRow,
) -> Result<SchoolList, AllocError>
    requires { IsRowAt papers.now position row.now }
    ensures { IfOk result (λ list. list ≡ siblings_of papers.now (student_at papers.now position)) }
{
    if row.has_more_siblings() {
        return schools_at(papers, papers.sibling_positions_at(position));
    }
    let mut schools = Vec::new(papers.allocator());
    if let Some(school) = row.sibling() {
        schools.push(school)?;
    }
    Ok(SchoolList::from_vec(schools))
}

/// The record of the student at a position of the order of entry, from 0, who has this row. The only error is want of
/// memory.
fn record_of(papers: &FlatPapers, position: usize, row: &StudentRow) -> Result<Student, AllocError>
    requires { IsRowAt papers.now position row.now }
    ensures { IfOk result (λ student. student_of papers.now (student_at papers.now position) ≡ Some student) }
{
    // This call tells that the papers are well-formed, and so are their lists.
    prove!(papers.students_len() <= MOST_STUDENTS);
    let siblings = siblings_at(papers, position, row)?;
    let choices = schools_chosen(papers, papers.classed_choices_at(position))?;
    Ok(Student {
        zone: row.zone(),
        continuing: row.continuing(),
        siblings,
        choices,
    })
}

/// The records of all students, in order of entry. The only error is want of memory.
pub(crate) fn records_of(papers: &FlatPapers) -> Result<Vec<Student>, AllocError>
    ensures { IfOk result (λ records. AreRecords papers.now records.items) }
{
    let mut records = Vec::with_capacity(papers.allocator(), papers.students_len())?;
    for position in 0..papers.students_len() {
        records.push(record_of(papers, position, papers.row_at(position))?)?;
    }
    Ok(records)
}

/// Replaces a student's zone, siblings and the school at which the student continues, and answers the old ones.
pub(crate) fn replace_circumstances(
    student: &mut Student,
    zone: Zone,
    siblings: SchoolList,
    continuing: Option<SchoolNo>,
) -> (Zone, SchoolList, Option<SchoolNo>)
    ensures new { student.new ≡ record student.old { zone = zone; siblings = siblings; continuing = continuing } }
    ensures old { result ≡ (student.old.zone, student.old.siblings, student.old.continuing) }
{
    let before = (
        student.zone,
        mem::replace(&mut student.siblings, siblings),
        student.continuing,
    );
    student.zone = zone;
    student.continuing = continuing;
    before
}
