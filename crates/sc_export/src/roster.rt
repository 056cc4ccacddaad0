//! The roster, in its longer form where somebody continues at a school.
ghost use Rattle.std.specs.Prelude.{◌≡◌, ◌++◌, ◌∷◌, [], OnOk, All, codes, decimal, flat_map, map, if◌then◌else◌};
ghost use Rattle.std.specs.List.{join_with_byte};
ghost use Rattle.sc_lines.specs.Line.{list_text};
ghost use Rattle.sc_export.specs.Files.{continuing_text, is_longer, roster_fields, roster_header, roster_text, row_text};
ghost use Rattle.sc_export.specs.Ranges.{IsStudentInRange};

use crate::entries::student_entry;
use sc_decimal::push_number;
use sc_lines::push_list;
use sc_papers::{Papers, SchoolNo, Student, StudentNo};
use std::alloc::AllocError;

/// Whether somebody continues at a school.
fn is_longer(papers: &Papers) -> bool
    ensures { result ≡ is_longer papers.now }
{
    for position in 0..papers.students_len() {
        match student_entry(papers, position) {
            Some((_, student)) => {
                if student.continuing.is_some() {
                    return true;
                }
            }
            None => unreachable!(),
        }
    }
    false
}

/// Adds a student's number, zone and siblings' schools, with a comma between each two.
fn push_home(text: &mut Vec<u8>, number: StudentNo, student: &Student) -> Result<(), AllocError>
    ensures fields { OnOk result (text.new.items ≡ text.old.items
        ++ join_with_byte 44 (decimal number ∷ decimal student.now.zone ∷ list_text student.now.siblings ∷ [])) }
    ensures in_range { OnOk result (IsStudentInRange (number, student.now)) }
{
    push_number(text, u64::from(number.get()))?;
    text.extend_from_slice(b",")?;
    push_number(text, u64::from(student.zone.get()))?;
    text.extend_from_slice(b",")?;
    push_list(text, student.siblings.as_slice())
}

/// Adds a comma and the school at which a student continues, if there is one.
fn push_continuing(text: &mut Vec<u8>, continuing: Option<SchoolNo>) -> Result<(), AllocError>
    ensures { OnOk result (text.new.items ≡ text.old.items ++ codes "," ++ continuing_text continuing) }
{
    text.extend_from_slice(b",")?;
    match continuing {
        Some(school) => push_number(text, u64::from(school.get())),
        None => Ok(()),
    }
}

/// Adds the end of a student's row, which has one field more in the longer form.
fn push_end(
    text: &mut Vec<u8>,
    longer: bool,
    continuing: Option<SchoolNo>,
) -> Result<(), AllocError>
    ensures { OnOk result (text.new.items ≡ text.old.items
        ++ (if longer then codes "," ++ continuing_text continuing ++ codes "\n" else codes "\n")) }
{
    if longer {
        push_continuing(text, continuing)?;
    }
    text.extend_from_slice(b"\n")
}

/// Adds a student's row, in the longer or the shorter form.
fn push_student(
    text: &mut Vec<u8>,
    longer: bool,
    entry: (StudentNo, &Student),
) -> Result<(), AllocError>
    ensures row { OnOk result (text.new.items ≡ text.old.items
        ++ row_text (roster_fields longer (entry.entry.0, entry.entry.1.now))) }
    ensures in_range { OnOk result (IsStudentInRange (entry.entry.0, entry.entry.1.now)) }
{
    let (number, student) = entry;
    push_home(text, number, student)?;
    push_end(text, longer, student.continuing)
}

/// Adds the header, of the longer or the shorter form.
fn push_header(text: &mut Vec<u8>, longer: bool) -> Result<(), AllocError>
    ensures { OnOk result (text.new.items ≡ text.old.items ++ row_text (roster_header longer)) }
{
    if longer {
        text.extend_from_slice(b"student,zone,siblings,continuing\n")
    } else {
        text.extend_from_slice(b"student,zone,siblings\n")
    }
}

/// Adds the students' rows, in order of entry.
fn push_students(text: &mut Vec<u8>, papers: &Papers, longer: bool) -> Result<(), AllocError>
    ensures rows { OnOk result (text.new.items ≡ text.old.items
        ++ flat_map row_text (map (roster_fields longer) papers.now.students)) }
    ensures in_range { OnOk result (All IsStudentInRange papers.now.students) }
{
    for position in 0..papers.students_len() {
        match student_entry(papers, position) {
            Some(entry) => push_student(text, longer, entry)?,
            None => unreachable!(),
        }
    }
    Ok(())
}

/// Adds the roster, in order of entry.
pub(crate) fn push_roster(text: &mut Vec<u8>, papers: &Papers) -> Result<(), AllocError>
    ensures file { OnOk result (text.new.items ≡ text.old.items ++ roster_text papers.now) }
    ensures in_range { OnOk result (All IsStudentInRange papers.now.students) }
{
    let longer = is_longer(papers);
    push_header(text, longer)?;
    push_students(text, papers, longer)
}
