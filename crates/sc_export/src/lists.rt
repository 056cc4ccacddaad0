//! The file of the rank-order lists.
ghost use Rattle.std.specs.Prelude.{◌≡◌, ◌++◌, OnOk};
ghost use Rattle.sc_export.specs.Files.{list_fields, lists_text, row_text};

use crate::entries::student_entry;
use sc_decimal::push_number;
use sc_lines::push_list;
use sc_papers::{Papers, Student, StudentNo};
use std::alloc::AllocError;

/// Adds a student's row: the number and the choices.
fn push_choices(text: &mut Vec<u8>, entry: (StudentNo, &Student)) -> Result<(), AllocError>
    ensures { OnOk result (text.new.items ≡ text.old.items
        ++ row_text (list_fields (entry.entry.0, entry.entry.1.now))) }
{
    let (number, student) = entry;
    push_number(text, u64::from(number.get()))?;
    text.extend_from_slice(b",")?;
    push_list(text, student.choices.as_slice())?;
    text.extend_from_slice(b"\n")
}

/// Adds the file of the rank-order lists, in order of entry.
pub(crate) fn push_lists(text: &mut Vec<u8>, papers: &Papers) -> Result<(), AllocError>
    ensures { OnOk result (text.new.items ≡ text.old.items ++ lists_text papers.now) }
{
    text.extend_from_slice(b"student,choices\n")?;
    for position in 0..papers.students_len() {
        match student_entry(papers, position) {
            Some(entry) => push_choices(text, entry)?,
            None => unreachable!(),
        }
    }
    Ok(())
}
