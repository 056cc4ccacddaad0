//! The file of the schools.
ghost use Rattle.std.specs.Prelude.{◌≡◌, ◌++◌, OnOk, All};
ghost use Rattle.sc_export.specs.Files.{row_text, school_fields, schools_text};
ghost use Rattle.sc_export.specs.Ranges.{IsSchoolInRange};

use crate::entries::school_entry;
use sc_decimal::push_number;
use sc_papers::{FlatPapers, School, SchoolNo};
use std::alloc::AllocError;

/// Adds a school's row.
fn push_school(text: &mut Vec<u8>, entry: (SchoolNo, School)) -> Result<(), AllocError>
    ensures row { OnOk result (text.new.items ≡ text.old.items ++ row_text (school_fields entry)) }
    ensures in_range { OnOk result (IsSchoolInRange entry) }
{
    let (number, school) = entry;
    push_number(text, u64::from(number.get()))?;
    text.extend_from_slice(b",")?;
    push_number(text, u64::from(school.zone.get()))?;
    text.extend_from_slice(b",")?;
    push_number(text, u64::from(school.seats.get()))?;
    text.extend_from_slice(b"\n")
}

/// Adds the file of the schools, in order of entry.
pub(crate) fn push_schools(text: &mut Vec<u8>, papers: &FlatPapers) -> Result<(), AllocError>
    ensures file { OnOk result (text.new.items ≡ text.old.items ++ schools_text papers.now) }
    ensures in_range { OnOk result (All IsSchoolInRange papers.now.schools) }
{
    text.extend_from_slice(b"school,zone,seats\n")?;
    for position in 0..papers.schools_len() {
        match school_entry(papers, position) {
            Some(entry) => push_school(text, entry)?,
            None => unreachable!(),
        }
    }
    Ok(())
}
