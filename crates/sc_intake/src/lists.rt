//! The rank-order lists: the schools that each student chooses, best first.

ghost use Rattle.sc_intake.specs.Fault.{Gives, no_memory};
ghost use Rattle.sc_intake.specs.Lists.{lists_in};
ghost use Rattle.sc_intake.specs.declared.fault.Source.TheVariants.{Lists};

use crate::fault::{Cause, IntakeFault, Source};
use crate::field::number;
use crate::ranges;
use crate::records::Records;
use crate::rows::{Numbered, Row, Rows, read_rows};
use crate::school_list::school_list;
use sc_papers::{MOST_STUDENTS, SchoolList, StudentNo};
use std::alloc::Global;

/// A row of the lists.
#[derive(Debug, Drop)]
pub struct ListRow {
    /// The number of the record, from 2: the header is record 1.
    pub row: u64,
    pub student: StudentNo,
    /// The schools that the student chooses, best first.
    pub choices: SchoolList,
}

/// The rows of the lists, in order. Their numbers are all different, and there are at most
/// 200,000.
pub type ListRows = Rows<ListRow>;

impl Numbered for ListRow {
    ghost use Rattle.sc_papers.specs.declared.limits.TheConstants.{MOST_STUDENTS};
    ghost use Rattle.sc_intake.specs.Lists.{list_number, choices_of};
    ghost use Rattle.sc_intake.specs.declared.fault.Source.TheVariants.{Lists};

    ghost MOST = { MOST_STUDENTS };

    ghost number = { list_number };

    ghost source = { Lists };

    ghost reading = { choices_of };

    const MOST: usize = MOST_STUDENTS;

    fn number(&self) -> u32 {
        self.student.get()
    }
}

impl Row for ListRow {
    ghost use Rattle.sc_intake.specs.Lists.{is_list_header};

    ghost is_header = { is_list_header };

    fn source() -> Source {
        Source::Lists
    }

    fn is_header(fields: &Records) -> bool {
        fields.len() == 2 && fields.reads(0, b"student") && fields.reads(1, b"choices")
    }

    fn read(alloc: Global, row: u64, fields: &Records) -> Result<Self, Cause> {
        let student = number(fields.field(0))?;
        let choices = school_list(alloc, fields.field(1))?;
        Ok(ListRow {
            row,
            student: ranges::student(student)?,
            choices: choices?,
        })
    }
}

/// Reads the rank-order lists, whose header is `student,choices`: their rows, or the first fault of
/// the first faulty row.
///
/// The cost is the length of the file, and the memory that of its rows.
pub fn read_lists(alloc: Global, bytes: &[u8]) -> Result<ListRows, IntakeFault>
    ensures { Gives (λ rows. rows) (no_memory Lists) (lists_in bytes.now) result }
{
    read_rows(alloc, bytes)
}
