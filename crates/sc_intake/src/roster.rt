//! The roster: who takes part, where they live, where they have siblings, and where they continue.

ghost use Rattle.std.specs.Prelude.{◌≡◌};
ghost use Rattle.sc_intake.specs.Fault.{Gives, no_memory};
ghost use Rattle.sc_intake.specs.Roster.{roster_in};
ghost use Rattle.sc_intake.specs.declared.fault.Source.TheVariants.{Roster};

use crate::fault::{Cause, IntakeFault, Source};
use crate::field::{number, number_or_none};
use crate::ranges;
use crate::records::Records;
use crate::rows::{Numbered, Row, Rows, read_rows};
use crate::school_list::{judged_part, school_list};
use sc_papers::{MOST_STUDENTS, SchoolList, SchoolNo, StudentNo, Zone};
use std::alloc::{AllocError, Global};

/// A row of the roster.
#[derive(Debug, Drop)]
pub struct RosterRow {
    /// The number of the record, from 2: the header is record 1.
    pub row: u64,
    pub student: StudentNo,
    pub zone: Zone,
    /// The schools of siblings.
    pub siblings: SchoolList,
    /// The school at which the student continues, if there is one.
    pub continuing: Option<SchoolNo>,
}

impl RosterRow {
    ghost use Rattle.std.specs.Prelude.{◌≡◌, ◌+◌, IfOk, take};
    ghost use Rattle.sc_papers.specs.declared.limits.TheConstants.{LONGEST_LIST};

    /// A row of which the papers say what they say of this one: its list of siblings as far as they look at it. The only
    /// error is want of memory.
    pub(crate) fn judged_part(&self, alloc: Global) -> Result<Self, AllocError>
        ensures { IfOk result (λ row. row ≡ record self.now { siblings = take (LONGEST_LIST + 1) self.now.siblings }) }
    {
        Ok(RosterRow {
            row: self.row,
            student: self.student,
            zone: self.zone,
            siblings: judged_part(alloc, &self.siblings)?,
            continuing: self.continuing,
        })
    }
}

/// The rows of a roster, in order. Their numbers are all different, and there are at most
/// 200,000.
pub type RosterRows = Rows<RosterRow>;

impl Numbered for RosterRow {
    ghost use Rattle.sc_papers.specs.declared.limits.TheConstants.{MOST_STUDENTS};
    ghost use Rattle.sc_intake.specs.Roster.{roster_number, student_of};
    ghost use Rattle.sc_intake.specs.declared.fault.Source.TheVariants.{Roster};

    ghost MOST = { MOST_STUDENTS };

    ghost number = { roster_number };

    ghost source = { Roster };

    ghost reading = { student_of };

    const MOST: usize = MOST_STUDENTS;

    fn number(&self) -> u32 {
        self.student.get()
    }
}

impl Row for RosterRow {
    ghost use Rattle.sc_intake.specs.Roster.{is_roster_header};

    ghost is_header = { is_roster_header };

    fn source() -> Source {
        Source::Roster
    }

    fn is_header(fields: &Records) -> bool {
        (fields.len() == 3 || fields.len() == 4 && fields.reads(3, b"continuing"))
            && fields.reads(0, b"student")
            && fields.reads(1, b"zone")
            && fields.reads(2, b"siblings")
    }

    fn read(alloc: Global, row: u64, fields: &Records) -> Result<Self, Cause> {
        let student = number(fields.field(0))?;
        let zone = number(fields.field(1))?;
        let siblings = school_list(alloc, fields.field(2))?;
        let continuing = number_or_none(fields.field(3))?;
        Ok(RosterRow {
            row,
            student: ranges::student(student)?,
            zone: ranges::zone(zone)?,
            siblings: siblings?,
            continuing: ranges::school_or_none(continuing)?,
        })
    }
}

/// Reads the roster, whose header is `student,zone,siblings`, or `student,zone,siblings,continuing`: its rows, or
/// the first fault of the first faulty row. Under the shorter header nobody continues anywhere.
///
/// The cost is the length of the file, and the memory that of its rows.
pub fn read_roster(alloc: Global, bytes: &[u8]) -> Result<RosterRows, IntakeFault>
    ensures { Gives (λ rows. rows) (no_memory Roster) (roster_in bytes.now) result }
{
    read_rows(alloc, bytes)
}
