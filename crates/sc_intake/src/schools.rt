//! The file of the schools.

ghost use Rattle.sc_intake.specs.Fault.{Gives, no_memory};
ghost use Rattle.sc_intake.specs.Schools.{schools_in};
ghost use Rattle.sc_intake.specs.declared.fault.Source.TheVariants.{Schools};

use crate::fault::{Cause, IntakeFault, Source};
use crate::field::number;
use crate::ranges;
use crate::records::Records;
use crate::rows::{Numbered, Row, Rows, read_rows};
use sc_papers::{MOST_SCHOOLS, SchoolNo, Seats, Zone};
use std::alloc::Global;

/// A row of the file of the schools.
#[derive(Clone, Copy, Debug, PartialEq, Eq)]
pub struct SchoolRow {
    /// The number of the record, from 2: the header is record 1.
    pub row: u64,
    pub number: SchoolNo,
    pub zone: Zone,
    pub seats: Seats,
}

/// The rows of a file of schools, in order. Their numbers are all different, and there are at most
/// 5,000.
pub type SchoolRows = Rows<SchoolRow>;

impl Numbered for SchoolRow {
    ghost use Rattle.sc_papers.specs.declared.limits.TheConstants.{MOST_SCHOOLS};
    ghost use Rattle.sc_intake.specs.Schools.{school_number, school_of};
    ghost use Rattle.sc_intake.specs.declared.fault.Source.TheVariants.{Schools};

    ghost MOST = { MOST_SCHOOLS };

    ghost number = { school_number };

    ghost source = { Schools };

    ghost reading = { school_of };

    const MOST: usize = MOST_SCHOOLS;

    fn number(&self) -> u32 {
        self.number.get()
    }
}

impl Row for SchoolRow {
    ghost use Rattle.sc_intake.specs.Schools.{is_school_header};

    ghost is_header = { is_school_header };

    fn source() -> Source {
        Source::Schools
    }

    fn is_header(fields: &Records) -> bool {
        fields.len() == 3
            && fields.reads(0, b"school")
            && fields.reads(1, b"zone")
            && fields.reads(2, b"seats")
    }

    fn read(_alloc: Global, row: u64, fields: &Records) -> Result<Self, Cause> {
        let school = number(fields.field(0))?;
        let zone = number(fields.field(1))?;
        let seats = number(fields.field(2))?;
        let number = ranges::school(school)?;
        let zone = ranges::zone(zone)?;
        let Some(seats) = Seats::new(seats) else {
            return Err(Cause::Range);
        };
        Ok(SchoolRow {
            row,
            number,
            zone,
            seats,
        })
    }
}

/// Reads the file of the schools, whose header is `school,zone,seats`: its rows, or the first fault
/// of the first faulty row.
///
/// The cost is the length of the file, and the memory that of its rows.
pub fn read_schools(alloc: Global, bytes: &[u8]) -> Result<SchoolRows, IntakeFault>
    ensures { Gives (λ rows. rows) (no_memory Schools) (schools_in bytes.now) result }
{
    read_rows(alloc, bytes)
}
