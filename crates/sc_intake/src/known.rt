//! The schools that are known by the text of their file, also those whose rows have a fault.

ghost use Rattle.std.specs.Prelude.{◌≡◌, ◌≤◌, ◌+◌, length, IfOk, OnOk, Some};
ghost use Rattle.sc_papers.specs.declared.limits.TheConstants.{MOST_SCHOOLS};
ghost use Rattle.sc_intake.specs.Checking.{known_from, known_schools, named_school, with_known};
ghost use Rattle.sc_intake.specs.Rows.{AreRows};
ghost use Rattle.sc_intake.specs.Seen.{AreNumbers};
ghost use Rattle.sc_intake.specs.Schools.{school_number};
ghost use Rattle.sc_intake.specs.declared.input.TheConstants.{MOST_BYTES};

use crate::fault::{Cause, Source};
use crate::input::records_in;
use crate::records::Records;
use crate::rows::{Rows, numbers_of, take_header};
use crate::schools::{SchoolRow, SchoolRows};
use crate::seen::SeenNumbers;
use sc_decimal::read_number;
use sc_papers::{MOST_SCHOOLS, SchoolNo, Seats, Zone};
use std::alloc::{AllocError, Global};

/// The school of which the first field of the record read last is the number. Its zone and its seats are not known:
/// it has neither here.
#[tactic(auto, unfolding(crate::specs::Field::number_of))]
fn named_school(row: u64, fields: &Records) -> Option<SchoolRow>
    ensures { result ≡ named_school row fields.now.current }
{
    let number = read_number(fields.field(0))?;
    let number = SchoolNo::new(number)?;
    let zone = Zone::new(0)?;
    Some(SchoolRow {
        row,
        number,
        zone,
        seats: Seats::NONE,
    })
}

/// Adds a school to those that are known, unless it is among them or they are as many as there may be.
fn push_school(
    school: SchoolRow,
    known: &mut Vec<SchoolRow>,
    seen: &mut SeenNumbers,
) -> Result<(), AllocError>
    requires rows { AreRows school_number MOST_SCHOOLS known.old.items }
    requires seen { AreNumbers school_number known.old.items seen.old }
    ensures known { OnOk result (known.new.items ≡ with_known known.old.items (Some school)) }
    ensures rows { OnOk result (AreRows school_number MOST_SCHOOLS known.new.items) }
    ensures seen { OnOk result (AreNumbers school_number known.new.items seen.new) }
{
    if known.len() >= MOST_SCHOOLS || seen.contains(school.number.get()) {
        return Ok(());
    }
    seen.insert(school.number.get())?;
    known.push(school)?;
    Ok(())
}

/// Adds the school that the record read last names, if it names one, to those that are known.
fn add_named_school(
    row: u64,
    fields: &Records,
    known: &mut Vec<SchoolRow>,
    seen: &mut SeenNumbers,
) -> Result<(), AllocError>
    requires rows { AreRows school_number MOST_SCHOOLS known.old.items }
    requires seen { AreNumbers school_number known.old.items seen.old }
    ensures known { OnOk result (known.new.items ≡ with_known known.old.items (named_school row fields.now.current)) }
    ensures rows { OnOk result (AreRows school_number MOST_SCHOOLS known.new.items) }
    ensures seen { OnOk result (AreNumbers school_number known.new.items seen.new) }
{
    match named_school(row, fields) {
        Some(school) => push_school(school, known, seen),
        None => Ok(()),
    }
}

/// Adds the schools that the records that are left name to those that are known.
fn add_named(
    records: &mut Records,
    known: &mut Vec<SchoolRow>,
    seen: &mut SeenNumbers,
) -> Result<(), AllocError>
    requires few { length records.old.left ≤ MOST_BYTES + 1 }
    requires rows { AreRows school_number MOST_SCHOOLS known.old.items }
    requires seen { AreNumbers school_number known.old.items seen.old }
    ensures known { OnOk result (known.new.items ≡ known_from 2 known.old.items records.old.left) }
    ensures rows { OnOk result (AreRows school_number MOST_SCHOOLS known.new.items) }
{
    let mut row = 1;
    'records: while records.read()? {
        row += 1;
        add_named_school(row, records, known, seen)?;
    }
    Ok(())
}

/// The schools that are known by the text of their file: its rows that have no fault, and after them each school of
/// which the first field of another row is the number, as long as there are fewer than 5,000. Of the latter neither the
/// zone nor the seats are known, and they have none. So whoever lists a school whose row has a fault has no fault of
/// their own by that.
///
/// The only error is want of memory. The cost is the length of the text, and the memory that of the schools.
pub fn known_schools(
    alloc: Global,
    bytes: &[u8],
    good: &SchoolRows,
) -> Result<SchoolRows, AllocError>
    ensures { IfOk result (λ known. known ≡ known_schools bytes.now good.now) }
{
    let good = good.as_slice();
    let mut known = Vec::from_slice(alloc, good)?;
    let mut seen = numbers_of(alloc, good)?;
    let Ok(mut records) = records_in(alloc, Source::Schools, bytes) else {
        return Ok(Rows { rows: known });
    };
    match take_header::<SchoolRow>(&mut records) {
        Ok(_width) => add_named(&mut records, &mut known, &mut seen)?,
        Err(fault) if fault.cause == Cause::OutOfMemory => return Err(AllocError),
        Err(_fault) => {}
    }
    Ok(Rows { rows: known })
}
