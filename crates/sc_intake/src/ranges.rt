//! Numbers of fields as the numbers of the papers.

ghost use Rattle.std.specs.Prelude.{◌≡◌};
ghost use Rattle.sc_intake.specs.Field.{as_count, as_school, as_school_or_none, as_stamp, as_student, as_zone};

use crate::fault::Cause;
use sc_papers::{Count, SchoolNo, Stamp, StudentNo, Zone};

pub(crate) fn school(number: u32) -> Result<SchoolNo, Cause>
    ensures { result ≡ as_school number }
{
    match SchoolNo::new(number) {
        Some(school) => Ok(school),
        None => Err(Cause::Range),
    }
}

pub(crate) fn school_or_none(number: Option<u32>) -> Result<Option<SchoolNo>, Cause>
    ensures { result ≡ as_school_or_none number }
{
    let Some(number) = number else {
        return Ok(None);
    };
    match SchoolNo::new(number) {
        Some(school) => Ok(Some(school)),
        None => Err(Cause::Range),
    }
}

pub(crate) fn student(number: u32) -> Result<StudentNo, Cause>
    ensures { result ≡ as_student number }
{
    match StudentNo::new(number) {
        Some(student) => Ok(student),
        None => Err(Cause::Range),
    }
}

pub(crate) fn zone(number: u32) -> Result<Zone, Cause>
    ensures { result ≡ as_zone number }
{
    match Zone::new(number) {
        Some(zone) => Ok(zone),
        None => Err(Cause::Range),
    }
}

pub(crate) fn count(number: u32) -> Result<Count, Cause>
    ensures { result ≡ as_count number }
{
    match Count::new(number) {
        Some(count) => Ok(count),
        None => Err(Cause::Range),
    }
}

pub(crate) fn stamp(number: u32) -> Result<Stamp, Cause>
    ensures { result ≡ as_stamp number }
{
    match Stamp::new(number) {
        Some(stamp) => Ok(stamp),
        None => Err(Cause::Range),
    }
}
