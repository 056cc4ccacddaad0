//! The fields that are lists of schools.

ghost use Rattle.std.specs.Prelude.{◌≡◌, ◌+◌, take, IfOk};
ghost use Rattle.sc_intake.specs.Fault.{Gives};
ghost use Rattle.sc_intake.specs.Field.{listed};
ghost use Rattle.sc_intake.specs.declared.fault.Cause.TheVariants.{OutOfMemory};
ghost use Rattle.sc_papers.specs.declared.limits.TheConstants.{LONGEST_LIST};

use crate::fault::Cause;
use crate::field::first_number;
use sc_papers::{LONGEST_LIST, SchoolList, SchoolNo};
use std::alloc::{AllocError, Global};

/// The schools of a list: a text without blanks at its ends that is numbers with one or more spaces
/// between them. `Number` where one of them is no number; where one is no school's, `Range` comes
/// inside, for the caller to tell after what comes first.
///
/// The cost is the text's length.
pub(crate) fn school_list(alloc: Global, text: &[u8]) -> Result<Result<SchoolList, Cause>, Cause>
    ensures { Gives (λ schools. schools) OutOfMemory (listed text.now) result }
{
    // Each number has a byte, and a space before the next one: so there is room for all, and a list made to be large is
    // never moved to a larger place.
    let mut schools = Vec::with_capacity(alloc, (text.len() + 1) / 2)?;
    let mut in_range = true;
    let mut start = 0;
    while start < text.len() {
        match first_number(&text[start..]) {
            Ok((number, digits)) => {
                match SchoolNo::new(number) {
                    Some(school) => schools.push(school)?,
                    None => in_range = false,
                }
                start += digits + 1;
            }
            Err(_) if text[start] == b' ' => start += 1,
            Err(cause) => return Err(cause),
        }
    }
    if !in_range {
        return Ok(Err(Cause::Range));
    }
    // Most numbers have more bytes.
    schools.shrink_to_fit();
    Ok(Ok(SchoolList::from_vec(schools)))
}

/// A list of which the papers say what they say of this one: a copy, but of a list that is too long only its beginning,
/// which is too long too. So a list that was made to be large is not kept twice.
pub(crate) fn judged_part(alloc: Global, list: &SchoolList) -> Result<SchoolList, AllocError>
    ensures { IfOk result (λ part. part ≡ take (LONGEST_LIST + 1) list.now) }
{
    let schools = list.as_slice();
    let end = schools.len().min(LONGEST_LIST + 1);
    let part = Vec::from_slice(alloc, &schools[..end])?;
    Ok(SchoolList::from_vec(part))
}
