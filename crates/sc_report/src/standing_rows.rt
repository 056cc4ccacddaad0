//! The cutoffs and the reasons of a standing assignment.
ghost use Rattle.std.specs.Prelude.{◌≡◌, IfOk};
ghost use Rattle.sc_reasons.specs.Cutoff.{cutoff_rows};
ghost use Rattle.sc_reasons.specs.Reason.{reason_rows};
ghost use Rattle.sc_repair.specs.Standing.{matching_of};

use sc_papers::FlatPapers;
use sc_reasons::{CutoffRow, ReasonRow, reason_rows, rising_rows, rows_in_order};
use sc_repair::Clearing;
use sc_tallies::places_of;
use std::alloc::{AllocError, Global};

/// The rows of all schools, by rising number. The only error is want of memory. The cost is one pass
/// over the students and a sort of the schools' numbers.
pub fn cutoffs(alloc: Global, clearing: &Clearing) -> Result<Vec<CutoffRow>, AllocError>
    ensures { IfOk result (λ rows. rows.items
        ≡ cutoff_rows clearing.now.standing.papers (matching_of clearing.now.standing)) }
{
    let places = places_of(alloc, clearing.papers(), clearing.places())?;
    let rows = rows_in_order(alloc, clearing.papers(), places.as_slice())?;
    let rising = rising_rows(alloc, rows.as_slice())?;
    Ok(rising)
}

/// Why no student has a choice that they prefer to what they have: one row for each such choice, the
/// students by rising number, and a student's rows in order of choice. The only error is want of
/// memory. The cost is one pass over the students, a sort of their numbers, and a look-up for each row.
pub fn reasons(alloc: Global, clearing: &Clearing) -> Result<Vec<ReasonRow>, AllocError>
    ensures { IfOk result (λ rows. rows.items
        ≡ reason_rows clearing.now.standing.papers (matching_of clearing.now.standing)) }
{
    let papers: &FlatPapers = clearing.papers();
    let places = places_of(alloc, papers, clearing.places())?;
    let rows = reason_rows(alloc, papers, places.as_slice())?;
    Ok(rows)
}
