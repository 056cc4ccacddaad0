//! The reasons as text.
ghost use Rattle.std.specs.Prelude.{◌≡◌, ◌++◌, codes, IfOk, OnOk};
ghost use Rattle.sc_repair.specs.Standing.{matching_of};
ghost use Rattle.sc_report.specs.ReasonText.{reason_text, reason_word};

use crate::student_texts::student_texts;
use sc_papers::FlatPapers;
use sc_reasons::{Reason, rising_entrants, rows_in_order};
use sc_repair::Clearing;
use sc_tallies::places_of;
use std::alloc::{AllocError, Global};

/// Adds a comma, a reason's word and a newline, as a line of the reason text ends. The only error is want of memory.
pub fn push_reason(text: &mut Vec<u8>, reason: Reason) -> Result<(), AllocError>
    ensures { OnOk result (text.new.items ≡ text.old.items ++ codes "," ++ reason_word reason ++ codes "\n") }
{
    match reason {
        Reason::Seats => text.extend_from_slice(b",seats\n"),
        Reason::Class => text.extend_from_slice(b",class\n"),
        Reason::Lottery => text.extend_from_slice(b",lottery\n"),
    }
}

/// The reason text: a header, and a line for each choice that a student prefers to what they have, with
/// the reason, by the students' rising numbers and in order of choice. The only error is want of
/// memory. The cost is that of `report_text`, since the same pass makes the lines of the assignment.
pub fn reason_text(alloc: Global, clearing: &Clearing) -> Result<Vec<u8>, AllocError>
    ensures { IfOk result (λ text. text.items
        ≡ reason_text clearing.now.standing.papers (matching_of clearing.now.standing)) }
{
    let papers: &FlatPapers = clearing.papers();
    let places = places_of(alloc, papers, clearing.places())?;
    let entrants = rising_entrants(alloc, papers, places.as_slice())?;
    let rows = rows_in_order(alloc, papers, places.as_slice())?;
    let texts = student_texts(alloc, entrants.as_slice(), rows.as_slice(), papers, true)?;
    texts.reasons.into_text(alloc)
}
