ghost use Rattle.std.specs.Prelude.{◌≡◌, ◌++◌, length, IfOk, OnOk};
ghost use Rattle.sc_papers.specs.Market.{Market};
ghost use Rattle.sc_papers.specs.Matching.{Matching};
ghost use Rattle.sc_reasons.specs.Cutoff.{cutoff_rows, rows_in_order};
ghost use Rattle.sc_repair.specs.Standing.{matching_of};
ghost use Rattle.sc_report.specs.CutoffText.{cutoff_lines};
ghost use Rattle.sc_report.specs.Pages.{text_so_far};
ghost use Rattle.sc_report.specs.Text.{assignment_text, IsReportText};
ghost use Rattle.sc_tallies.specs.Places.{ArePlaces};
ghost use Rattle.sc_tallies.specs.Tally.{AreTallies, IsForEachSchool};

use crate::cutoff_lines::push_cutoffs;
use crate::matched::Matched;
use crate::pages::Pages;
use crate::student_texts::student_texts;
use sc_papers::{FlatPapers, SchoolNo};
use sc_reasons::{CutoffRow, rising_entrants, rising_rows, rows_by_tallies, rows_in_order};
use sc_repair::Clearing;
use sc_tallies::places_of;
use std::alloc::{AllocError, Global};

/// The assignment text: a header, and for each student by rising number a line with the school that
/// the student has, or a dash. The only error is want of memory. The cost is that of `report_text`
/// without the lines of the reasons.
pub fn assignment_text(alloc: Global, clearing: &Clearing) -> Result<Vec<u8>, AllocError>
    ensures { IfOk result (λ text. text.items
        ≡ assignment_text clearing.now.standing.papers (matching_of clearing.now.standing)) }
{
    let papers: &FlatPapers = clearing.papers();
    let places = places_of(alloc, papers, clearing.places())?;
    let entrants = rising_entrants(alloc, papers, places.as_slice())?;
    let rows = rows_in_order(alloc, papers, places.as_slice())?;
    let texts = student_texts(alloc, entrants.as_slice(), rows.as_slice(), papers, false)?;
    texts.assignment.into_text(alloc)
}

/// Adds the cutoff text, by the rows of all schools in order of entry.
fn push_cutoff_text(pages: &mut Pages, alloc: Global, rows: &[CutoffRow]) -> Result<(), AllocError>
    // By whichever papers and matching the rows were made.
    ensures { OnOk result ((m : Market) (a : Matching) → rows.now ≡ rows_in_order m a
        → text_so_far pages.new ≡ text_so_far pages.old ++ cutoff_lines (cutoff_rows m a)) }
{
    let cutoffs = rising_rows(alloc, rows)?;
    push_cutoffs(&mut pages.last, cutoffs.as_slice())?;
    Ok(())
}

/// The report text of papers and of the school that each student has, on pages.
pub(crate) fn report_pages(alloc: Global, matched: Matched<'_>) -> Result<Pages, AllocError>
    requires places { length matched.places.items ≡ length matched.papers.now.students }
    requires tallies { IsForEachSchool matched.papers.now matched.tallies.items }
    ensures { IfOk result (λ pages. (a : Matching) → ArePlaces matched.entry.papers.now a matched.entry.places.items
        → AreTallies matched.entry.papers.now a matched.entry.tallies.items
        → IsReportText matched.entry.papers.now a (text_so_far pages)) }
{
    let papers = matched.papers;
    let rows = rows_by_tallies(alloc, papers, matched.tallies.as_slice())?;
    let entrants = rising_entrants(alloc, papers, matched.places.as_slice())?;
    // What a student has stands with them now, and the pages may take the memory.
    drop(matched);
    let texts = student_texts(alloc, entrants.as_slice(), rows.as_slice(), papers, true)?;
    let mut pages = texts.assignment;
    push_cutoff_text(&mut pages, alloc, rows.as_slice())?;
    pages.append(texts.reasons)?;
    Ok(pages)
}

/// The report text of papers and of the school that each student has, of which there is one for each student in order of
/// entry, `None` where they have none: the assignment text, the cutoff text and the reason text. The only error is want of
/// memory. The cost is one pass over the students for the cutoffs, a sort of the students' and the schools' numbers, and one
/// pass for the lines.
pub fn report_text_of(
    alloc: Global,
    papers: &FlatPapers,
    places: Vec<Option<SchoolNo>>,
) -> Result<Vec<u8>, AllocError>
    requires { length places.items ≡ length papers.now.students }
    ensures { IfOk result (λ text. (a : Matching) → ArePlaces papers.now a places.items
        → IsReportText papers.now a text.items) }
{
    let matched = Matched::counted(alloc, papers, places)?;
    let pages = report_pages(alloc, matched)?;
    pages.into_text(alloc)
}

/// The report text of the standing assignment, as `report_text_of` makes it.
pub fn report_text(alloc: Global, clearing: &Clearing) -> Result<Vec<u8>, AllocError>
    ensures { IfOk result (λ text. IsReportText clearing.now.standing.papers
        (matching_of clearing.now.standing) text.items) }
{
    let papers: &FlatPapers = clearing.papers();
    let places = places_of(alloc, papers, clearing.places())?;
    let text = report_text_of(alloc, papers, places)?;
    Ok(text)
}
