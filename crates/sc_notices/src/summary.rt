//! The summary as text.
ghost use Rattle.std.specs.Prelude.{◌≡◌, ◌<◌, ◌++◌, IfOk, OnOk};
ghost use Rattle.sc_papers.specs.Assignment.{assigned};
ghost use Rattle.sc_repair.specs.Standing.{matching_of};
ghost use Rattle.sc_notices.specs.SummaryText.{rank_line, rank_lines, row_line, school_lines, summary_text, unplaced_line};

use crate::fields::{push_field, push_last_field};
use crate::listings::{listings, listings_of};
use crate::ranks::rank_counts;
use sc_papers::{Assignment, FlatPapers, LONGEST_LIST, MOST_STUDENTS, Papers};
use sc_repair::Clearing;
use sc_report::{CutoffRow, cutoffs};
use std::alloc::{AllocError, Global};

/// The line above the ranks' lines.
const RANK_HEADER: &[u8; 14] = b"rank,students\n";

/// The line above the schools' lines.
const SCHOOL_HEADER: &[u8; 30] = b"school,seats,held,free,listed\n";

/// The most bytes of a rank's line: a rank, a number of students, a comma and a newline.
const LONGEST_RANK_LINE: usize = 10;

/// The most bytes of a school's line: its number, three numbers of seats, a number of students, the commas and a newline.
const LONGEST_SCHOOL_LINE: usize = 32;

/// Adds the line of a rank, from 0, where somebody has it.
fn push_rank(text: &mut Vec<u8>, rank: usize, count: u32) -> Result<(), AllocError>
    requires { rank < LONGEST_LIST }
    ensures { OnOk result (text.new.items ≡ text.old.items ++ rank_line rank count) }
{
    if count > 0 {
        push_field(text, rank as u32 + 1)?;
        push_last_field(text, count)?;
    }
    Ok(())
}

/// Adds the line of the students without a school, who are so many.
fn push_unplaced(text: &mut Vec<u8>, count: u32) -> Result<(), AllocError>
    ensures { OnOk result (text.new.items ≡ text.old.items ++ unplaced_line count) }
{
    text.extend_from_slice(b"-,")?;
    push_last_field(text, count)
}

/// Adds the header, the line of each rank that somebody has, and the line of those without a school.
fn push_ranks(text: &mut Vec<u8>, papers: &Papers, places: &Assignment) -> Result<(), AllocError>
    ensures { OnOk result (text.new.items ≡ text.old.items ++ rank_lines papers.now (assigned places.now)) }
{
    let counts = rank_counts(papers, places);
    text.extend_from_slice(RANK_HEADER)?;
    for rank in 0..LONGEST_LIST {
        push_rank(text, rank, counts.by_rank[rank])?;
    }
    push_unplaced(text, counts.unplaced)?;
    Ok(())
}

/// Adds a school's line, given how many students list it.
fn push_school(text: &mut Vec<u8>, row: &CutoffRow, listings: u32) -> Result<(), AllocError>
    ensures { OnOk result (text.new.items ≡ text.old.items
        ++ row_line row.now.school row.now.seats row.now.held listings) }
{
    let seats = row.seats.get();
    push_field(text, row.school.get())?;
    push_field(text, seats)?;
    push_field(text, row.held)?;
    push_field(text, seats.saturating_sub(row.held))?;
    push_last_field(text, listings)
}

/// Adds the header and the line of each school by rising number.
fn push_schools(text: &mut Vec<u8>, alloc: Global, clearing: &Clearing) -> Result<(), AllocError>
    ensures { OnOk result (text.new.items ≡ text.old.items
        ++ school_lines clearing.now.standing.papers (matching_of clearing.now.standing)) }
{
    let papers: &FlatPapers = clearing.papers();
    let rows = cutoffs(alloc, clearing)?;
    let counts = listings(alloc, papers)?;
    text.extend_from_slice(SCHOOL_HEADER)?;
    for row in rows.as_slice() {
        push_school(
            text,
            row,
            listings_of(counts.as_slice(), papers, row.school),
        )?;
    }
    Ok(())
}

/// How many bytes the summary takes at most.
fn room_for_summary(papers: &FlatPapers) -> usize {
    // This call tells that the papers are within their limits.
    prove!(papers.students_len() <= MOST_STUDENTS);
    RANK_HEADER.len()
        + (LONGEST_LIST + 1) * LONGEST_RANK_LINE
        + SCHOOL_HEADER.len()
        + papers.schools_len() * LONGEST_SCHOOL_LINE
}

/// The summary of the standing assignment: a header, for each rank that somebody has, from 1, a line with how many
/// students have their choice of that rank, and the line `-` with how many have no school, also where these are none;
/// then a header, and for each school by rising number a line with its seats, how many students have it, how many of
/// the seats are free, and how many students list it. The only error is want of memory, which is taken for each
/// school. The cost is two passes over the students, one over their choices, and a sort of the schools' numbers.
pub fn summary_text(alloc: Global, clearing: &Clearing) -> Result<Vec<u8>, AllocError>
    ensures { IfOk result (λ text. text.items
        ≡ summary_text clearing.now.standing.papers (matching_of clearing.now.standing)) }
{
    let papers = clearing.papers();
    let mut text = Vec::with_capacity(alloc, room_for_summary(papers))?;
    push_ranks(&mut text, papers, clearing.places())?;
    push_schools(&mut text, alloc, clearing)?;
    Ok(text)
}
