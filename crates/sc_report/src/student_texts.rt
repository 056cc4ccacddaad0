//! The texts with lines of each student: the assignment text and the reason text.
ghost use Rattle.std.specs.Prelude.{◌≡◌, ◌+◌, ◌≤◌, ◌++◌, codes, decimal, flat_map, length, map, take, true, All, IfOk};
ghost use Rattle.sc_papers.specs.Market.{schools_of};
ghost use Rattle.sc_papers.specs.Matching.{Matching};
ghost use Rattle.sc_reasons.specs.Cutoff.{rows_in_order};
ghost use Rattle.sc_reasons.specs.Entrants.{numbers_of, Holds, StandsAt};
ghost use Rattle.sc_reasons.specs.Reason.{reasons_of};
ghost use Rattle.sc_report.specs.Endings.{piece_text, place_ending, HaveEndings};
ghost use Rattle.sc_report.specs.Pages.{text_so_far, IsAsLong};
ghost use Rattle.sc_report.specs.ReasonText.{reason_line, reason_lines};
ghost use Rattle.sc_report.specs.Text.{assignment_line, assignment_lines};
ghost use Rattle.sc_report.specs.declared.pages.TheConstants.{LINES};
ghost use Rattle.sc_report.specs.declared.piece.TheConstants.{LINE};

use crate::endings::Endings;
use crate::pages::{DRAFT, Pages};
use crate::piece::{Piece, put_line};
use sc_papers::{FlatPapers, MOST_STUDENTS, SchoolNo};
use sc_reasons::{CutoffRow, Entrant, missed};
use std::alloc::{AllocError, Global};

/// The line above the assignment's lines.
const ASSIGNMENT_HEADER: &[u8; 15] = b"student,school\n";

/// The line above the reasons' lines.
const REASON_HEADER: &[u8; 22] = b"student,school,reason\n";

/// The assignment text and the reason text, which is no more than a header where it was not asked for.
#[derive(Drop)]
pub(crate) struct StudentTexts {
    pub(crate) assignment: Pages,
    pub(crate) reasons: Pages,
}

/// Writes the assignment's line of a student who has this school over some bytes, by the endings of the lines about all
/// schools in order of entry, and tells where it ends there. Each way writes the line itself, so that no piece is copied
/// to where they meet.
fn put_school(
    over: &mut [u8],
    at: usize,
    number: Piece,
    school: SchoolNo,
    endings: &Endings,
    papers: &FlatPapers,
) -> usize
    requires over { at + LINES ≤ length over.old }
    requires endings { length endings.now.schools.items ≡ length papers.now.schools }
    // By whichever matching the endings were made.
    ensures text { (a : Matching) → HaveEndings (rows_in_order papers.now a) endings.now
        → take result over.new ≡ take at over.old ++ (piece_text number ++ place_ending school) }
    ensures room { IsAsLong over.old over.new }
    ensures end { result ≤ at + LINE }
{
    match papers.school_position(school) {
        Some(position) => put_line(over, at, number, endings.place(position)),
        // A matching may give what is no school of the papers.
        None => put_line(over, at, number, Piece::number_then(school.get(), b'\n')),
    }
}

/// Writes a student's line of the assignment over some bytes, by the endings of the lines about all schools in order of
/// entry, and tells where it ends there. The piece is that of the student's number and a comma.
fn put_place(
    over: &mut [u8],
    at: usize,
    number: Piece,
    entrant: &Entrant,
    endings: &Endings,
    papers: &FlatPapers,
) -> usize
    requires over { at + LINES ≤ length over.old }
    requires endings { length endings.now.schools.items ≡ length papers.now.schools }
    requires number { piece_text number ≡ decimal entrant.now.student ++ codes "," }
    // By whichever matching the endings were made.
    ensures text { (a : Matching) → HaveEndings (rows_in_order papers.now a) endings.now → Holds a entrant.now
        → take result over.new ≡ take at over.old ++ assignment_line a entrant.now.student }
    ensures room { IsAsLong over.old over.new }
    ensures end { result ≤ at + LINE }
{
    match entrant.held {
        Some(school) => put_school(over, at, number, school, endings, papers),
        None => put_line(over, at, number, Piece::of(b"-\n")),
    }
}

/// Writes the reasons' lines of a student over some bytes, in order of choice, by the endings of the lines about all schools
/// in order of entry, and tells where they end there. The piece is that of the student's number and a comma.
fn put_reasons(
    over: &mut [u8],
    at: usize,
    number: Piece,
    entrant: &Entrant,
    endings: &Endings,
    papers: &FlatPapers,
) -> usize
    requires over { at + LINES ≤ length over.old }
    requires endings { length endings.now.schools.items ≡ length papers.now.schools }
    requires stands { StandsAt papers.now entrant.now }
    requires number { piece_text number ≡ decimal entrant.now.student ++ codes "," }
    // By whichever matching the endings were made.
    ensures text { (a : Matching) → HaveEndings (rows_in_order papers.now a) endings.now → Holds a entrant.now
        → take result over.new
        ≡ take at over.old ++ flat_map reason_line (reasons_of papers.now a entrant.now.student) }
    ensures room { IsAsLong over.old over.new }
    ensures end { result ≤ at + LINES }
{
    // This call tells that the papers are within their limits.
    prove!(papers.students_len() <= MOST_STUDENTS);
    let choices = missed(papers, entrant);
    let mut end = at;
    for choice in choices {
        let ending = endings.ending(choice.position(), choice.class());
        end = put_line(over, end, number, ending);
    }
    end
}

/// The assignment text, and the reason text if it is asked for, by the students in the order in which they are told of, and
/// the rows of all schools in order of entry. Both are made in one pass, and a student's number and the endings of a
/// school's lines are written once, however many lines have them. The only error is want of memory.
pub(crate) fn student_texts(
    alloc: Global,
    entrants: &[Entrant],
    rows: &[CutoffRow],
    papers: &FlatPapers,
    with_reasons: bool,
) -> Result<StudentTexts, AllocError>
    requires schools { map (λ row. row.school) rows.now ≡ schools_of papers.now }
    requires stand { All (StandsAt papers.now) entrants.now }
    // By whichever matching the rows were made.
    ensures assignment { IfOk result (λ texts. (a : Matching) → rows.now ≡ rows_in_order papers.now a
        → All (Holds a) entrants.now
        → text_so_far texts.assignment ≡ assignment_lines a (numbers_of entrants.now)) }
    ensures reasons { IfOk result (λ texts. with_reasons ≡ true
        → (a : Matching) → rows.now ≡ rows_in_order papers.now a → All (Holds a) entrants.now
        → text_so_far texts.reasons ≡ reason_lines (flat_map (reasons_of papers.now a) (numbers_of entrants.now))) }
{
    let endings = Endings::new(alloc, rows)?;
    let mut assignment = Pages::begin(alloc, ASSIGNMENT_HEADER)?;
    let mut reasons = Pages::begin(alloc, REASON_HEADER)?;
    let mut placed = [0; DRAFT];
    let mut placed_end = 0;
    let mut told = [0; DRAFT];
    let mut told_end = 0;
    for entrant in entrants {
        let number = Piece::number_then(entrant.student.get(), b',');
        let end = put_place(&mut placed, placed_end, number, entrant, &endings, papers);
        placed_end = assignment.add_full(alloc, &placed, end)?;
        if with_reasons {
            let end = put_reasons(&mut told, told_end, number, entrant, &endings, papers);
            told_end = reasons.add_full(alloc, &told, end)?;
        }
    }
    assignment.last.extend_from_slice(&placed[..placed_end])?;
    reasons.last.extend_from_slice(&told[..told_end])?;
    Ok(StudentTexts {
        assignment,
        reasons,
    })
}
