//! What came of each choice, as text.
ghost use Rattle.std.specs.Prelude.{◌≡◌, ◌<◌, ◌++◌, ◌||◌, codes, decimal, is_some, length, nat_eq, position, IfOk, IfSome, OnOk, Some};
ghost use Rattle.sc_papers.specs.Market.{Market, is_student, schools_of};
ghost use Rattle.sc_papers.specs.Matching.{Matching};
ghost use Rattle.sc_repair.specs.Standing.{matching_of};
ghost use Rattle.sc_reasons.specs.Cutoff.{cutoff, rows_in_order};
ghost use Rattle.sc_reasons.specs.Entrants.{Holds, StandsAt};
ghost use Rattle.sc_reasons.specs.Reason.{reason_by};
ghost use Rattle.sc_notices.specs.Explanation.{is_given, outcome_by};
ghost use Rattle.sc_notices.specs.ExplanationText.{choice_fields, explanation_of, explanation_text, cutoff_part, own_fields, own_part, student_lines};
ghost use Rattle.sc_notices.specs.Lottery.{lottery_rank};
ghost use Rattle.sc_notices.specs.Telling.{Tells};
ghost use Rattle.sc_notices.specs.Tickets.{IsLotteryOf};

use crate::fields::push_field;
use crate::lottery::{Lottery, ticket_at};
use crate::outcome::{outcome_of, push_outcome};
use crate::parts::TextParts;
use sc_decimal::push_number;
use sc_papers::{FlatPapers, Key, LONGEST_LIST, MOST_STUDENTS, Proposal, SchoolNo, StudentNo};
use sc_repair::Clearing;
use sc_report::{
    Cutoff, CutoffRow, Entrant, entrant_at, push_cutoff, push_draw, rising_entrants, rows_in_order,
};
use sc_tallies::places_of;
use std::alloc::{AllocError, Global};
use std::marker::Model;

/// The line above the choices' lines.
pub(crate) const HEADER: &[u8] =
    b"student,rank,school,class,draw,lottery_rank,cutoff,cutoff_draw,cutoff_student,cutoff_lottery_rank,outcome\n";

/// Adds the student's own class and draw.
pub(crate) fn push_own(text: &mut Vec<u8>, key: Key) -> Result<(), AllocError>
    ensures { OnOk result (text.new.items ≡ text.old.items ++ own_fields key) }
{
    push_field(text, u32::from(key.class))?;
    push_draw(text, key.draw)?;
    text.extend_from_slice(b",")
}

/// What a line tells of a choice, but for what came of it.
#[derive(Clone, Copy)]
struct ChoiceRow {
    /// Its rank in the student's list, from 0.
    rank: usize,
    choice: Proposal,
    /// The student's own rank in the lottery.
    own: u32,
    cutoff: Cutoff,
    /// The rank in the lottery of the cutoff's student, if there is one.
    last: Option<u32>,
}

/// Adds what a line says of a choice of this rank, from 0, but for the school's cutoff: the student's own rank in the lottery
/// is given.
fn push_own_part(
    text: &mut Vec<u8>,
    rank: usize,
    choice: &Proposal,
    own: u32,
) -> Result<(), AllocError>
    requires { rank < LONGEST_LIST }
    ensures { OnOk result (text.new.items ≡ text.old.items ++ own_part rank choice.now.school choice.now.key own) }
{
    push_field(text, rank as u32 + 1)?;
    push_field(text, choice.school.get())?;
    push_own(text, choice.key)?;
    push_field(text, own)
}

/// Adds a school's cutoff, and the rank of its student in the lottery, if it has one.
fn push_cutoff_part(text: &mut Vec<u8>, cutoff: Cutoff, last: Option<u32>) -> Result<(), AllocError>
    ensures { OnOk result (text.new.items ≡ text.old.items ++ cutoff_part cutoff last) }
{
    push_cutoff(text, cutoff)?;
    text.extend_from_slice(b",")?;
    match last {
        Some(rank) => push_number(text, u64::from(rank)),
        None => Ok(()),
    }
}

/// Adds what a line says of a choice, and answers whether the student has it or one before it. Given are what the student
/// has, and whether it is one before.
fn push_choice(
    text: &mut Vec<u8>,
    row: &ChoiceRow,
    held: &Option<SchoolNo>,
    is_past: bool,
) -> Result<bool, AllocError>
    requires { row.now.rank < LONGEST_LIST }
    ensures past { IfOk result (λ past. past ≡ (is_past || is_given held.now row.now.choice.school)) }
    ensures text { OnOk result (text.new.items ≡ text.old.items
        ++ choice_fields row.now.rank row.now.choice.school row.now.choice.key row.now.own row.now.cutoff row.now.last
        (outcome_by (is_given held.now row.now.choice.school) is_past (reason_by row.now.cutoff row.now.choice.key))) }
{
    let given = *held == Some(row.choice.school);
    push_own_part(text, row.rank, &row.choice, row.own)?;
    push_cutoff_part(text, row.cutoff, row.last)?;
    push_outcome(text, outcome_of(given, is_past, row.cutoff, row.choice.key))?;
    Ok(is_past || given)
}

/// The cutoff of a choice's school, by the rows of all schools in order of entry.
fn cutoff_of(rows: &[CutoffRow], choice: &Proposal) -> Cutoff
    requires { choice.now.position < length rows.now }
    // By whichever papers and matching the rows were made.
    ensures { (m : Market) (a : Matching) → rows.now ≡ rows_in_order m a
        → position (nat_eq choice.now.school) (schools_of m) ≡ Some choice.now.position
        → result ≡ cutoff m a choice.now.school }
{
    rows[choice.position].cutoff
}

/// The most bytes of a student's number and a comma.
const LONGEST_NUMBER: usize = 10;

/// A student's number and a comma, as text.
fn number_text(alloc: Global, student: StudentNo) -> Result<Vec<u8>, AllocError>
    ensures { IfOk result (λ text. text.items ≡ decimal student ++ codes ",") }
{
    let mut text = Vec::with_capacity(alloc, LONGEST_NUMBER)?;
    push_number(&mut text, u64::from(student.get()))?;
    text.extend_from_slice(b",")?;
    Ok(text)
}

/// Adds the lines of a student's choices, by the rows of all schools in order of entry; the student's number and the
/// comma after it are given as text.
fn push_choices(
    text: &mut Vec<u8>,
    number: &[u8],
    rows: &[CutoffRow],
    papers: &FlatPapers,
    lottery: &Lottery,
    entrant: Entrant,
) -> Result<(), AllocError>
    requires number { number.now ≡ decimal entrant.student ++ codes "," }
    requires rows { length rows.now ≡ length papers.now.schools }
    requires stands { StandsAt papers.now entrant }
    requires lottery { IsLotteryOf papers.now rows.now lottery.now }
    // By whichever matching the rows were made.
    ensures { OnOk result ((a : Matching) → rows.now ≡ rows_in_order papers.now a → Holds a entrant
        → text.new.items ≡ text.old.items ++ student_lines papers.now a entrant.student) }
{
    // This call tells that the papers are within their limits, and so are their lists.
    prove!(papers.students_len() <= MOST_STUDENTS);
    let ticket = ticket_at(papers, entrant.position as usize);
    let own = lottery.rank_of(papers, rows, &ticket);
    let mut is_past = false;
    let mut rank = 0;
    'ranks: while let Some(choice) = papers.proposal(entrant.position as usize, rank) {
        let cutoff = cutoff_of(rows, &choice);
        let last = lottery.cutoff_rank_at(choice.position);
        let row = ChoiceRow {
            rank,
            choice,
            own,
            cutoff,
            last,
        };
        text.extend_from_slice(number)?;
        is_past = push_choice(text, &row, &entrant.held, is_past)?;
        rank += 1;
    }
    Ok(())
}

/// What came of the choices of students: who they are, and what their lines are made from.
pub struct Explanations<'a> {
    alloc: Global,
    papers: &'a FlatPapers,
    entrants: Vec<Entrant>,
    // Of all schools, in order of entry.
    rows: Vec<CutoffRow>,
    lottery: Lottery,
}

impl Drop for Explanations<'_> {
    fn drop(self) {
        let Explanations {
            alloc: _,
            papers: _,
            entrants: _,
            rows: _,
            lottery: _,
        } = self;
    }
}

impl<'a> Model for Explanations<'a> {
    ghost use Rattle.sc_notices.specs.Parts.{ToExplain};
    ghost use Rattle.sc_notices.specs.Tickets.{CanExplain};

    ghost Value = { ToExplain };

    ghost view = { λ e. record { papers = e.papers.now; entrants = e.entrants.items; rows = e.rows.items } };

    ghost invariant = { λ e. CanExplain e.papers.now e.entrants.items e.rows.items e.lottery };
}

impl<'a> Explanations<'a> {
    ghost use Rattle.std.specs.Prelude.{◌≡◌, ◌++◌, ℕ, List, [], get_or, length, OnOk};
    ghost use Rattle.sc_notices.specs.Parts.{AreExplained};

    /// How many students there are.
    pub(crate) fn count(&self) -> usize
        ensures { result ≡ length self.now.entrants }
    {
        self.entrants.len()
    }

    /// Adds the lines of a student, by their place from 0, or nothing past the last.
    pub(crate) fn push_part(&self, text: &mut Vec<u8>, at: usize) -> Result<(), AllocError>
        ensures { (parts : List (List ℕ)) → AreExplained self.now parts
            → OnOk result (text.new.items ≡ text.old.items ++ get_or parts at []) }
    {
        let Some(entrant) = self.entrants.get(at) else {
            return Ok(());
        };
        let number = number_text(self.alloc, entrant.student)?;
        push_choices(
            text,
            number.as_slice(),
            self.rows.as_slice(),
            self.papers,
            &self.lottery,
            *entrant,
        )
    }
}

/// What came of each choice of each student under the standing assignment: a header, and a line for each choice, the
/// students by rising number and a student's choices best first. A line has the student, the choice's rank, from 1, the
/// school, the student's own class and draw there and their rank in the lottery, the school's cutoff as the cutoff text has
/// it and the rank of its student in the lottery, if it has one, and what came of it: `given`; the reason of the report; or
/// `later` after the choice that was given. Each part has the lines of one student. The only error is want of memory. The
/// cost is one pass over the students for the cutoffs, sorts of the students' numbers and of their draws, and a search among
/// the draws for each school; and for each part a search among the draws and one pass over the choices.
pub fn explanation_parts<'a>(
    alloc: Global,
    clearing: &'a Clearing,
) -> Result<TextParts<'a>, AllocError>
    ensures { IfOk result (λ told.
        Tells told (explanation_text clearing.now.standing.papers (matching_of clearing.now.standing))) }
{
    let papers: &FlatPapers = clearing.papers();
    let places = places_of(alloc, papers, clearing.places())?;
    let entrants = rising_entrants(alloc, papers, places.as_slice())?;
    let rows = rows_in_order(alloc, papers, places.as_slice())?;
    let lottery = Lottery::new(alloc, papers, rows.as_slice())?;
    Ok(TextParts::Explained {
        explanations: Explanations {
            alloc,
            papers,
            entrants,
            rows,
            lottery,
        },
    })
}

/// The lines of one student as in `explanation_parts`, under the same header, or `None` where the student is not in the
/// papers. The only error is want of memory. The cost is one pass over the students for the cutoffs, a sort of their draws,
/// and a search among these for each school.
pub fn explanation_of<'a>(
    alloc: Global,
    clearing: &'a Clearing,
    student: StudentNo,
) -> Result<Option<TextParts<'a>>, AllocError>
    ensures known { IfOk result (λ found. is_some found ≡ is_student clearing.now.standing.papers student) }
    ensures text { IfOk result (λ found. IfSome found (λ told. Tells told
        (explanation_of clearing.now.standing.papers (matching_of clearing.now.standing) student))) }
{
    let papers: &FlatPapers = clearing.papers();
    let Some(position) = papers.student_position(student) else {
        return Ok(None);
    };
    let places = places_of(alloc, papers, clearing.places())?;
    let entrant = entrant_at(papers, position, places[position]);
    let rows = rows_in_order(alloc, papers, places.as_slice())?;
    let lottery = Lottery::new(alloc, papers, rows.as_slice())?;
    Ok(Some(TextParts::Explained {
        explanations: Explanations {
            alloc,
            papers,
            entrants: Vec::from_slice(alloc, &[entrant])?,
            rows,
            lottery,
        },
    }))
}
