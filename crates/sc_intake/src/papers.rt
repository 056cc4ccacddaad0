//! The papers that the rows of the three files make.

ghost use Rattle.std.specs.Prelude.{◌≡◌, [], not, IfErr, IfOk, Ok, OnErr};
ghost use Rattle.std.specs.Bool.{OnTrue};
ghost use Rattle.std.specs.Option.{option_copied};
ghost use Rattle.sc_intake.specs.Fault.{Gives, no_memory};
ghost use Rattle.sc_intake.specs.Lists.{list_number};
ghost use Rattle.sc_intake.specs.Papers.{all_entered, amended, ArePositions, cause_of, entered_by, filled, list_of, opening, papers_of, unknown_list};
ghost use Rattle.sc_intake.specs.Rows.{AreRows};
ghost use Rattle.sc_intake.specs.Schools.{school_number};
ghost use Rattle.sc_intake.specs.declared.fault.Cause.TheVariants.{OutOfMemory};
ghost use Rattle.sc_intake.specs.declared.fault.Source.TheVariants.{Roster};
ghost use Rattle.sc_papers.specs.Market.{is_student, schools_of};
ghost use Rattle.sc_papers.specs.Placed.{schools_at, AreOfSchools};
ghost use Rattle.sc_papers.specs.declared.amendment.Amendment.TheVariants.{Enter};

use crate::fault::{Cause, IntakeFault, Source};
use crate::lists::{ListRow, ListRows};
use crate::roster::{RosterRow, RosterRows};
use crate::school_list::judged_part;
use crate::schools::{SchoolRow, SchoolRows};
use sc_papers::{
    ChosenPositions, FlatPapers, MOST_SCHOOLS, MOST_STUDENTS, Papers, Refusal, SchoolList,
    SchoolRefusal, Seed, Student, StudentNo,
};
use std::alloc::{AllocError, Global};
use std::collections::BTreeMap;

/// The papers with these schools and room for so many students, before any of them, or want of memory.
pub(crate) fn open_papers(
    alloc: Global,
    seed: Seed,
    schools: &[SchoolRow],
    students: usize,
) -> Result<FlatPapers, IntakeFault>
    requires { AreRows school_number MOST_SCHOOLS schools.now }
    ensures opened { IfOk result (λ papers. papers ≡ opening seed schools.now) }
    ensures refused { IfErr result (λ fault. fault ≡ no_memory Roster) }
{
    let mut papers = FlatPapers::new(alloc, seed);
    for row in schools {
        if let Err(refusal) = papers.add_school(row.number, row.zone, row.seats) {
            // The numbers differ and are few enough.
            prove!(refusal == SchoolRefusal::OutOfMemory);
            return Err(IntakeFault::no_memory(Source::Roster));
        }
    }
    match papers.reserve(students) {
        Ok(()) => Ok(papers),
        Err(_refused) => Err(IntakeFault::no_memory(Source::Roster)),
    }
}

/// Where each student's list stands, by number: in a tree, since whoever chooses the numbers could slow a
/// hashed table down.
pub(crate) fn list_positions(
    alloc: Global,
    lists: &[ListRow],
) -> Result<BTreeMap<StudentNo, usize>, AllocError>
    requires { AreRows list_number MOST_STUDENTS lists.now }
    ensures { IfOk result (λ positions. ArePositions positions lists.now lists.now) }
{
    let mut positions = BTreeMap::new(alloc);
    for (position, list) in lists.iter().enumerate() {
        positions.insert(list.student, position)?;
    }
    Ok(positions)
}

/// The student's list.
pub(crate) fn find_list<'a>(
    positions: &BTreeMap<StudentNo, usize>,
    lists: &'a [ListRow],
    student: StudentNo,
) -> Option<&'a ListRow>
    requires { ArePositions positions.now lists.now lists.now }
    ensures { option_copied result ≡ list_of lists.now student }
{
    let position = positions.get(&student)?;
    lists.get(*position)
}

/// The cause of a student whom the papers refuse.
fn cause_of(refusal: Refusal) -> Cause
    ensures { result ≡ cause_of refusal }
{
    match refusal {
        Refusal::OutOfMemory => Cause::OutOfMemory,
        refused => Cause::Refused(refused),
    }
}

/// Enters a student of the roster with copies of the student's lists.
pub(crate) fn enter_copied(
    alloc: Global,
    papers: &mut FlatPapers,
    row: &RosterRow,
    list: Option<&ListRow>,
) -> Result<(), Cause>
    ensures entered { Gives (λ _. papers.new) OutOfMemory (entered_by papers.old row.now (option_copied list.entry))
        result }
    ensures unchanged { OnErr result (papers.new ≡ papers.old) }
{
    let Some(list) = list else {
        return Err(Cause::NoList);
    };
    let row = row.judged_part(alloc)?;
    let choices = judged_part(alloc, &list.choices)?;
    enter(papers, row, choices)
}

/// Enters a student of the roster with these choices.
fn enter(papers: &mut FlatPapers, row: RosterRow, choices: SchoolList) -> Result<(), Cause>
    ensures entered { Gives (λ _. papers.new) OutOfMemory (amended papers.old
        (Enter row.student row.zone row.siblings choices row.continuing)) result }
    ensures unchanged { OnErr result (papers.new ≡ papers.old) }
{
    let student = Student {
        zone: row.zone,
        siblings: row.siblings,
        choices,
        continuing: row.continuing,
    };
    match papers.admit(row.student, student) {
        Ok(()) => Ok(()),
        Err(refusal) => Err(cause_of(refusal)),
    }
}

/// Enters a student of the roster with the choices whose schools stand at these positions, and says whether the student
/// may enter. Otherwise, or where memory is wanting, the papers are no longer to be used.
pub(crate) fn enter_placed(
    papers: &mut FlatPapers,
    row: RosterRow,
    choices: &ChosenPositions,
) -> bool
    requires { AreOfSchools papers.old choices.now }
    ensures { OnTrue result (amended papers.old (Enter row.student row.zone row.siblings
        (schools_at (schools_of papers.old) choices.now) row.continuing) ≡ Ok papers.new) }
{
    papers
        .admit_placed(row.student, row.zone, row.siblings, row.continuing, choices)
        .is_ok()
}

/// Enters the students of the roster, in the order of its rows.
fn enter_all(
    alloc: Global,
    papers: &mut FlatPapers,
    roster: &[RosterRow],
    positions: &BTreeMap<StudentNo, usize>,
    lists: &[ListRow],
) -> Result<(), IntakeFault>
    requires { ArePositions positions.now lists.now lists.now }
    ensures { Gives (λ _. papers.new) (no_memory Roster) (all_entered lists.now papers.old roster.now) result }
{
    for row in roster {
        let list = find_list(positions, lists, row.student);
        if let Err(cause) = enter_copied(alloc, papers, row, list) {
            return Err(IntakeFault::at(Source::Roster, row.row, cause));
        }
    }
    Ok(())
}

/// Whether a student is not in the papers.
#[tactic(auto, using(crate::proofs::PaperLemmas::known_by_position))]
fn is_unknown(papers: &FlatPapers, student: StudentNo) -> bool
    ensures { result ≡ not (is_student papers.now student) }
{
    papers.student_position(student).is_none()
}

/// The first list of a student who is not in the papers.
fn find_unknown_list<'a>(papers: &FlatPapers, lists: &'a [ListRow]) -> Option<&'a ListRow>
    ensures { option_copied result ≡ unknown_list papers.now lists.now }
{
    lists.iter().find(|list| is_unknown(papers, list.student))
}

/// Enters the students of the roster, and sees that each list is of one of them.
fn fill_papers(
    alloc: Global,
    papers: &mut FlatPapers,
    roster: &[RosterRow],
    lists: &[ListRow],
) -> Result<(), IntakeFault>
    requires lists { AreRows list_number MOST_STUDENTS lists.now }
    requires fresh { papers.old.students ≡ [] }
    ensures { Gives (λ _. papers.new) (no_memory Roster) (filled papers.old roster.now lists.now) result }
{
    let positions = list_positions(alloc, lists).map_err(|_refused| IntakeFault::no_memory(
        Source::Roster,
    ))?;
    enter_all(alloc, papers, roster, &positions, lists)?;
    match find_unknown_list(papers, lists) {
        Some(list) => Err(IntakeFault::at(Source::Lists, list.row, Cause::NotInRoster)),
        None => Ok(()),
    }
}

/// The papers that the rows make, or their first fault, as `papers_of` tells it, without a record of each student.
pub(crate) fn flat_papers_of(
    alloc: Global,
    seed: Seed,
    schools: &SchoolRows,
    roster: &RosterRows,
    lists: &ListRows,
) -> Result<FlatPapers, IntakeFault>
    ensures { Gives (λ papers. papers) (no_memory Roster) (papers_of seed schools.now roster.now lists.now) result }
{
    let mut papers = open_papers(alloc, seed, schools.as_slice(), roster.len())?;
    fill_papers(alloc, &mut papers, roster.as_slice(), lists.as_slice())?;
    Ok(papers)
}

/// The same papers with a record of each student, or want of memory.
pub(crate) fn with_records(flat: FlatPapers) -> Result<Papers, IntakeFault>
    ensures kept { IfOk result (λ papers. papers ≡ flat) }
    ensures refused { IfErr result (λ fault. fault ≡ no_memory Roster) }
{
    match Papers::from_flat(flat) {
        Ok(papers) => Ok(papers),
        Err(_refused) => Err(IntakeFault::no_memory(Source::Roster)),
    }
}

/// The papers that the rows make, or their first fault.
///
/// The schools are added in the order of their rows, and then the students of the roster enter in
/// the order of its rows, each with the list of the same number. A student without a list is
/// `NoList`, and a refusal is `Refused`, both of the row of the roster. The first list whose
/// student is not in the roster is `NotInRoster`, of the row of the lists. Want of memory is of the
/// roster, row 0.
///
/// The cost is that of the rows and of copying their lists as far as the papers look at them, a draw of the lottery and a
/// record for each student, and for each list a look-up in a tree of their numbers. `read_papers` copies no list of the
/// rows.
pub fn papers_of(
    alloc: Global,
    seed: Seed,
    schools: &SchoolRows,
    roster: &RosterRows,
    lists: &ListRows,
) -> Result<Papers, IntakeFault>
    ensures { Gives (λ papers. papers) (no_memory Roster) (papers_of seed schools.now roster.now lists.now) result }
{
    let papers = flat_papers_of(alloc, seed, schools, roster, lists)?;
    with_records(papers)
}
