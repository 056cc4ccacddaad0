//! What can be said against an amendment.

ghost use Rattle.std.specs.Prelude.{◌≡◌, [], not, None, find};
ghost use Rattle.sc_papers.specs.Entry.{objections_to_enter_at};
ghost use Rattle.sc_papers.specs.Market.{is_school, is_student, seats_of};
ghost use Rattle.sc_papers.specs.Verdict.{first_of, first_repeat, no_choices, objections_to_add, objections_to_close, objections_to_correct, objections_to_enter, objections_to_list, objections_to_rerank, objections_to_withdraw, too_long, twice_in, unknown_in, unknown_school, unknown_student, unless_refused, verdict};

use crate::amendment::{Amendment, Refusal};
use crate::count::Count;
use crate::flat_papers::FlatPapers;
use crate::limits::{LONGEST_LIST, MOST_STUDENTS};
use crate::position_list::PositionList;
use crate::school_no::SchoolNo;
use crate::seats::Seats;
use sc_lottery::StudentNumber;

/// The first school of the list that equals an earlier one. Lists are short where it is asked for: longer ones have been
/// refused.
fn find_repeat(list: &[SchoolNo]) -> Option<SchoolNo>
    ensures { result ≡ first_repeat [] list.now }
{
    for (place, school) in list.iter().enumerate() {
        if list[..place].contains(school) {
            return Some(*school);
        }
    }
    None
}

/// Whether the school is in the papers.
fn is_known(papers: &FlatPapers, school: SchoolNo) -> bool
    ensures { result ≡ is_school papers.now school }
{
    papers.school_position(school).is_some()
}

/// Whether the student is in the papers.
pub(crate) fn is_student(papers: &FlatPapers, student: StudentNumber) -> bool
    ensures { result ≡ is_student papers.now student }
{
    papers.student_position(student).is_some()
}

/// The first school of the list that is not in the papers.
fn find_unknown(papers: &FlatPapers, list: &[SchoolNo]) -> Option<SchoolNo>
    ensures { result ≡ find (λ s. not (is_school papers.now s)) list.now }
{
    list.iter()
        .copied()
        .find(|school| !is_known(papers, *school))
}

fn check_length(list: &[SchoolNo]) -> Result<(), Refusal>
    ensures { result ≡ unless_refused (too_long list.now) }
{
    if list.len() > LONGEST_LIST {
        return Err(Refusal::ListTooLong);
    }
    Ok(())
}

fn check_some(choices: &[SchoolNo]) -> Result<(), Refusal>
    ensures { result ≡ unless_refused (no_choices choices.now) }
{
    if choices.is_empty() {
        return Err(Refusal::EmptyList);
    }
    Ok(())
}

fn check_known(papers: &FlatPapers, list: &[SchoolNo]) -> Result<(), Refusal>
    ensures { result ≡ unless_refused (unknown_in papers.now list.now) }
{
    match find_unknown(papers, list) {
        Some(school) => Err(Refusal::UnknownSchool { school }),
        None => Ok(()),
    }
}

/// The test of a school that comes alone, if there is one.
pub(crate) fn check_school(papers: &FlatPapers, school: Option<SchoolNo>) -> Result<(), Refusal>
    ensures { result ≡ unless_refused (unknown_school papers.now school) }
{
    match school {
        Some(school) if !is_known(papers, school) => Err(Refusal::UnknownSchool { school }),
        _ => Ok(()),
    }
}

fn check_once(list: &[SchoolNo]) -> Result<(), Refusal>
    ensures { result ≡ unless_refused (twice_in list.now) }
{
    match find_repeat(list) {
        Some(school) => Err(Refusal::SchoolTwice { school }),
        None => Ok(()),
    }
}

fn check_student(papers: &FlatPapers, student: StudentNumber) -> Result<(), Refusal>
    ensures { result ≡ unless_refused (unknown_student papers.now student) }
{
    if !is_student(papers, student) {
        return Err(Refusal::UnknownStudent);
    }
    Ok(())
}

/// The tests of a list that comes alone, in the order of the refusals' codes.
fn check_list(papers: &FlatPapers, list: &[SchoolNo]) -> Result<(), Refusal>
    ensures { result ≡ unless_refused (first_of (objections_to_list papers.now list.now)) }
{
    check_length(list)?;
    check_known(papers, list)?;
    check_once(list)?;
    Ok(())
}

/// The tests of an `Enter`, in the order of the refusals' codes.
pub(crate) fn check_enter(
    papers: &FlatPapers,
    student: StudentNumber,
    siblings: &[SchoolNo],
    choices: &[SchoolNo],
    continuing: Option<SchoolNo>,
) -> Result<(), Refusal>
    ensures { result ≡ unless_refused
        (first_of (objections_to_enter papers.now student siblings.now choices.now continuing)) }
{
    if is_student(papers, student) {
        return Err(Refusal::StudentExists);
    }
    check_some(choices)?;
    check_length(choices)?;
    check_length(siblings)?;
    check_known(papers, choices)?;
    check_known(papers, siblings)?;
    check_school(papers, continuing)?;
    check_once(choices)?;
    check_once(siblings)?;
    if papers.students_len() >= MOST_STUDENTS {
        return Err(Refusal::RosterFull);
    }
    Ok(())
}

/// The tests of an `Enter` whose choices' schools stand at these positions, in the order of the refusals' codes. They are in
/// the papers, few, and differ, so that of the choices nothing is tested but whether there are any.
pub(crate) fn check_enter_at(
    papers: &FlatPapers,
    student: StudentNumber,
    siblings: &[SchoolNo],
    choices: &PositionList,
    continuing: Option<SchoolNo>,
) -> Result<(), Refusal>
    ensures { result ≡ unless_refused
        (first_of (objections_to_enter_at papers.now student siblings.now choices.now continuing)) }
{
    if is_student(papers, student) {
        return Err(Refusal::StudentExists);
    }
    if choices.as_slice().is_empty() {
        return Err(Refusal::EmptyList);
    }
    check_length(siblings)?;
    check_known(papers, siblings)?;
    check_school(papers, continuing)?;
    check_once(siblings)?;
    if papers.students_len() >= MOST_STUDENTS {
        return Err(Refusal::RosterFull);
    }
    Ok(())
}

/// The tests of a `Withdraw`.
pub(crate) fn check_withdraw(papers: &FlatPapers, student: StudentNumber) -> Result<(), Refusal>
    ensures { result ≡ unless_refused (first_of (objections_to_withdraw papers.now student)) }
{
    check_student(papers, student)?;
    Ok(())
}

/// The tests of a `Rerank`, in the order of the refusals' codes.
pub(crate) fn check_rerank(
    papers: &FlatPapers,
    student: StudentNumber,
    choices: &[SchoolNo],
) -> Result<(), Refusal>
    ensures { result ≡ unless_refused (first_of (objections_to_rerank papers.now student choices.now)) }
{
    check_student(papers, student)?;
    check_some(choices)?;
    check_list(papers, choices)?;
    Ok(())
}

/// The tests of an `Add`, in the order of the refusals' codes.
#[tactic(auto, unfolding(crate::specs::Market::seats_of))]
pub(crate) fn check_add(papers: &FlatPapers, school: SchoolNo, count: Count) -> Result<(), Refusal>
    ensures { result ≡ unless_refused (first_of (objections_to_add papers.now school count)) }
{
    let Some(found) = papers.school(school) else {
        return Err(Refusal::UnknownSchool { school });
    };
    if found.seats.get() + count.get() > Seats::GREATEST {
        return Err(Refusal::TooManySeats);
    }
    Ok(())
}

/// The tests of a `Close`, in the order of the refusals' codes.
#[tactic(auto, unfolding(crate::specs::Market::seats_of))]
pub(crate) fn check_close(
    papers: &FlatPapers,
    school: SchoolNo,
    count: Count,
) -> Result<(), Refusal>
    ensures { result ≡ unless_refused (first_of (objections_to_close papers.now school count)) }
{
    let Some(found) = papers.school(school) else {
        return Err(Refusal::UnknownSchool { school });
    };
    if found.seats.get() < count.get() {
        return Err(Refusal::TooFewSeats);
    }
    Ok(())
}

/// The tests of a `Correct`, in the order of the refusals' codes.
pub(crate) fn check_correct(
    papers: &FlatPapers,
    student: StudentNumber,
    siblings: &[SchoolNo],
    continuing: Option<SchoolNo>,
) -> Result<(), Refusal>
    ensures { result ≡ unless_refused (first_of (objections_to_correct papers.now student siblings.now continuing)) }
{
    check_student(papers, student)?;
    check_length(siblings)?;
    check_known(papers, siblings)?;
    check_school(papers, continuing)?;
    check_once(siblings)?;
    Ok(())
}

impl FlatPapers {
    /// Whether the papers allow the amendment: `Ok`, or the first refusal that applies, in the order
    /// of the refusals' codes. It takes no memory, and costs the lengths of the lists, a look-up
    /// for each school named.
    pub fn check(&self, amendment: &Amendment) -> Result<(), Refusal>
        ensures { result ≡ unless_refused (verdict self.now amendment.now) }
    {
        match amendment {
            Amendment::Enter {
                student,
                siblings,
                choices,
                continuing,
                ..
            } => check_enter(
                self,
                *student,
                siblings.as_slice(),
                choices.as_slice(),
                *continuing,
            ),
            Amendment::Withdraw { student } => check_withdraw(self, *student),
            Amendment::Rerank { student, choices } => {
                check_rerank(self, *student, choices.as_slice())
            }
            Amendment::Add { school, count } => check_add(self, *school, *count),
            Amendment::Close { school, count } => check_close(self, *school, *count),
            Amendment::Correct {
                student,
                siblings,
                continuing,
                ..
            } => check_correct(self, *student, siblings.as_slice(), *continuing),
        }
    }
}
