//! Who has each school, and who waits for it.
ghost use Rattle.std.specs.Prelude.{◌≡◌, ◌+◌, ◌<◌, ◌≤◌, ◌==◌, length, take, IfOk, OnOk};
ghost use Rattle.std.specs.List.{before_first, list_any, position_or_len};
ghost use Rattle.sc_papers.specs.Assignment.{assigned};
ghost use Rattle.sc_papers.specs.Market.{choices_of, schools_of, student_at, students_of};
ghost use Rattle.sc_notices.specs.Explanation.{is_given};
ghost use Rattle.sc_notices.specs.KeyLists.{AddsKeys, AreCandidates, TakesKeys};

use crate::key_lists::KeyLists;
use crate::ranks::rank_among;
use sc_papers::{Assignment, FlatPapers, Papers, SchoolNo};
use std::alloc::{AllocError, Global};

/// The keys of those who have each school, and of those who wait for it, by the school's position in the order of entry.
pub(crate) struct Candidates {
    pub admitted: KeyLists,
    pub waiting: KeyLists,
}

impl Drop for Candidates {
    fn drop(self) {
        let Candidates {
            admitted: _,
            waiting: _,
        } = self;
    }
}

/// Adds the key of the student at a position of the order of entry to the list of the school that they have, if any.
fn add_holder(
    admitted: &mut KeyLists,
    papers: &FlatPapers,
    student: usize,
    held: Option<SchoolNo>,
) -> Result<(), AllocError>
    requires { TakesKeys papers.now student admitted.old }
    ensures { OnOk result (AddsKeys papers.now (student_at papers.now student)
        (is_given held) admitted.old admitted.new) }
{
    let Some(school) = held else {
        return Ok(());
    };
    let Some(position) = papers.school_position(school) else {
        return Ok(());
    };
    let Some(key) = papers.key_at(student, position) else {
        unreachable!()
    };
    admitted.add(position, key)
}

/// How many choices a student prefers to the school that they have, if any: those before it, or all.
fn preferred_count(choices: &[SchoolNo], held: Option<SchoolNo>) -> usize
    ensures { result ≡ position_or_len (is_given held) choices.now }
{
    match held {
        Some(school) => rank_among(choices, school).unwrap_or(choices.len()),
        None => choices.len(),
    }
}

/// Adds the key of the student at a position of the order of entry to the lists of their first choices, so many of them.
fn add_choices(
    waiting: &mut KeyLists,
    papers: &FlatPapers,
    student: usize,
    count: usize,
) -> Result<(), AllocError>
    requires takes { TakesKeys papers.now student waiting.old }
    requires count { count ≤ length (choices_of papers.now (student_at papers.now student)) }
    ensures { OnOk result (AddsKeys papers.now (student_at papers.now student) (λ s. list_any (λ t. t == s)
        (take count (choices_of papers.now (student_at papers.now student)))) waiting.old waiting.new) }
{
    // This call tells that the papers are well-formed.
    prove!(student < papers.students_len());
    for rank in 0..count {
        let Some(choice) = papers.proposal(student, rank) else {
            unreachable!()
        };
        waiting.add(choice.position, choice.key)?;
    }
    Ok(())
}

/// Adds the key of the student at a position of the order of entry to the lists of the choices that they prefer to the
/// school that they have, if any.
fn add_preferred(
    waiting: &mut KeyLists,
    papers: &Papers,
    student: usize,
    held: Option<SchoolNo>,
) -> Result<(), AllocError>
    requires { TakesKeys papers.now student waiting.old }
    ensures { OnOk result (AddsKeys papers.now (student_at papers.now student)
        (λ s. list_any (λ t. t == s) (before_first (is_given held)
        (choices_of papers.now (student_at papers.now student)))) waiting.old waiting.new) }
{
    let count = preferred_count(papers.choices_at(student), held);
    add_choices(waiting, papers, student, count)
}

/// The keys of those who have each school by an assignment, and of those who wait for it. The only error is want of
/// memory, which is taken for each of the choices up to the one that a student has. One pass over the students' choices,
/// without a look-up by number of a choice's school.
pub(crate) fn find_candidates(
    alloc: Global,
    papers: &Papers,
    places: &Assignment,
) -> Result<Candidates, AllocError>
    ensures candidates { IfOk result (λ found.
        AreCandidates papers.now (assigned places.now) (students_of papers.now) found.admitted found.waiting) }
{
    let mut candidates = Candidates {
        admitted: KeyLists::empty(alloc, papers.schools_len())?,
        waiting: KeyLists::empty(alloc, papers.schools_len())?,
    };
    // Mostly the pairs stand in the students' order.
    let mut guess: usize = 0;
    for position in 0..papers.students_len() {
        let Some(student) = papers.student_at(position) else {
            unreachable!()
        };
        let held = places.get_near(student, guess);
        add_holder(&mut candidates.admitted, papers, position, held)?;
        add_preferred(&mut candidates.waiting, papers, position, held)?;
        guess = guess.saturating_add(usize::from(held.is_some()));
    }
    Ok(candidates)
}
