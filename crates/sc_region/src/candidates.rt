//! Students who may be in a region, by position.

ghost use Rattle.std.specs.Prelude.{◌≡◌, ◌<◌, ◌↔◌, ℕ, true, length, slice_index, Contains, IfOk, OnOk};
ghost use Rattle.std.specs.List.Sorted.{IsStrictlyIncreasing};
ghost use Rattle.sc_papers.specs.Market.{schools_of, student_at, students_of};
ghost use Rattle.sc_region.specs.Districts.{firsts_at, lists_in, students_in};
ghost use Rattle.sc_region.specs.Groups.{schools_of_group, positions_in};
ghost use Rattle.sc_region.specs.Telling.{HeldTogether};

use crate::first::First;
use crate::grouping::groups_among;
use crate::members::is_member;
use crate::school_groups::SchoolGroups;
use sc_papers::{FlatPapers, MOST_STUDENTS};
use std::alloc::{AllocError, Global};

// How many lists for each school are tried at first, to see whether they hold all schools together: of lists of twelve choices
// fewer than one for each school mostly do, of short ones more.
const LISTS_FOR_SCHOOL: usize = 4;

/// The positions of the schools of a group, rising. One pass over all schools, so that what follows passes over these alone.
#[tactic(auto, unfolding(crate::specs::Groups::schools_of_group))]
pub(crate) fn schools_of_group(
    alloc: Global,
    groups: &[usize],
    group: usize,
) -> Result<Vec<usize>, AllocError>
    ensures { IfOk result (λ schools. schools.items ≡ schools_of_group groups.now group) }
{
    let mut schools = Vec::new(alloc);
    for school in 0..groups.len() {
        if groups[school] == group {
            schools.push(school)?;
        }
    }
    Ok(schools)
}

/// Puts the positions of the students of a list at the end of others; whoever is not in the papers has none.
fn push_positions(
    papers: &FlatPapers,
    firsts: &[First],
    positions: &mut Vec<usize>,
) -> Result<(), AllocError>
    requires { (p : ℕ) → Contains positions.old.items p → p < length (students_of papers.now) }
    ensures within { OnOk result ((p : ℕ) → Contains positions.new.items p → p < length (students_of papers.now)) }
    ensures keeps { OnOk result ((p : ℕ) → Contains positions.old.items p → Contains positions.new.items p) }
    ensures all { OnOk result ((p : ℕ) → p < length (students_of papers.now)
        → Contains (students_in firsts.now) (student_at papers.now p) → Contains positions.new.items p) }
{
    // This call tells that the papers are well-formed, so that each student has one position.
    prove!(papers.students_len() <= MOST_STUDENTS);
    for first in firsts {
        if let Some(position) = papers.student_position_near(first.student, first.guess()) {
            positions.push(position)?;
        }
    }
    Ok(())
}

/// These positions rising, each once. Mostly they rise from school to school, and such runs are merged.
fn rising(mut positions: Vec<usize>) -> Result<Vec<usize>, AllocError>
    ensures rising { IfOk result (λ rising. IsStrictlyIncreasing rising.items) }
    ensures same { IfOk result (λ rising. (p : ℕ) → (Contains rising.items p ↔ Contains positions.items p)) }
{
    positions.sort()?;
    positions.dedup();
    Ok(positions)
}

/// The positions of the students who are listed at the schools at these positions, rising.
pub(crate) fn listed_at(
    alloc: Global,
    papers: &FlatPapers,
    firsts: &Vec<Vec<First>>,
    schools: &[usize],
) -> Result<Vec<usize>, AllocError>
    requires { (at : ℕ) → Contains schools.now at → at < length firsts.now.items }
    ensures rising { IfOk result (λ positions. IsStrictlyIncreasing positions.items) }
    ensures within { IfOk result (λ positions. (p : ℕ) → Contains positions.items p
        → p < length (students_of papers.now)) }
    ensures all { IfOk result (λ positions. (at p : ℕ) → Contains schools.now at
        → p < length (students_of papers.now)
        → Contains (firsts_at (lists_in firsts.now.items) at) (student_at papers.now p)
        → Contains positions.items p) }
{
    let mut positions = Vec::new(alloc);
    for school in schools {
        push_positions(papers, firsts[*school].as_slice(), &mut positions)?;
    }
    let listed = rising(positions)?;
    Ok(listed)
}

/// How many students are listed at the schools at these positions, or the greatest number where it is more.
pub(crate) fn count_at(firsts: &Vec<Vec<First>>, schools: &[usize]) -> usize
    requires { (at : ℕ) → Contains schools.now at → at < length firsts.now.items }
{
    let mut count: usize = 0;
    for school in schools {
        count = count.saturating_add(firsts[*school].len());
    }
    count
}

/// Whether the schools at these positions are in one group, that of the school to begin with.
fn hold_together(groups: &mut SchoolGroups, schools: &[usize], start: usize) -> bool
    requires schools { (at : ℕ) → Contains schools.now at → at < length groups.old }
    requires start { start < length groups.old }
    ensures { result ≡ true → (at : ℕ) → Contains schools.now at
        → slice_index groups.old at ≡ slice_index groups.old start }
{
    let group = groups.group_at(start);
    for school in schools {
        if groups.group_at(*school) != group {
            return false;
        }
    }
    true
}

/// Positions of students that lie evenly among all, a few for each school.
pub(crate) fn spread_positions(alloc: Global, papers: &FlatPapers) -> Result<Vec<usize>, AllocError>
    ensures { IfOk result (λ positions. (p : ℕ) → Contains positions.items p
        → p < length (students_of papers.now)) }
{
    let students = papers.students_len();
    let few = papers.schools_len().saturating_mul(LISTS_FOR_SCHOOL);
    let step = students.checked_div(few).unwrap_or(0).saturating_add(1);
    let mut positions = Vec::new(alloc);
    let mut position: usize = 0;
    'step: while position < students {
        positions.push(position)?;
        position = position.saturating_add(step);
    }
    Ok(positions)
}

/// Of the students who may be in the region, as many as there are lists that most often hold their district together.
pub(crate) fn first_few<'a>(schools: &[usize], candidates: &'a [usize]) -> &'a [usize]
    ensures { (p : ℕ) → Contains result.now p → Contains candidates.now p }
{
    let few = schools.len().saturating_mul(LISTS_FOR_SCHOOL);
    &candidates[..few.min(candidates.len())]
}

/// Whether the lists of a few students join the schools at these positions with the school to begin with. They mostly
/// do so for the schools of a district, and then whoever has their first choice in it is in the region, and no other
/// lists are joined.
pub(crate) fn few_hold_together(
    alloc: Global,
    papers: &FlatPapers,
    schools: &[usize],
    start: usize,
    few: &[usize],
) -> Result<bool, AllocError>
    requires schools { (at : ℕ) → Contains schools.now at → at < length (schools_of papers.now) }
    requires start { start < length (schools_of papers.now) }
    requires within { (p : ℕ) → Contains few.now p → p < length (students_of papers.now) }
    ensures { IfOk result (λ together. together ≡ true → HeldTogether papers.now schools.now start) }
{
    let mut groups = groups_among(alloc, papers, few)?;
    Ok(hold_together(&mut groups, schools, start))
}

/// Of these positions, those of the students whose first choice is in a group.
pub(crate) fn positions_in(
    alloc: Global,
    papers: &FlatPapers,
    groups: &[usize],
    group: usize,
    candidates: &[usize],
) -> Result<Vec<usize>, AllocError>
    requires one_each { length groups.now ≡ length (schools_of papers.now) }
    requires within { (p : ℕ) → Contains candidates.now p → p < length (students_of papers.now) }
    ensures { IfOk result (λ positions. positions.items ≡ positions_in papers.now groups.now group candidates.now) }
{
    let mut positions = Vec::with_capacity(alloc, candidates.len())?;
    for position in candidates {
        if is_member(papers, groups, group, *position) {
            positions.push(*position)?;
        }
    }
    Ok(positions)
}
