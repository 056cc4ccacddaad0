//! The groups of schools that students' lists join.

ghost use Rattle.std.specs.Prelude.{◌≡◌, ◌<◌, ◌==◌, ℕ, true, length, map, slice_index, Contains, IfOk, if◌then◌else◌};
ghost use Rattle.sc_papers.specs.Market.{is_school, schools_of, student_at, students_of};
ghost use Rattle.sc_region.specs.Groups.{first_choice, joined, joined_choices, joined_list, joined_students, moved, position_of, students_at};

use crate::school_groups::SchoolGroups;
use sc_papers::{FlatPapers, SchoolNo};
use std::alloc::{AllocError, Global};

/// The position of a school of the papers.
pub(crate) fn position_of(papers: &FlatPapers, school: SchoolNo) -> usize
    requires { is_school papers.now school ≡ true }
    ensures position { result ≡ position_of papers.now school }
    ensures within { result < length (schools_of papers.now) }
{
    let Some(position) = papers.school_position(school) else {
        unreachable!()
    };
    position
}

/// Puts one number wherever another stands.
fn renumber(groups: &mut Vec<usize>, kept: usize, lost: usize)
    ensures { groups.new.items ≡ map (moved kept lost) groups.old.items }
{
    for position in 0..groups.len() {
        if groups[position] == lost {
            groups[position] = kept;
        }
    }
}

/// Makes the groups at two positions one, under the lesser of their numbers.
fn join(groups: &mut Vec<usize>, a: usize, b: usize)
    requires first { a < length groups.old.items }
    requires second { b < length groups.old.items }
    ensures { groups.new.items ≡ joined groups.old.items a b }
{
    let first = groups[a];
    let second = groups[b];
    if first != second {
        renumber(groups, first.min(second), first.max(second));
    }
}

/// Joins each school of a list to one school, and answers where that one stands. Each that was in another group costs a
/// pass over the schools: that does for the few new choices of an amendment, and the lists of many students are joined in
/// `SchoolGroups`.
#[tactic(auto, unfolding(crate::specs::Groups::joined_list))]
pub(crate) fn join_list(
    papers: &FlatPapers,
    groups: &mut Vec<usize>,
    first: SchoolNo,
    list: &[SchoolNo],
) -> usize
    requires one_each { length groups.old.items ≡ length (schools_of papers.now) }
    requires first { is_school papers.now first ≡ true }
    requires known { (s : ℕ) → Contains list.now s → is_school papers.now s ≡ true }
    ensures position { result ≡ position_of papers.now first }
    ensures joined { groups.new.items ≡ joined_list papers.now first groups.old.items list.now }
    ensures one_each { length groups.new.items ≡ length (schools_of papers.now) }
{
    let first_position = position_of(papers, first);
    for school in list {
        join(groups, first_position, position_of(papers, *school));
    }
    first_position
}

/// Gives the schools of a group the numbers that they have among other groups.
pub(crate) fn regroup(groups: &mut Vec<usize>, group: usize, others: &[usize])
    requires { length others.now ≡ length groups.old.items }
    ensures numbers { (p : ℕ) → p < length groups.old.items
        → slice_index groups.new.items p
        ≡ (if slice_index groups.old.items p == group then slice_index others.now p
        else slice_index groups.old.items p) }
    ensures one_each { length groups.new.items ≡ length groups.old.items }
{
    for position in 0..groups.len() {
        if groups[position] == group {
            groups[position] = others[position];
        }
    }
}

/// The position of the first choice of the student at a position, without a look-up by number.
pub(crate) fn first_position_at(papers: &FlatPapers, position: usize) -> usize
    requires { position < length (students_of papers.now) }
    ensures position { result ≡ position_of papers.now (first_choice papers.now (student_at papers.now position)) }
    ensures within { result < length (schools_of papers.now) }
{
    // This call tells that the papers are well-formed, so that there are choices.
    prove!(position < papers.students_len());
    papers.classed_choices_at(position)[0].position()
}

/// Joins the choices of the student at a position, by their positions alone.
fn join_choices(papers: &FlatPapers, groups: &mut SchoolGroups, position: usize)
    requires one_each { length groups.old ≡ length (schools_of papers.now) }
    requires within { position < length (students_of papers.now) }
    ensures joined { groups.new ≡ joined_choices papers.now groups.old (student_at papers.now position) }
    ensures one_each { length groups.new ≡ length (schools_of papers.now) }
{
    let first = first_position_at(papers, position);
    for choice in papers.classed_choices_at(position) {
        groups.join(first, choice.position());
    }
}

/// The groups that the choices of all students join.
#[tactic(auto, using(std::proofs::lemmas::List::Sums::fold_more), unfolding(crate::specs::Groups::joined_students))]
pub(crate) fn groups_of(alloc: Global, papers: &FlatPapers) -> Result<SchoolGroups, AllocError>
    ensures joined { IfOk result (λ groups. groups ≡ joined_students papers.now (students_of papers.now)) }
    ensures one_each { IfOk result (λ groups. length groups ≡ length (schools_of papers.now)) }
{
    let mut groups = SchoolGroups::new(alloc, papers.schools_len())?;
    for position in 0..papers.students_len() {
        join_choices(papers, &mut groups, position);
    }
    Ok(groups)
}

/// The groups that the choices of the students at these positions join.
#[tactic(auto, using(crate::proofs::Joining::joined_next))]
pub(crate) fn groups_among(
    alloc: Global,
    papers: &FlatPapers,
    positions: &[usize],
) -> Result<SchoolGroups, AllocError>
    requires { (p : ℕ) → Contains positions.now p → p < length (students_of papers.now) }
    ensures joined { IfOk result (λ groups. groups
        ≡ joined_students papers.now (students_at papers.now positions.now)) }
    ensures one_each { IfOk result (λ groups. length groups ≡ length (schools_of papers.now)) }
{
    let mut groups = SchoolGroups::new(alloc, papers.schools_len())?;
    for position in positions {
        join_choices(papers, &mut groups, *position);
    }
    Ok(groups)
}
