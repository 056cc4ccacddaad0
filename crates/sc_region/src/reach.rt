//! How far an amendment reaches.

ghost use Rattle.std.specs.Prelude.{◌≡◌, ◌↔◌, ℕ, None, true, length, Contains, OnOk, IfOk, IfErr};
ghost use Rattle.std.specs.List.Sorted.{IsStrictlyIncreasing};
ghost use Rattle.sc_papers.specs.Market.{is_school, is_student, schools_of};
ghost use Rattle.sc_papers.specs.Verdict.{verdict, IsRefusal};
ghost use Rattle.sc_region.specs.Groups.{first_choice, group_of, members_beside, new_choices, position_of, start_of, widened, IsAllowedBeside};
ghost use Rattle.sc_region.specs.Region.{InRegion};

use crate::grouping::{groups_of, join_list, position_of};
use crate::members::is_member;
use crate::region_list::RegionList;
use sc_papers::{Amendment, FlatPapers, MOST_STUDENTS, Refusal, SchoolNo, StudentNo};
use std::alloc::{AllocError, Global};

/// The first choice of a student of the papers.
pub(crate) fn first_choice(papers: &FlatPapers, student: StudentNo) -> SchoolNo
    requires { is_student papers.now student ≡ true }
    ensures first { result ≡ first_choice papers.now student }
    ensures known { is_school papers.now result ≡ true }
{
    // This call tells that the papers are well-formed, so that there are choices.
    prove!(papers.students_len() <= MOST_STUDENTS);
    let Some(position) = papers.student_position(student) else {
        unreachable!()
    };
    let Some(school) = papers.choice_at(position, 0) else {
        unreachable!()
    };
    school
}

/// The choices that come with the amendment.
pub(crate) fn new_choices(amendment: &Amendment) -> &[SchoolNo]
    ensures { result.now ≡ new_choices amendment.now }
{
    match amendment {
        Amendment::Enter { choices, .. } | Amendment::Rerank { choices, .. } => choices.as_slice(),
        _ => &[],
    }
}

/// Joins the new choices to the school to begin with, and answers where that one stands: a school that the amendment
/// concerns, the amended one or a choice of the amended student.
pub(crate) fn widen(papers: &FlatPapers, amendment: &Amendment, groups: &mut Vec<usize>) -> usize
    requires { IsAllowedBeside papers.now amendment.now groups.old.items }
    ensures start { result ≡ position_of papers.now (start_of papers.now amendment.now) }
    ensures widened { groups.new.items ≡ widened papers.now amendment.now groups.old.items }
    ensures one_each { length groups.new.items ≡ length (schools_of papers.now) }
{
    match amendment {
        Amendment::Enter { choices, .. } => {
            let first = choices.as_slice()[0];
            join_list(papers, groups, first, choices.as_slice())
        }
        Amendment::Rerank { student, choices } => {
            let first = first_choice(papers, *student);
            join_list(papers, groups, first, choices.as_slice())
        }
        Amendment::Withdraw { student } | Amendment::Correct { student, .. } => {
            position_of(papers, first_choice(papers, *student))
        }
        Amendment::Add { school, .. } | Amendment::Close { school, .. } => {
            position_of(papers, *school)
        }
    }
}

/// The students of the papers whose first choice is in the group of the school to begin with, in order of entry, and then
/// whoever enters.
fn region_members(
    alloc: Global,
    papers: &FlatPapers,
    amendment: &Amendment,
    groups: &[usize],
    group: usize,
) -> Result<Vec<StudentNo>, AllocError>
    requires beside { IsAllowedBeside papers.now amendment.now groups.now }
    requires group { group ≡ group_of papers.now groups.now (start_of papers.now amendment.now) }
    ensures { IfOk result (λ members. members.items ≡ members_beside papers.now amendment.now groups.now) }
{
    let mut members = Vec::new(alloc);
    for position in 0..papers.students_len() {
        let Some(student) = papers.student_at(position) else {
            unreachable!()
        };
        if is_member(papers, groups, group, position) {
            members.push(student)?;
        }
    }
    if let Amendment::Enter { student, .. } = amendment {
        members.push(*student)?;
    }
    Ok(members)
}

/// The students whom an amendment of the papers may concern, by rising number: the amended student, or
/// whoever lists the amended school, and then each who lists a school that one of them lists, by the
/// choices before the amendment or by those after it.
///
/// Answers the first refusal of the amendment that applies, as `FlatPapers::check` does, or else want of
/// memory. The papers are not changed.
///
/// The cost is one pass over all choices, by their positions, with steps to the root of each one's group, one over
/// the schools for each group that the new choices join, and a sort of the region. Memory is taken for each school
/// and for each student of the region.
pub fn region(
    alloc: Global,
    papers: &FlatPapers,
    amendment: &Amendment,
) -> Result<RegionList, Refusal>
    ensures allowed { OnOk result (verdict papers.now amendment.now ≡ None) }
    ensures rising { IfOk result IsStrictlyIncreasing }
    ensures region { IfOk result (λ region. (i : ℕ) → (Contains region i ↔ InRegion papers.now amendment.now i)) }
    ensures refused { IfErr result (IsRefusal (verdict papers.now amendment.now)) }
{
    papers.check(amendment)?;
    // This call tells that the papers are well-formed.
    prove!(papers.students_len() <= MOST_STUDENTS);
    let mut groups = groups_of(alloc, papers)?.into_numbers();
    let start = widen(papers, amendment, &mut groups);
    let members = region_members(alloc, papers, amendment, groups.as_slice(), groups[start])?;
    let region = RegionList::by_number(members);
    // And this one that its numbers rise.
    prove!(region.len() <= usize::MAX);
    Ok(region)
}
