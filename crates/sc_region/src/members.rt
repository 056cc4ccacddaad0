//! The students whose lists a group of schools has.

ghost use Rattle.std.specs.Prelude.{◌≡◌, ◌<◌, length, IfOk};
ghost use Rattle.std.specs.List.{range_with_len};
ghost use Rattle.sc_papers.specs.Market.{schools_of, student_at, students_of};
ghost use Rattle.sc_region.specs.Groups.{is_member, positions_in};

use crate::grouping::first_position_at;
use sc_papers::FlatPapers;
use std::alloc::{AllocError, Global};

/// Whether the first choice of the student at a position is in a group.
#[tactic(auto, unfolding(crate::specs::Groups::is_member))]
pub(crate) fn is_member(
    papers: &FlatPapers,
    groups: &[usize],
    group: usize,
    position: usize,
) -> bool
    requires one_each { length groups.now ≡ length (schools_of papers.now) }
    requires within { position < length (students_of papers.now) }
    ensures { result ≡ is_member papers.now groups.now group (student_at papers.now position) }
{
    groups[first_position_at(papers, position)] == group
}

/// The positions of the students of the papers whose first choice is in a group, rising.
#[tactic(auto, unfolding(crate::specs::Groups::positions_in))]
pub(crate) fn positions_of(
    alloc: Global,
    papers: &FlatPapers,
    groups: &[usize],
    group: usize,
) -> Result<Vec<usize>, AllocError>
    requires { length groups.now ≡ length (schools_of papers.now) }
    ensures { IfOk result (λ positions. positions.items
        ≡ positions_in papers.now groups.now group (range_with_len 0 (length (students_of papers.now)))) }
{
    let mut positions = Vec::new(alloc);
    for position in 0..papers.students_len() {
        if is_member(papers, groups, group, position) {
            positions.push(position)?;
        }
    }
    Ok(positions)
}
