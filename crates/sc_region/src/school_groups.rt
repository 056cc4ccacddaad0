//! Groups of schools that are joined step by step.

ghost use Rattle.std.specs.Prelude.{◌≡◌, ◌<◌, true, length, IfOk, ℕ, List, slice_index};
ghost use Rattle.std.specs.List.{range_with_len};
ghost use Rattle.sc_region.specs.Groups.{joined};
ghost use Rattle.sc_region.specs.Roots.{root_of, roots_of, AreParents, KeepsRoots};

use std::alloc::{AllocError, Global};
use std::marker::Model;

/// Which schools are in one group, by their positions in the order of entry. A group goes by the least
/// position in it.
///
/// The groups are trees of parents, each with its least position for a root (disjoint sets). A climb to a
/// root halves the way that it takes, so that climbs in turn cost few steps each: at most, on average, the
/// logarithm of the number of schools.
#[derive(Drop)]
pub(crate) struct SchoolGroups {
    // The parent of each position, at it or before it. A root is its own parent.
    parents: Vec<usize>,
}

impl Model for SchoolGroups {
    ghost Value = { List ℕ };

    ghost view = { λ g. roots_of g.parents.items };

    ghost invariant = { λ g. AreParents g.parents.items };
}

/// The positions below a count, in order.
fn positions(alloc: Global, count: usize) -> Result<Vec<usize>, AllocError>
    ensures { IfOk result (λ positions. positions.items ≡ range_with_len 0 count) }
{
    (0..count).collect(alloc)
}

/// The root of a position. On the way to it, parents give way to their own parents.
fn find_root(parents: &mut Vec<usize>, position: usize) -> usize
    requires within { position < length parents.old.items }
    requires low { AreParents parents.old.items }
    ensures root { result ≡ root_of parents.old.items position }
    ensures keeps { KeepsRoots parents.old.items parents.new.items }
{
    let mut at = position;
    'climb: while parents[at] != at {
        let parent = parents[at];
        parents[at] = parents[parent];
        at = parents[at];
    }
    at
}

/// Whether two positions have one parent, and so one root.
#[tactic(auto, using(crate::proofs::Roots::root_shared))]
fn have_one_parent(parents: &Vec<usize>, a: usize, b: usize) -> bool
    requires first { a < length parents.now.items }
    requires second { b < length parents.now.items }
    requires low { AreParents parents.now.items }
    ensures { result ≡ true → root_of parents.now.items a ≡ root_of parents.now.items b }
{
    parents[a] == parents[b]
}

/// Makes each position's root its parent.
#[tactic(auto, using(crate::proofs::Roots::flat_all))]
fn flatten(parents: &mut Vec<usize>)
    requires { AreParents parents.old.items }
    ensures { parents.new.items ≡ roots_of parents.old.items }
{
    for position in 0..parents.len() {
        let parent = parents[position];
        parents[position] = parents[parent];
    }
}

impl SchoolGroups {
    /// Each of so many schools in a group of its own.
    #[tactic(auto, using(crate::proofs::Roots::start_low, crate::proofs::Roots::roots_start))]
    pub(crate) fn new(alloc: Global, count: usize) -> Result<Self, AllocError>
        ensures { IfOk result (λ groups. groups ≡ range_with_len 0 count) }
    {
        Ok(SchoolGroups {
            parents: positions(alloc, count)?,
        })
    }

    /// Makes the groups at two positions one.
    #[tactic(auto, using(crate::proofs::Roots::length_roots, crate::proofs::Roots::root_low))]
    pub(crate) fn join(&mut self, a: usize, b: usize)
        requires first { a < length self.old }
        requires second { b < length self.old }
        ensures joined { self.new ≡ joined self.old a b }
        ensures one_each { length self.new ≡ length self.old }
    {
        // Most often they are in one group by now, and nothing is to be climbed.
        if have_one_parent(&self.parents, a, b) {
            return;
        }
        let first = find_root(&mut self.parents, a);
        let second = find_root(&mut self.parents, b);
        self.parents[first.max(second)] = first.min(second);
    }

    /// The number of the group at a position. It costs a climb.
    #[tactic(auto, using(crate::proofs::Roots::told_roots))]
    pub(crate) fn group_at(&mut self, position: usize) -> usize
        requires { position < length self.old }
        ensures group { result ≡ slice_index self.old position }
        ensures same { self.new ≡ self.old }
    {
        find_root(&mut self.parents, position)
    }

    /// The number of the group at each position. One pass over them.
    pub(crate) fn into_numbers(self) -> Vec<usize>
        ensures { result.items ≡ self }
    {
        let mut numbers = self.parents;
        flatten(&mut numbers);
        numbers
    }
}
