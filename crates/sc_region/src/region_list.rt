//! The students of a region.

ghost use Rattle.std.specs.Prelude.{ℕ, List, ◌≡◌, ◌==◌, ◌↔◌, nat_eq, IsTrue, Contains, length, slice_get};
ghost use Rattle.std.specs.List.Sorted.{IsStrictlyIncreasing, IsPermutation};
ghost use Rattle.std.specs.List.{IsDistinct};

use sc_papers::StudentNo;
use std::marker::Model;

/// The students of a region, by rising number.
#[derive(Debug, Drop)]
pub struct RegionList {
    students: Vec<StudentNo>,
}

impl Model for RegionList {
    ghost Value = { List ℕ };

    ghost view = { λ l. l.students.items };

    ghost invariant = { λ l. IsStrictlyIncreasing l.students.items };
}

impl RegionList {
    /// The list of these students, who differ. It takes no memory.
    pub(crate) fn by_number(mut students: Vec<StudentNo>) -> Self
        requires { IsDistinct nat_eq students.items }
        ensures { IsPermutation students.items result }
    {
        students.sort_unstable();
        RegionList { students }
    }

    /// How many students there are. Their numbers always rise, and this call tells its callers so.
    pub fn len(&self) -> usize
        ensures count { result ≡ length self.now }
        ensures rising { IsStrictlyIncreasing self.now }
    {
        self.students.len()
    }

    /// Whether there are none.
    pub fn is_empty(&self) -> bool
        ensures { result ≡ (length self.now == 0) }
    {
        self.students.is_empty()
    }

    /// The student at a position, from 0, or `None` past the last one. In constant time.
    pub fn at(&self, position: usize) -> Option<StudentNo>
        ensures { result ≡ slice_get self.now position }
    {
        self.students.get(position).copied()
    }

    /// Whether a student is in the region, by binary search.
    pub fn contains(&self, student: StudentNo) -> bool
        ensures { IsTrue result ↔ Contains self.now student }
    {
        self.students.binary_search(&student).is_ok()
    }
}
