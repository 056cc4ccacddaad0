//! The students of a region, by position.

ghost use Rattle.std.specs.Prelude.{Bool, List, ◌≡◌, ◌↔◌, ◌<◌, ℕ, false, length, slice_index_or, Contains, IsTrue};
ghost use Rattle.std.specs.List.Sorted.{IsStrictlyIncreasing};
ghost use Rattle.sc_region.specs.Marks.{marks_at, AreRisingBelow};

use std::marker::Model;

/// Which students of the papers are in a region: a mark for each of them, in order of entry. What is kept is
/// where the marked ones stand, so a small region of large papers takes little memory.
#[derive(Debug, Drop)]
pub struct RegionPositions {
    // How many students there are.
    count: usize,
    // The positions that are marked, rising.
    positions: Vec<usize>,
}

impl Model for RegionPositions {
    ghost Value = { List Bool };

    ghost view = { λ r. marks_at r.count r.positions.items };

    ghost invariant = { λ r. AreRisingBelow r.count r.positions.items };
}

impl RegionPositions {
    /// A mark for each of so many students, where these rising positions are marked. It takes no memory.
    pub(crate) fn at(count: usize, positions: Vec<usize>) -> Self
        requires rising { IsStrictlyIncreasing positions.items }
        requires within { (position : ℕ) → Contains positions.items position → position < count }
        ensures count { length result ≡ count }
        ensures marked { (position : ℕ)
            → (Contains positions.items position ↔ IsTrue (slice_index_or result position false)) }
    {
        RegionPositions { count, positions }
    }

    /// The positions of those who are marked, lent, in order of entry: so whoever goes through the region alone
    /// looks at nobody else. In constant time.
    pub fn positions(&self) -> &[usize]
        ensures rising { IsStrictlyIncreasing result.now }
        ensures marked { (position : ℕ)
            → (Contains result.now position ↔ IsTrue (slice_index_or self.now position false)) }
    {
        self.positions.as_slice()
    }
}
