//! The positions of a region from a point of the order of entry on.

ghost use Rattle.std.specs.Prelude.{◌≡◌, ℕ, ◌<◌, ◌≤◌, length, slice_index};
ghost use Rattle.std.specs.List.Sorted.{IsStrictlyIncreasing};
ghost use Rattle.sc_repair.specs.Locality.{marked_from};

use sc_region::RegionPositions;

/// How many of these rising positions come before one, by binary search.
fn count_before(positions: &[usize], from: usize) -> usize
    requires { IsStrictlyIncreasing positions.now }
    ensures within { result ≤ length positions.now }
    ensures before { (k : ℕ) → k < result → slice_index positions.now k < from }
    ensures rest { (k : ℕ) → result ≤ k → k < length positions.now → from ≤ slice_index positions.now k }
{
    match positions.binary_search(&from) {
        Ok(count) => count,
        Err(count) => count,
    }
}

/// The positions of the region from one on, in order, lent.
pub(crate) fn positions_from(region: &RegionPositions, from: usize) -> &[usize]
    ensures { result.now ≡ marked_from region.now from }
{
    let positions = region.positions();
    &positions[count_before(positions, from)..]
}
