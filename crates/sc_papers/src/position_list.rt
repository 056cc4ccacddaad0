ghost use Rattle.std.specs.Prelude.{◌≡◌, ◌≤◌, ◌<◌, ◌+◌, ℕ, nat_eq, nat_lt, true, false, length, Some, None, is_some, if◌then◌else◌};
ghost use Rattle.std.specs.Map.{lookup};
ghost use Rattle.indexmap.specs.IndexMap.{index_map_len, spare};
ghost use Rattle.sc_papers.specs.StudentRow.{positions_in};

use crate::limits::LONGEST_LIST;
use crate::records::Student;
use crate::school_no::SchoolNo;
use crate::school_positions::SchoolPositions;
use crate::seeded_hash::SeededHash;
use crate::student_row::fill_positions;
use indexmap::IndexMap;
use sc_lottery::StudentNumber;
use std::alloc::AllocError;
use std::marker::Model;

/// Where the schools of a list stand in the order of entry, in one piece of memory: as many as a list may name at most.
#[derive(Default, Drop)]
pub(crate) struct PositionList {
    pub(crate) count: u8,
    pub(crate) positions: [u16; 20],
}

impl Model for PositionList {
    ghost use Rattle.std.specs.Prelude.{◌≤◌, ℕ, List, take};

    ghost Value = { List ℕ };

    ghost view = { λ l. take l.count l.positions };

    ghost invariant = { λ l. l.count ≤ 20 };
}

impl PositionList {
    ghost use Rattle.std.specs.Prelude.{◌≡◌, ◌≤◌, ◌<◌, ◌++◌, [], ◌∷◌, length};

    /// The positions of the schools of a list.
    pub(crate) fn new(table: &SchoolPositions, schools: &[SchoolNo]) -> Self
        requires { length schools.now ≤ LONGEST_LIST }
        ensures { result ≡ positions_in table.now schools.now }
    {
        PositionList {
            count: schools.len() as u8,
            positions: fill_positions(table, schools),
        }
    }

    /// Forgets all positions.
    pub(crate) fn clear(&mut self)
        ensures { self.new ≡ [] }
    {
        self.count = 0;
    }

    /// Adds a position last.
    pub(crate) fn push(&mut self, position: u16)
        requires { length self.old < LONGEST_LIST }
        ensures { self.new ≡ self.old ++ position ∷ [] }
    {
        self.positions[usize::from(self.count)] = position;
        self.count += 1;
    }

    /// The positions, in the list's order.
    pub(crate) fn as_slice(&self) -> &[u16]
        ensures positions { result.now ≡ self.now }
        ensures short { length self.now ≤ LONGEST_LIST }
    {
        &self.positions[..self.count as usize]
    }

    /// The same positions once more.
    pub(crate) fn copy(&self) -> Self
        ensures { result ≡ self.now }
    {
        PositionList {
            count: self.count,
            positions: self.positions,
        }
    }
}

impl Clone for PositionList {
    ghost is_clone = { λ x y. y ≡ x };

    fn clone(&self) -> Result<Self, AllocError> {
        Ok(self.copy())
    }
}

/// Keeps where the schools of a student's siblings stand, if there is more than one, in a table that has room for them.
pub(crate) fn keep_siblings(
    kept: &mut IndexMap<StudentNumber, PositionList, SeededHash>,
    table: &SchoolPositions,
    number: StudentNumber,
    student: &Student,
)
    requires short { length student.now.siblings ≤ LONGEST_LIST }
    requires room { lookup (nat_eq number) kept.old.entries ≡ None → 0 < spare kept.old }
    ensures others { (q : ℕ) → nat_eq number q ≡ false
        → lookup (nat_eq q) kept.new.entries ≡ lookup (nat_eq q) kept.old.entries }
    ensures own { nat_lt 1 (length student.now.siblings) ≡ true
        → lookup (nat_eq number) kept.new.entries ≡ Some (positions_in table.now student.now.siblings) }
    ensures room { index_map_len kept.old + spare kept.old ≤ index_map_len kept.new + spare kept.new }
{
    let siblings = student.siblings.as_slice();
    if siblings.len() > 1 {
        put_positions(kept, number, PositionList::new(table, siblings));
    }
}

/// Puts positions in a table that has room for them, in the place of those that it has under the number, if any.
fn put_positions(
    kept: &mut IndexMap<StudentNumber, PositionList, SeededHash>,
    number: StudentNumber,
    positions: PositionList,
)
    requires { lookup (nat_eq number) kept.old.entries ≡ None → 0 < spare kept.old }
    ensures put { (q : ℕ) → lookup (nat_eq q) kept.new.entries
        ≡ (if nat_eq number q then Some positions else lookup (nat_eq q) kept.old.entries) }
    ensures room { index_map_len kept.old + spare kept.old ≤ index_map_len kept.new + spare kept.new }
{
    if let Some(place) = kept.get_mut(&number) {
        *place = positions;
        return;
    }
    if kept.insert(number, positions).is_err() {
        unreachable!()
    }
}
