//! Papers in flat rows: the schools, the students and the seed of one school choice.

ghost use Rattle.std.specs.Prelude.{◌≡◌, ◌≤◌, IfOk};
ghost use Rattle.indexmap.specs.IndexMap.{spare};

mod amending;
mod entering;
mod keys;
mod number_table;
pub(crate) mod numbers;
pub(crate) mod order;

use crate::classed_choice::ClassedChoice;
use crate::flat_papers::numbers::{Finding, Numbers};
use crate::limits::MOST_STUDENTS;
use crate::ordered::Ordered;
use crate::position_list::PositionList;
use crate::records::School;
use crate::school_no::SchoolNo;
use crate::school_positions::SchoolPositions;
use crate::seats::Seats;
use crate::seeded_hash::SeededHash;
use crate::student_row::StudentRow;
use indexmap::IndexMap;
use sc_lottery::{Draws, Seed, StudentNumber};
use std::alloc::{AllocError, Global};
use std::marker::Model;

/// The schools and the students of one school choice, and the seed of its lottery, without a record of a student.
///
/// Look-ups by position and by a school's number take constant time. So do those by a student's number, but for papers
/// that are not amended while the numbers rise in order of entry: these have no table of them, and are searched.
pub struct FlatPapers {
    // The seed's draws, read where the last student who entered left them.
    lottery: Draws,
    schools: IndexMap<SchoolNo, School, SeededHash>,
    // Where each school stands in `schools`, so that a look-up by number hashes nothing.
    positions: SchoolPositions,
    numbers: Numbers,
    // What a proposal reads of each student, in order of entry: so a key costs no block of the cipher, nor a look-up
    // where there is one sibling at most, and a choice no look-up.
    rows: Ordered<StudentRow>,
    // Where the schools of the siblings stand of students who have more than one. There is room for those of all, so that
    // a correction takes no memory.
    siblings: IndexMap<StudentNumber, PositionList, SeededHash>,
}

impl Drop for FlatPapers {
    fn drop(self) {
        let FlatPapers {
            lottery: _,
            schools: _,
            positions: _,
            numbers: _,
            rows: _,
            siblings: _,
        } = self;
    }
}

impl Model for FlatPapers {
    ghost use Rattle.sc_papers.specs.Market.{Market};

    ghost Value = { Market };

    ghost use Rattle.sc_papers.specs.Representation.{market_of, IsSound};

    ghost view = { market_of };

    ghost invariant = { IsSound };
}

/// An equal table, with room for so many students more.
fn copy_siblings(
    siblings: &IndexMap<StudentNumber, PositionList, SeededHash>,
    students: usize,
) -> Result<IndexMap<StudentNumber, PositionList, SeededHash>, AllocError>
    ensures entries { IfOk result (λ copy. copy.entries ≡ siblings.now.entries) }
    ensures room { IfOk result (λ copy. students ≤ spare copy) }
{
    let mut copy = siblings.clone()?;
    match copy.reserve(students) {
        Ok(()) => Ok(copy),
        Err(refused) => {
            drop(copy);
            Err(refused)
        }
    }
}

fn copy_schools(
    schools: &IndexMap<SchoolNo, School, SeededHash>,
) -> Result<IndexMap<SchoolNo, School, SeededHash>, AllocError>
    ensures { IfOk result (λ copy. copy.entries ≡ schools.now.entries) }
{
    schools.clone()
}

impl FlatPapers {
    ghost use Rattle.std.specs.Prelude.{◌≡◌, ◌<◌, [], length, map, slice_get, position, nat_eq, Some, IfOk};
    ghost use Rattle.std.specs.Option.{option_map};
    ghost use Rattle.sc_lottery.specs.Draw.{draw};
    ghost use Rattle.sc_papers.specs.Key.{class_at};
    ghost use Rattle.sc_papers.specs.Market.{choices_of, school_of, student_at, schools_of, students_of, seats_of};
    ghost use Rattle.sc_papers.specs.WellFormed.{WellFormed, WithinLimits};

    /// Papers with this seed, no schools and no students. It takes no memory.
    pub fn new(alloc: Global, seed: Seed) -> Self
        ensures seed { result.seed ≡ seed }
        ensures schools { result.schools ≡ [] }
        ensures students { result.students ≡ [] }
    {
        FlatPapers::finding(Finding::ByOrder, alloc, seed)
    }

    /// The same, whose students' numbers are found in this way: papers that are amended have a table from the first on.
    pub(crate) fn finding(finding: Finding, alloc: Global, seed: Seed) -> Self
        ensures seed { result.seed ≡ seed }
        ensures schools { result.schools ≡ [] }
        ensures students { result.students ≡ [] }
    {
        FlatPapers {
            lottery: Draws::new(seed),
            schools: IndexMap::with_hasher(alloc, SeededHash::new(seed)),
            positions: SchoolPositions::new(alloc),
            numbers: Numbers::new(finding, alloc, SeededHash::new(seed)),
            rows: Ordered::new(finding, alloc),
            siblings: IndexMap::with_hasher(alloc, SeededHash::new(seed)),
        }
    }

    /// The same papers with a table of the students' numbers and an order of their rows, for papers that are amended, or
    /// the error of a refused growth.
    pub(crate) fn with_table(mut self) -> Result<Self, AllocError>
        ensures { IfOk result (λ papers. papers ≡ self) }
    {
        match self.make_tables() {
            Ok(()) => Ok(self),
            Err(refused) => {
                drop(self);
                Err(refused)
            }
        }
    }

    /// Makes a table of the students' numbers and an order of their rows. The papers stay, also where the growth is refused.
    fn make_tables(&mut self) -> Result<(), AllocError>
        ensures { self.new ≡ self.old }
    {
        // This call tells that the papers are within their limits, so a slot has 32 bits.
        prove!(self.students_len() <= MOST_STUDENTS);
        self.numbers.make_table()?;
        self.rows.make_order()
    }

    /// Equal papers, or the error of a refused growth. One pass over the schools and the students; no
    /// draw is made.
    pub(crate) fn copy(&self) -> Result<Self, AllocError>
        ensures { IfOk result (λ copy. copy ≡ self.now) }
    {
        let rows = self.rows.copy()?;
        let siblings = copy_siblings(&self.siblings, self.rows.len())?;
        let positions = self.positions.copy()?;
        let schools = copy_schools(&self.schools)?;
        let numbers = self.numbers.copy()?;
        Ok(FlatPapers {
            lottery: Draws::new(self.lottery.seed()),
            schools,
            positions,
            numbers,
            rows,
            siblings,
        })
    }

    /// What the papers take their memory from.
    pub(crate) fn allocator(&self) -> Global {
        self.rows.allocator()
    }

    /// The seed of the lottery.
    pub fn seed(&self) -> Seed
        ensures { result ≡ self.now.seed }
    {
        self.lottery.seed()
    }

    /// How many schools there are.
    pub fn schools_len(&self) -> usize
        ensures { result ≡ length self.now.schools }
    {
        self.schools.len()
    }

    /// How many students there are. Papers are always well-formed and within their limits, and this
    /// call tells its callers so.
    pub fn students_len(&self) -> usize
        ensures count { result ≡ length self.now.students }
        ensures well_formed { WellFormed self.now }
        ensures within_limits { WithinLimits self.now }
    {
        self.rows.len()
    }

    /// What the papers hold of a school, or `None` where it is not in them. In constant time.
    pub fn school(&self, school: SchoolNo) -> Option<School>
        ensures { result ≡ school_of self.now school }
    {
        let position = self.school_position(school)?;
        let (_, found) = self.schools.get_index(position)?;
        Some(*found)
    }

    /// How many seats a school has: none where it is not in the papers. In constant time.
    #[tactic(auto, unfolding(crate::specs::Market::seats_of))]
    pub fn seats_of(&self, school: SchoolNo) -> Seats
        ensures { result ≡ seats_of self.now school }
    {
        self.school(school).map_or(Seats::NONE, |found| found.seats)
    }

    /// The school at a position of the order of entry, from 0. In constant time.
    pub fn school_at(&self, position: usize) -> Option<SchoolNo>
        ensures { result ≡ slice_get (schools_of self.now) position }
    {
        self.schools.get_index(position).map(|(school, _)| *school)
    }

    /// The seats of the school at a position of the order of entry, from 0, or `None` past the last one. In constant
    /// time, without a look-up by number.
    pub fn seats_at(&self, position: usize) -> Option<Seats>
        ensures { result ≡ option_map (seats_of self.now) (slice_get (schools_of self.now) position) }
    {
        let (_, school) = self.schools.get_index(position)?;
        Some(school.seats)
    }

    /// The student at a position of the order of entry, from 0. In constant time.
    pub fn student_at(&self, position: usize) -> Option<StudentNumber>
        ensures { result ≡ slice_get (students_of self.now) position }
    {
        let row = self.rows.get(position)?;
        Some(row.number())
    }

    /// The draw of the student at a position of the order of entry, from 0, or `None` past the last one. In constant
    /// time, without a look-up by number; no draw is made, since the papers keep it.
    pub fn draw_at(&self, position: usize) -> Option<u64>
        ensures { result ≡ option_map (draw self.now.seed) (slice_get (students_of self.now) position) }
    {
        let row = self.rows.get(position)?;
        Some(row.draw())
    }

    /// The choices of the student at a position of the order of entry, from 0, best first: where each school stands in
    /// the schools' order of entry, and the student's priority class there. In constant time, without a look-up by number.
    pub fn classed_choices_at(&self, student: usize) -> &[ClassedChoice]
        requires { student < length self.now.students }
        ensures positions { map Some (map (λ c. c.position) result.now)
            ≡ map (λ s. position (nat_eq s) (schools_of self.now)) (choices_of self.now (student_at self.now student)) }
        ensures classes { map (λ c. c.class) result.now
            ≡ map (class_at self.now (student_at self.now student)) (choices_of self.now (student_at self.now student)) }
    {
        self.row_at(student).choices()
    }

    /// A school's position in the order of entry. In constant time.
    pub fn school_position(&self, school: SchoolNo) -> Option<usize>
        ensures { result ≡ position (nat_eq school) (schools_of self.now) }
    {
        self.position_of(school).map(usize::from)
    }

    /// A school's position in the order of entry, as a row keeps it. In constant time.
    pub(crate) fn position_of(&self, school: SchoolNo) -> Option<u16>
        ensures { result ≡ position (nat_eq school) (schools_of self.now) }
    {
        self.positions.get(school)
    }

    /// A student's position in the order of entry. In constant time, or by a search among the numbers where they rise
    /// and the papers are not amended.
    pub fn student_position(&self, student: StudentNumber) -> Option<usize>
        ensures { result ≡ position (nat_eq student) (students_of self.now) }
    {
        self.numbers.position(student)
    }
}
