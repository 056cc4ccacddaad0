ghost use Rattle.std.specs.Prelude.{◌≡◌, ◌≤◌, Some, length, nat_eq, take};
ghost use Rattle.std.specs.Option.{option_eq};
ghost use Rattle.sc_papers.specs.StudentRow.{positions_in, row_at, school_in};

use crate::classed_choice::{ClassedChoice, ClassedList};
use crate::limits::LONGEST_LIST;
use crate::records::Student;
use crate::school_no::SchoolNo;
use crate::school_positions::SchoolPositions;
use crate::zone::Zone;
use sc_lottery::StudentNumber;
use std::alloc::AllocError;
use std::marker::Model;

/// What a proposal reads of a student, in one piece of memory: all but the schools of further siblings.
#[derive(Drop)]
pub(crate) struct StudentRow {
    // Fields are laid out in this order, which fills 64 bytes. What a proposal reads comes first, since a row may lie
    // across two lines of near memory.
    draw: u64,
    number: StudentNumber,
    // How many choices there are.
    count: u8,
    more_siblings: bool,
    choices: [ClassedChoice; LONGEST_LIST],
    zone: Zone,
    // The school's number, or 0 where there is none: an `Option<SchoolNo>` takes 8 bytes, and the row would not fit.
    continuing: u32,
    // The school of the first sibling, in the same way.
    sibling: u32,
}

impl Model for StudentRow {
    ghost use Rattle.std.specs.Prelude.{◌≤◌};
    ghost use Rattle.sc_papers.specs.StudentRow.{Row, row_in};
    ghost use Rattle.sc_papers.specs.declared.limits.TheConstants.{LONGEST_LIST};
    ghost use Rattle.sc_papers.specs.declared.school_no.TheConstants.SchoolNo.{GREATEST};

    ghost Value = { Row };

    ghost view = { row_in };

    ghost invariant = { λ r. (r.count ≤ LONGEST_LIST) × (r.continuing ≤ GREATEST) × (r.sibling ≤ GREATEST) };
}

/// The positions of the schools, and zeros after the last of them.
pub(crate) fn fill_positions(table: &SchoolPositions, schools: &[SchoolNo]) -> [u16; 20]
    requires { length schools.now ≤ LONGEST_LIST }
    ensures { take (length schools.now) result ≡ positions_in table.now schools.now }
{
    let mut positions = [0; 20];
    for (rank, school) in schools.iter().enumerate() {
        positions[rank] = table.get(*school).unwrap_or(0);
    }
    positions
}

/// The number of a school, or 0 for none.
fn number_or_zero(school: Option<SchoolNo>) -> u32
    ensures school { school_in result ≡ school }
    ensures within { result ≤ SchoolNo.GREATEST }
{
    match school {
        Some(school) => school.get(),
        None => 0,
    }
}

impl StudentRow {
    /// The row of a student with this number, this draw and these choices, whatever the student's own list is.
    pub(crate) fn new(
        number: StudentNumber,
        draw: u64,
        choices: &ClassedList,
        student: &Student,
    ) -> Self
        ensures { result ≡ row_at choices.now number draw student.now }
    {
        StudentRow {
            draw,
            number,
            continuing: number_or_zero(student.continuing),
            sibling: number_or_zero(student.siblings.as_slice().first().copied()),
            zone: student.zone,
            more_siblings: student.siblings.as_slice().len() > 1,
            count: choices.count,
            choices: choices.choices,
        }
    }

    pub(crate) fn draw(&self) -> u64
        ensures { result ≡ self.now.draw }
    {
        self.draw
    }

    /// The student's number.
    pub(crate) fn number(&self) -> StudentNumber
        ensures { result ≡ self.now.number }
    {
        self.number
    }

    pub(crate) fn zone(&self) -> Zone
        ensures { result ≡ self.now.zone }
    {
        self.zone
    }

    /// The school at which the student continues, if there is one.
    pub(crate) fn continuing(&self) -> Option<SchoolNo>
        ensures { result ≡ self.now.continuing }
    {
        SchoolNo::new(self.continuing)
    }

    /// The school of the first sibling, if there is one.
    pub(crate) fn sibling(&self) -> Option<SchoolNo>
        ensures { result ≡ self.now.sibling }
    {
        SchoolNo::new(self.sibling)
    }

    /// Whether the first sibling is at this school.
    pub(crate) fn has_first_sibling_at(&self, school: SchoolNo) -> bool
        ensures { result ≡ option_eq nat_eq self.now.sibling (Some school) }
    {
        // No school has the number 0, which stands for none.
        self.sibling == school.get()
    }

    /// Whether there are siblings beside the first.
    pub(crate) fn has_more_siblings(&self) -> bool
        ensures { result ≡ self.now.more_siblings }
    {
        self.more_siblings
    }

    /// Whether the student continues at this school.
    pub(crate) fn continues_at(&self, school: SchoolNo) -> bool
        ensures { result ≡ option_eq nat_eq self.now.continuing (Some school) }
    {
        // No school has the number 0, which stands for none.
        self.continuing == school.get()
    }

    /// The choices, best first.
    pub(crate) fn choices(&self) -> &[ClassedChoice]
        ensures { result.now ≡ self.now.choices }
    {
        &self.choices[..self.count as usize]
    }
}

impl Clone for StudentRow {
    ghost is_clone = { λ x y. y ≡ x };

    fn clone(&self) -> Result<Self, AllocError> {
        Ok(StudentRow {
            draw: self.draw,
            number: self.number,
            continuing: self.continuing,
            sibling: self.sibling,
            zone: self.zone,
            more_siblings: self.more_siblings,
            count: self.count,
            choices: self.choices,
        })
    }
}
