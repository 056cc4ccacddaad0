//! Guesses at where students stand.

use sc_papers::StudentNo;
use std::alloc::{AllocError, Global};

/// By students' numbers: the position that was noted last for a student with such a number.
///
/// No call here promises anything of what it answers, and none has a clause: a hint is a guess, which its reader tests
/// before it is used, and which may be wrong of any student. Where it is right, it spares a look-up; nothing else depends
/// on it.
#[derive(Drop)]
pub(crate) struct Hints {
    positions: Vec<u32>,
}

/// How many slots there are for so many students' hints: a power of two, by which a remainder costs no division.
fn slots_for(students: usize) -> usize {
    students.checked_next_power_of_two().unwrap_or(students)
}

impl Hints {
    /// Room for so many students' hints, and for less than twice as many: where it is too small, or where numbers lie far
    /// apart, some hints take the place of others. The only error is want of memory. Nothing is promised of the hints.
    pub(crate) fn with_room(alloc: Global, students: usize) -> Result<Self, AllocError> {
        Ok(Hints {
            positions: Vec::from_elem(alloc, 0, slots_for(students))?,
        })
    }

    /// Where the student's hint is kept: numbers with the same last bits share a slot.
    fn slot(&self, student: StudentNo) -> usize {
        student.get() as usize & self.positions.len().wrapping_sub(1)
    }

    /// Keeps the student's position, unless another's takes its place. Nothing is promised of what `guess` answers then. In
    /// constant time.
    pub(crate) fn note(&mut self, student: StudentNo, position: usize) {
        let slot = self.slot(student);
        if let Some(hint) = self.positions.get_mut(slot) {
            *hint = u32::try_from(position).unwrap_or(0);
        }
    }

    /// The position at which the student may be: any number, also none of a position, which its reader tests. In constant
    /// time.
    pub(crate) fn guess(&self, student: StudentNo) -> usize {
        let hint = self.positions.get(self.slot(student));
        hint.map_or(0, |position| *position as usize)
    }
}
