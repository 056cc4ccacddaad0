ghost use Rattle.std.specs.Prelude.{◌≡◌, ℕ, ◌<◌, length, slice_index_or, OnOk};
ghost use Rattle.sc_papers.specs.declared.school_positions.TheConstants.{NO_POSITION};

use crate::limits::MOST_SCHOOLS;
use crate::school_no::SchoolNo;
use std::alloc::{AllocError, Global};
use std::marker::Model;

/// What is kept of a number that has no position: no school stands there.
const NO_POSITION: u16 = u16::MAX;

const _: () = prove!(MOST_SCHOOLS <= NO_POSITION as usize);

/// Where each school stands in the order of entry, by its number.
#[derive(Drop)]
pub(crate) struct SchoolPositions {
    // A number past the end has no position. An `Option<u16>` takes four bytes: of these twice as many stay in near memory.
    by_number: Vec<u16>,
}

impl Model for SchoolPositions {
    ghost use Rattle.std.specs.Prelude.{List, Option, ℕ, map};
    ghost use Rattle.sc_papers.specs.SchoolPositions.{position_told};

    ghost Value = { List (Option ℕ) };

    ghost view = { λ p. map position_told p.by_number.items };
}

/// Makes room for a number. Nothing stands there yet, nor at those that come before it.
fn make_room(by_number: &mut Vec<u16>, number: usize) -> Result<(), AllocError>
    ensures room { OnOk result (number < length by_number.new.items) }
    ensures same { (k : ℕ) → slice_index_or by_number.new.items k NO_POSITION
        ≡ slice_index_or by_number.old.items k NO_POSITION }
{
    while by_number.len() <= number {
        by_number.push(NO_POSITION)?;
    }
    Ok(())
}

impl SchoolPositions {
    ghost use Rattle.std.specs.Prelude.{◌≡◌, ℕ, ◌<◌, [], None, Some, length, nat_eq, slice_index_or, if◌then◌else◌, IfOk, OnOk};

    /// No school has a position. It takes no memory.
    pub(crate) fn new(alloc: Global) -> Self
        ensures { result ≡ [] }
    {
        SchoolPositions {
            by_number: Vec::new(alloc),
        }
    }

    /// An equal table, or the error of a refused growth.
    pub(crate) fn copy(&self) -> Result<Self, AllocError>
        ensures { IfOk result (λ copy. copy ≡ self.now) }
    {
        Ok(SchoolPositions {
            by_number: Vec::from_slice(*self.by_number.allocator(), self.by_number.as_slice())?,
        })
    }

    /// The position of a school.
    pub(crate) fn get(&self, school: SchoolNo) -> Option<u16>
        ensures { result ≡ slice_index_or self.now school None }
    {
        match self.by_number.get(school.get() as usize) {
            Some(position) if *position != NO_POSITION => Some(*position),
            _ => None,
        }
    }

    /// Makes room for a school. No position changes, also where the growth is refused.
    pub(crate) fn reserve(&mut self, school: SchoolNo) -> Result<(), AllocError>
        ensures room { OnOk result (school < length self.new) }
        ensures same { (s : ℕ) → slice_index_or self.new s None ≡ slice_index_or self.old s None }
    {
        make_room(&mut self.by_number, school.get() as usize)?;
        Ok(())
    }

    /// Gives a school a position, where there is room.
    pub(crate) fn put(&mut self, school: SchoolNo, position: u16)
        requires room { school < length self.old }
        requires position { position < MOST_SCHOOLS }
        ensures { (s : ℕ) → slice_index_or self.new s None
            ≡ (if nat_eq s school then Some position else slice_index_or self.old s None) }
    {
        self.by_number[school.get() as usize] = position;
    }
}
