ghost use Rattle.std.specs.Prelude.{◌≡◌, ◌<◌, ◌-◌, if◌then◌else◌};

use crate::limits::{LONGEST_LIST, MOST_SCHOOLS};
use std::marker::Model;

/// How many positions can be told apart: enough for each school.
const POSITIONS: u16 = 0x2000;

/// How many classes can be.
const CLASSES: u8 = 8;

const _: () = prove!(MOST_SCHOOLS <= POSITIONS as usize);

/// A choice of a student: where its school stands in the order of entry, from 0, and the student's priority class there.
#[derive(Clone, Copy, Default)]
pub struct ClassedChoice {
    // Both in one number, so that the choices of a row fill 40 bytes.
    class_and_position: u16,
}

impl Model for ClassedChoice {
    ghost use Rattle.std.specs.Prelude.{◌%◌, ◌/◌, ◌*◌, ◌+◌};
    ghost use Rattle.sc_papers.specs.Classed.{Classed};
    ghost use Rattle.sc_papers.specs.declared.classed_choice.TheConstants.{POSITIONS};

    ghost Value = { Classed };

    ghost view = { λ c. record {
      position = c.class_and_position % POSITIONS;
      class = c.class_and_position / POSITIONS;
    } };

    ghost inverse = { λ c. record { class_and_position = c.class * POSITIONS + c.position } };
}

impl ClassedChoice {
    /// The choice of a school at this position, at which the student has this class.
    pub(crate) fn new(position: u16, class: u8) -> Self
        requires position { position < MOST_SCHOOLS }
        requires class { class < CLASSES }
        ensures { result ≡ record { position = position; class = class } }
    {
        ClassedChoice {
            class_and_position: u16::from(class) * POSITIONS + position,
        }
    }

    /// The same choice, of the class ahead where it is so.
    pub(crate) fn moved_ahead(self, is_ahead: bool) -> Self
        requires { 0 < self.class }
        ensures { result ≡ record {
          position = self.position;
          class = if is_ahead then self.class - 1 else self.class;
        } }
    {
        ClassedChoice {
            class_and_position: self.class_and_position - u16::from(is_ahead) * POSITIONS,
        }
    }

    /// Where the school stands in the order of entry, from 0.
    pub fn position(&self) -> usize
        ensures { result ≡ self.now.position }
    {
        usize::from(self.class_and_position % POSITIONS)
    }

    /// The student's priority class at the school.
    pub fn class(&self) -> u8
        ensures { result ≡ self.now.class }
    {
        (self.class_and_position / POSITIONS) as u8
    }
}

/// The choices of a student, best first, in one piece of memory.
#[derive(Drop)]
pub(crate) struct ClassedList {
    pub(crate) count: u8,
    pub(crate) choices: [ClassedChoice; LONGEST_LIST],
}

impl Model for ClassedList {
    ghost use Rattle.std.specs.Prelude.{◌≤◌, List, take};
    ghost use Rattle.sc_papers.specs.Classed.{Classed};
    ghost use Rattle.sc_papers.specs.declared.limits.TheConstants.{LONGEST_LIST};

    ghost Value = { List Classed };

    ghost view = { λ l. take l.count l.choices };

    ghost invariant = { λ l. l.count ≤ LONGEST_LIST };
}
