ghost use Rattle.std.specs.Prelude.{◌≡◌, IfOk};

use crate::school_list::SchoolList;
use crate::school_no::SchoolNo;
use crate::seats::Seats;
use crate::zone::Zone;
use std::alloc::{AllocError, Global};

/// What the papers hold of a school.
#[derive(Clone, Copy, Debug, PartialEq, Eq)]
pub struct School {
    pub zone: Zone,
    pub seats: Seats,
}

/// What the papers hold of a student: where the student lives, the schools of siblings, the rank-order
/// list, best first, and the school at which the student continues, if there is one. It need not be among
/// the choices.
#[derive(Debug)]
pub struct Student {
    pub zone: Zone,
    pub continuing: Option<SchoolNo>,
    pub siblings: SchoolList,
    pub choices: SchoolList,
}

impl Drop for Student {
    fn drop(self) {
        let Student {
            zone: _,
            continuing: _,
            siblings: _,
            choices: _,
        } = self;
    }
}

impl Student {
    /// An equal student, or the error of a refused growth. The cost is the length of the lists.
    pub fn copy(&self, alloc: Global) -> Result<Self, AllocError>
        ensures { IfOk result (λ student. student ≡ self.now) }
    {
        Ok(Student {
            zone: self.zone,
            siblings: self.siblings.copy(alloc)?,
            choices: self.choices.copy(alloc)?,
            continuing: self.continuing,
        })
    }
}

impl Clone for Student {
    ghost is_clone = { λ x y. y ≡ x };

    fn clone(&self) -> Result<Self, AllocError> {
        Ok(Student {
            zone: self.zone,
            siblings: self.siblings.clone()?,
            choices: self.choices.clone()?,
            continuing: self.continuing,
        })
    }
}
