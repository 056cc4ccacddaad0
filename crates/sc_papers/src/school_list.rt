ghost use Rattle.std.specs.Prelude.{◌≡◌, ℕ, List, IfOk};

use crate::school_no::SchoolNo;
use std::alloc::{AllocError, Global};
use std::marker::Model;

/// Schools in an order that counts: a ranked list, best first, or the schools of siblings.
#[derive(Debug)]
pub struct SchoolList {
    schools: Vec<SchoolNo>,
}

impl Drop for SchoolList {
    fn drop(self) {
        let SchoolList { schools: _ } = self;
    }
}

impl Model for SchoolList {
    ghost Value = { List ℕ };

    ghost view = { λ l. l.schools.items };
}

impl SchoolList {
    /// The list of these schools, in their order. It takes no memory.
    pub fn from_vec(schools: Vec<SchoolNo>) -> Self
        ensures { result ≡ schools.items }
    {
        SchoolList { schools }
    }

    /// The schools, in order.
    pub fn as_slice(&self) -> &[SchoolNo]
        ensures { result.now ≡ self.now }
    {
        self.schools.as_slice()
    }

    /// An equal list, or the error of a refused growth. The cost is its length.
    pub fn copy(&self, alloc: Global) -> Result<Self, AllocError>
        ensures { IfOk result (λ list. list ≡ self.now) }
    {
        Ok(SchoolList {
            schools: Vec::from_slice(alloc, self.schools.as_slice())?,
        })
    }
}

impl Clone for SchoolList {
    ghost is_clone = { λ x y. y ≡ x };

    fn clone(&self) -> Result<Self, AllocError> {
        Ok(SchoolList {
            schools: self.schools.clone()?,
        })
    }
}
