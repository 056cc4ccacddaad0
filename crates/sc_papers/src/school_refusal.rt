ghost use Rattle.std.specs.Prelude.{◌≡◌};
ghost use Rattle.sc_papers.specs.declared.school_refusal.SchoolRefusal.TheVariants.{OutOfMemory};

use std::alloc::AllocError;
use std::error::Error;
use std::fmt;

/// Why a school is not added. The refusals are tested in this order.
#[derive(Clone, Copy, Debug, PartialEq, Eq)]
pub enum SchoolRefusal {
    /// The school is already in the papers.
    SchoolExists,
    /// There are 5,000 schools.
    TooManySchools,
    /// The papers hold a student.
    SchoolsClosed,
    /// A growth was refused.
    OutOfMemory,
}

impl fmt::Display for SchoolRefusal {
    fn fmt<W: fmt::Write>(&self, f: &mut fmt::Formatter<W>) -> fmt::Result {
        f.write_str(match self {
            SchoolRefusal::SchoolExists => "the school is already in the papers",
            SchoolRefusal::TooManySchools => "there are as many schools as there may be",
            SchoolRefusal::SchoolsClosed => "no school is added once a student has entered",
            SchoolRefusal::OutOfMemory => "out of memory",
        })
    }
}

impl Error for SchoolRefusal {}

impl From<AllocError> for SchoolRefusal {
    ghost from_gives = { λ _ r. r ≡ OutOfMemory };

    fn from(_error: AllocError) -> Self {
        SchoolRefusal::OutOfMemory
    }
}
