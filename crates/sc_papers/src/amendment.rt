ghost use Rattle.std.specs.Prelude.{◌≡◌, Some};
ghost use Rattle.sc_papers.specs.Refusal.{code_of, name_of, number_of, refusal_words};
ghost use Rattle.sc_papers.specs.declared.amendment.Refusal.TheVariants.{OutOfMemory};

use crate::count::Count;
use crate::school_list::SchoolList;
use crate::school_no::SchoolNo;
use crate::stamp::Stamp;
use crate::zone::Zone;
use sc_lottery::StudentNumber;
use std::alloc::AllocError;
use std::error::Error;
use std::fmt;

/// A change to the papers. One amendment is the atomic step of the whole system.
#[derive(Debug, Drop)]
pub enum Amendment {
    /// The student is put last in the order of entry. The school at which the student continues, if there
    /// is one, need not be among the choices.
    Enter {
        student: StudentNumber,
        zone: Zone,
        siblings: SchoolList,
        choices: SchoolList,
        continuing: Option<SchoolNo>,
    },
    /// The student is removed. The others keep their order.
    Withdraw {
        student: StudentNumber,
    },
    /// The student's choices are replaced. The place in the order of entry stays, and so do the zone,
    /// the siblings and the school at which the student continues.
    Rerank {
        student: StudentNumber,
        choices: SchoolList,
    },
    /// The school has so many seats more.
    Add {
        school: SchoolNo,
        count: Count,
    },
    /// The school has so many seats fewer.
    Close {
        school: SchoolNo,
        count: Count,
    },
    /// The student's zone, siblings and the school at which the student continues are replaced. The
    /// place in the order of entry stays, and so do the choices.
    Correct {
        student: StudentNumber,
        zone: Zone,
        siblings: SchoolList,
        continuing: Option<SchoolNo>,
    },
}

/// An amendment as a desk hands it in, with the stamp of its record that the desk has seen last: of the
/// student's record, or for `Add` and `Close` of the school's.
#[derive(Debug, Drop)]
pub struct Stamped {
    pub stamp: Stamp,
    pub amendment: Amendment,
}

/// Why an amendment is refused. The refusals are tested in the order of their codes, but that want of
/// memory comes last.
#[derive(Clone, Copy, Debug, PartialEq, Eq)]
pub enum Refusal {
    /// A record of a script that is no amendment.
    Shape,
    /// The student is not in the papers.
    UnknownStudent,
    /// The student is already in the papers.
    StudentExists,
    /// There are no choices.
    EmptyList,
    /// More than 20 choices, or more than 20 siblings.
    ListTooLong,
    /// A named school is not in the papers: the first such school of its list, or the one at which the
    /// student continues.
    UnknownSchool { school: SchoolNo },
    /// A list names a school twice: the first school of the list that equals an earlier one.
    SchoolTwice { school: SchoolNo },
    /// There are 200,000 students.
    RosterFull,
    /// The school would have more than 10,000 seats.
    TooManySeats,
    /// The school would have fewer than 0 seats.
    TooFewSeats,
    /// A growth was refused.
    OutOfMemory,
    /// The record's stamp is this one, and not the one that the amendment carries: the desk has not seen the
    /// last amendment of the record.
    Stale { stamp: Stamp },
    /// As many amendments were accepted as there are stamps.
    Spent,
}

impl Refusal {
    /// The refusal's number in the order of the tests, from 1 to 13.
    pub fn code(self) -> u8
        ensures { result ≡ code_of self }
    {
        match self {
            Refusal::Shape => 1,
            Refusal::UnknownStudent => 2,
            Refusal::StudentExists => 3,
            Refusal::EmptyList => 4,
            Refusal::ListTooLong => 5,
            Refusal::UnknownSchool { .. } => 6,
            Refusal::SchoolTwice { .. } => 7,
            Refusal::RosterFull => 8,
            Refusal::TooManySeats => 9,
            Refusal::TooFewSeats => 10,
            Refusal::OutOfMemory => 11,
            Refusal::Stale { .. } => 12,
            Refusal::Spent => 13,
        }
    }

    /// The refusal's name, without the number that it may tell.
    pub fn name(self) -> &'static str
        ensures { result.now ≡ name_of self }
    {
        match self {
            Refusal::Shape => "Shape",
            Refusal::UnknownStudent => "UnknownStudent",
            Refusal::StudentExists => "StudentExists",
            Refusal::EmptyList => "EmptyList",
            Refusal::ListTooLong => "ListTooLong",
            Refusal::UnknownSchool { .. } => "UnknownSchool",
            Refusal::SchoolTwice { .. } => "SchoolTwice",
            Refusal::RosterFull => "RosterFull",
            Refusal::TooManySeats => "TooManySeats",
            Refusal::TooFewSeats => "TooFewSeats",
            Refusal::OutOfMemory => "OutOfMemory",
            Refusal::Stale { .. } => "Stale",
            Refusal::Spent => "Spent",
        }
    }

    /// The number that the refusal tells, if it tells one: that of the school that it names, or the record's
    /// stamp.
    pub fn number(self) -> Option<u32>
        ensures { result ≡ number_of self }
    {
        match self {
            Refusal::UnknownSchool { school } | Refusal::SchoolTwice { school } => {
                Some(school.get())
            }
            Refusal::Stale { stamp } => Some(stamp.get()),
            _ => None,
        }
    }
}

impl fmt::Display for Refusal {
    ghost output = { λ r. Some (refusal_words r) };

    /// The refusal's name, and after a space the number that it tells, if any.
    fn fmt<W: fmt::Write>(&self, f: &mut fmt::Formatter<W>) -> fmt::Result {
        f.write_str(self.name())?;
        match self.number() {
            Some(number) => write!(f, " {}", number),
            None => Ok(()),
        }
    }
}

impl Error for Refusal {}

impl From<AllocError> for Refusal {
    ghost from_gives = { λ _ r. r ≡ OutOfMemory };

    fn from(_error: AllocError) -> Self {
        Refusal::OutOfMemory
    }
}
