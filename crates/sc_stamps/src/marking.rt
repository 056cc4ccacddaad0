ghost use Rattle.std.specs.Prelude.{◌≡◌};
ghost use Rattle.sc_stamps.specs.Stamps.{marking_of};

use crate::record::{Record, record_of};
use sc_papers::{Amendment, FlatPapers};

/// What an accepted amendment does to the stamps, beside that it is counted, by positions in the orders of
/// entry before it, from 0, or `None` where the record is not in the papers.
#[derive(Clone, Copy, Debug, PartialEq, Eq)]
pub enum Marking {
    /// A student enters, last, with a stamp of their own.
    Newcomer,
    /// The stamp of the student at this position goes.
    StudentLeaves(Option<usize>),
    /// The student at this position gets a new stamp.
    StudentStays(Option<usize>),
    /// The school at this position gets a new stamp.
    School(Option<usize>),
}

/// What the amendment will do to the stamps once the papers accept it. One look-up.
pub fn marking_of(papers: &FlatPapers, amendment: &Amendment) -> Marking
    ensures { result ≡ marking_of papers.now amendment.now }
{
    match amendment {
        Amendment::Enter { .. } => Marking::Newcomer,
        Amendment::Withdraw { student } => {
            Marking::StudentLeaves(papers.student_position(*student))
        }
        _ => match record_of(amendment) {
            Record::OfStudent(student) => Marking::StudentStays(papers.student_position(student)),
            Record::OfSchool(school) => Marking::School(papers.school_position(school)),
        },
    }
}
