ghost use Rattle.std.specs.Prelude.{◌≡◌};
ghost use Rattle.sc_stamps.specs.Record.{record_of};

use sc_papers::{Amendment, SchoolNo, StudentNo};

/// What an amendment amends. A student and a school of the same number are two records.
#[derive(Clone, Copy, Debug, PartialEq, Eq)]
pub enum Record {
    OfStudent(StudentNo),
    OfSchool(SchoolNo),
}

/// The record that the amendment amends: the student's, or for `Add` and `Close` the school's.
pub fn record_of(amendment: &Amendment) -> Record
    ensures { result ≡ record_of amendment.now }
{
    match amendment {
        Amendment::Enter { student, .. }
        | Amendment::Withdraw { student }
        | Amendment::Rerank { student, .. }
        | Amendment::Correct { student, .. } => Record::OfStudent(*student),
        Amendment::Add { school, .. } | Amendment::Close { school, .. } => {
            Record::OfSchool(*school)
        }
    }
}
