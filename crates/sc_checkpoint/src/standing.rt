use sc_papers::{SchoolNo, StudentNo};

/// Where a student stands after a log: their next choice, if they have one left.
#[derive(Clone, Copy, Debug, PartialEq, Eq)]
pub struct Standing {
    pub student: StudentNo,
    pub next: Option<SchoolNo>,
}
