use crate::school_no::SchoolNo;
use sc_lottery::StudentNumber;

/// A rejection: the school turned the student down. A log is a list of these, in the order in
/// which they happened.
#[derive(Clone, Copy, Debug, PartialEq, Eq)]
pub struct Rejection {
    pub student: StudentNumber,
    pub school: SchoolNo,
}
