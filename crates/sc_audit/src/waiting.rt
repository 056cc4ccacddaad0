use sc_papers::SchoolNo;

/// Where a student stands without being kept there: at a school, of this rank in their choices.
#[derive(Clone, Copy, Debug)]
pub(crate) struct Waiting {
    pub(crate) rank: u8,
    pub(crate) school: SchoolNo,
}
