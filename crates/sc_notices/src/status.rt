//! What a list of a school is of.
ghost use Rattle.std.specs.Prelude.{◌≡◌, ◌++◌, codes, OnOk};
ghost use Rattle.sc_notices.specs.AdmissionsText.{status_word};

use std::alloc::AllocError;

/// What the students in a list of a school are to it.
#[derive(Clone, Copy, Debug, PartialEq, Eq)]
pub enum Status {
    /// They have it.
    Admitted,
    /// They prefer it to what they have.
    Waiting,
}

/// Adds a status in a word and a newline.
pub(crate) fn push_status(text: &mut Vec<u8>, status: Status) -> Result<(), AllocError>
    ensures { OnOk result (text.new.items ≡ text.old.items ++ status_word status ++ codes "\n") }
{
    match status {
        Status::Admitted => text.extend_from_slice(b"admitted\n"),
        Status::Waiting => text.extend_from_slice(b"waiting\n"),
    }
}
