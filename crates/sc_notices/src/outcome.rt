//! What came of a choice.
ghost use Rattle.std.specs.Prelude.{◌≡◌, ◌++◌, codes, OnOk};
ghost use Rattle.sc_reasons.specs.Reason.{reason_by};
ghost use Rattle.sc_notices.specs.Explanation.{outcome_by};
ghost use Rattle.sc_notices.specs.ExplanationText.{outcome_word};

use sc_papers::Key;
use sc_report::{Cutoff, Reason, push_reason, reason_by};
use std::alloc::AllocError;

/// What came of a student's choice.
#[derive(Clone, Copy, Debug, PartialEq, Eq)]
pub enum Outcome {
    /// The student has it.
    Given,
    /// The student prefers it to what they have, and does not have it for this reason.
    Refused { reason: Reason },
    /// It comes after the choice that the student has.
    Later,
}

/// What came of a choice at a school of this cutoff, where the student has this key: whether the student has it, and
/// whether they have one before it, are given.
pub(crate) fn outcome_of(is_given: bool, is_past: bool, cutoff: Cutoff, key: Key) -> Outcome
    ensures { result ≡ outcome_by is_given is_past (reason_by cutoff key) }
{
    if is_given {
        Outcome::Given
    } else if is_past {
        Outcome::Later
    } else {
        Outcome::Refused {
            reason: reason_by(cutoff, key),
        }
    }
}

/// Adds a comma, an outcome's word and a newline.
pub(crate) fn push_outcome(text: &mut Vec<u8>, outcome: Outcome) -> Result<(), AllocError>
    ensures { OnOk result (text.new.items ≡ text.old.items ++ codes "," ++ outcome_word outcome ++ codes "\n") }
{
    match outcome {
        Outcome::Given => text.extend_from_slice(b",given\n"),
        Outcome::Refused { reason } => push_reason(text, reason),
        Outcome::Later => text.extend_from_slice(b",later\n"),
    }
}
