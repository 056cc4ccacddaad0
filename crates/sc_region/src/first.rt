//! A student at their first choice.

use sc_papers::StudentNo;

/// A student at their first choice, and where they may stand in the order of entry. That is a guess, which
/// whoever uses it has to test; where it is right, it spares a look-up by number.
#[derive(Clone, Copy)]
pub(crate) struct First {
    pub(crate) student: StudentNo,
    guess: u32,
}

impl First {
    ghost use Rattle.std.specs.Prelude.{◌≡◌};

    /// The student, and the position at which they may stand.
    pub(crate) fn new(student: StudentNo, guess: usize) -> Self
        ensures { result.student ≡ student }
    {
        First {
            student,
            guess: u32::try_from(guess).unwrap_or(0),
        }
    }

    /// Where the student may stand.
    pub(crate) fn guess(self) -> usize {
        self.guess as usize
    }
}
