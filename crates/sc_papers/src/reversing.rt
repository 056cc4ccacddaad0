//! Amendments taking effect so that they can be taken back.

ghost use Rattle.std.specs.Prelude.{◌≡◌, false, true, None, OnOk, OnErr, IfOk};
ghost use Rattle.sc_papers.specs.Market.{Market};
ghost use Rattle.sc_papers.specs.TakingBack.{TakesBack, is_entry, is_withdrawal};
ghost use Rattle.sc_papers.specs.Verdict.{after, verdict};

use crate::amendment::Amendment;
use crate::limits::MOST_STUDENTS;
use crate::papers::Papers;
use crate::records::Student;
use std::alloc::AllocError;

impl Papers {
    /// Makes an amendment that nothing is said against and that is no `Withdraw`, and answers the one that takes it back: the
    /// student who entered withdraws, the lists, the zone and the school to continue at that were replaced come
    /// back, and as many seats as were added are closed, or the other way round. The only error is want of memory, which only
    /// an `Enter` takes: then the papers are as before, and the amendment is given up.
    ///
    /// It takes a few look-ups, and for a student who enters one draw of the lottery. The old lists are moved and not copied.
    pub fn apply_reversibly(&mut self, amendment: Amendment) -> Result<Amendment, AllocError>
        requires no_withdrawal { is_withdrawal amendment ≡ false }
        requires allowed { verdict self.old amendment ≡ None }
        ensures accepted { OnOk result (self.new ≡ after self.old amendment) }
        ensures back { IfOk result (λ back. TakesBack self.old self.new back) }
        ensures memory { OnErr result (is_entry amendment ≡ true) }
        ensures unchanged { OnErr result (self.new ≡ self.old) }
    {
        // This call tells that the papers are well-formed and within their limits, and so are the lists that
        // are replaced.
        prove!(self.students_len() <= MOST_STUDENTS);
        match amendment {
            Amendment::Enter {
                student,
                zone,
                siblings,
                choices,
                continuing,
            } => {
                let record = Student {
                    zone,
                    siblings,
                    choices,
                    continuing,
                };
                self.enter(student, record)?;
                Ok(Amendment::Withdraw { student })
            }
            Amendment::Withdraw { .. } => unreachable!(),
            Amendment::Rerank { student, choices } => {
                let choices = self.rerank(student, choices);
                Ok(Amendment::Rerank { student, choices })
            }
            Amendment::Add { school, count } => {
                self.add_seats(school, count);
                Ok(Amendment::Close { school, count })
            }
            Amendment::Close { school, count } => {
                self.close_seats(school, count);
                Ok(Amendment::Add { school, count })
            }
            Amendment::Correct {
                student,
                zone,
                siblings,
                continuing,
            } => {
                let (zone, siblings, continuing) = self.correct(
                    student, zone, siblings, continuing,
                );
                Ok(Amendment::Correct {
                    student,
                    zone,
                    siblings,
                    continuing,
                })
            }
        }
    }

    /// Takes an amendment back by what `apply_reversibly` answered to it: the papers are again what they were before.
    /// It takes no memory and cannot fail. The cost is that of `apply_reversibly`.
    pub fn take_back(&mut self, back: Amendment)
        requires { (before : Market) × TakesBack before self.old back }
        ensures { (before : Market) → TakesBack before self.old back → self.new ≡ before }
    {
        match back {
            Amendment::Enter { .. } => unreachable!(),
            Amendment::Withdraw { student } => self.withdraw(student),
            Amendment::Rerank { student, choices } => {
                let _ = self.rerank(student, choices);
            }
            Amendment::Add { school, count } => self.add_seats(school, count),
            Amendment::Close { school, count } => self.close_seats(school, count),
            Amendment::Correct {
                student,
                zone,
                siblings,
                continuing,
            } => {
                let _ = self.correct(student, zone, siblings, continuing);
            }
        }
    }
}
