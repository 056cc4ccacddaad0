//! Amendments taking effect.

ghost use Rattle.std.specs.Prelude.{◌≡◌, None, Some, false, true, OnOk, OnErr, IfErr};
ghost use Rattle.sc_papers.specs.TakingBack.{is_entry};
ghost use Rattle.sc_papers.specs.Verdict.{after, IsRefusal, verdict};

use crate::amendment::{Amendment, Refusal};
use crate::papers::Papers;
use crate::records::Student;
use std::alloc::AllocError;

impl Papers {
    /// Makes the amendment, or answers the first refusal that applies, as `check` does, or else want
    /// of memory. After a refusal the papers are as before; the amendment is given up.
    ///
    /// The cost is that of `check`, with one draw of the lottery for a student who enters, and for one
    /// who withdraws the shift that keeps the order. Only `Enter` takes memory, so no other amendment is
    /// answered by want of it.
    pub fn apply(&mut self, amendment: Amendment) -> Result<(), Refusal>
        ensures allowed { OnOk result (verdict self.old amendment ≡ None) }
        ensures accepted { OnOk result (self.new ≡ after self.old amendment) }
        ensures refused { IfErr result (IsRefusal (verdict self.old amendment)) }
        ensures memory { IfErr result (λ refusal. is_entry amendment ≡ false
            → verdict self.old amendment ≡ Some refusal) }
        ensures unchanged { OnErr result (self.new ≡ self.old) }
    {
        match amendment {
            Amendment::Enter {
                student,
                zone,
                siblings,
                choices,
                continuing,
            } => {
                let record = Student {
                    zone,
                    siblings,
                    choices,
                    continuing,
                };
                self.admit(student, record)
            }
            other => {
                self.check(&other)?;
                self.apply_allowed(other)?;
                Ok(())
            }
        }
    }

    /// Makes an amendment that nothing is said against. The only error is want of memory, which only an `Enter` takes: then the papers
    /// are as before, and the amendment is given up. The cost is that of `apply` without its `check`.
    pub fn apply_allowed(&mut self, amendment: Amendment) -> Result<(), AllocError>
        requires { verdict self.old amendment ≡ None }
        ensures accepted { OnOk result (self.new ≡ after self.old amendment) }
        ensures memory { OnErr result (is_entry amendment ≡ true) }
        ensures unchanged { OnErr result (self.new ≡ self.old) }
    {
        match amendment {
            Amendment::Withdraw { student } => {
                self.withdraw(student);
                Ok(())
            }
            other => {
                let _ = self.apply_reversibly(other)?;
                Ok(())
            }
        }
    }
}
