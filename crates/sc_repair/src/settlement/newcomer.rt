//! A newcomer, who enters after everybody who stands.

ghost use Rattle.std.specs.Prelude.{◌≡◌, None, Some};
ghost use Rattle.sc_papers.specs.Verdict.{verdict};
ghost use Rattle.sc_repair.specs.Changed.{newcomer};
ghost use Rattle.sc_repair.specs.Standing.{IsAmended};

use super::Settlement;
use crate::districts::follow;
use crate::entering::enter_newcomer;
use crate::ledgers::taken;
use sc_ledgers::proposals_at;
use sc_papers::{Amendment, StudentNo};
use std::alloc::AllocError;

impl Settlement {
    /// Makes the amendment that enters the student, in place, and lets their chain run by the ledgers of everybody else. The only error is
    /// want of memory, which changes nothing: where a growth is refused after the papers have the student, the amendment is taken back, and
    /// only the ledgers are lost, which the next amendment opens again.
    pub(super) fn admit(
        &mut self,
        amendment: Amendment,
        student: StudentNo,
    ) -> Result<(), AllocError>
        requires allowed { verdict self.old.papers amendment ≡ None }
        requires newcomer { newcomer amendment ≡ Some student }
        ensures { IsAmended result self.old amendment self.new }
    {
        let position = self.segments.len();
        let mut ledgers = taken(self.alloc, &mut self.ledgers, &self.papers, &self.segments)?;
        follow(&mut self.districts, &self.papers, &amendment);
        let back = match self.papers.apply_reversibly(amendment) {
            Ok(back) => back,
            Err(refused) => {
                self.districts = None;
                return Err(refused);
            }
        };
        let entered = enter_newcomer(
            self.alloc,
            &mut ledgers,
            &self.papers,
            student,
            &mut self.places,
            &mut self.segments,
        );
        match entered {
            Ok(()) => {
                // The newcomer stays.
                drop(back);
                let ends = &ledgers.ends;
                self.proposals = proposals_at(&self.papers, &self.segments, ends, &[position], 0);
                self.ledgers = Some(ledgers);
                Ok(())
            }
            Err(refused) => {
                self.papers.take_back(back);
                self.districts = None;
                Err(refused)
            }
        }
    }
}
