//! A student who withdraws.

ghost use Rattle.std.specs.Prelude.{◌≡◌, None};
ghost use Rattle.sc_papers.specs.Verdict.{verdict};
ghost use Rattle.sc_papers.specs.declared.amendment.Amendment.TheVariants.{Withdraw};
ghost use Rattle.sc_repair.specs.Standing.{IsAmended};

use super::Settlement;
use crate::districts::region_of;
use crate::ledgers::{strike, taken};
use crate::region_positions::positions_from;
use crate::resettling::resettle;
use crate::rewind::point_in;
use sc_ledgers::{Rows, leave, proposals_at};
use sc_papers::{Amendment, MOST_STUDENTS, StudentNo};
use std::alloc::AllocError;

impl Settlement {
    /// Lets a student withdraw, in place: the turns of their region are taken anew, where they can differ, as if the student did not enter
    /// in theirs, and then the papers, the segments and the ledgers let the student go. An error is want of memory, or that of
    /// `take_anew`, and changes nothing; the ledgers are lost then, which the next amendment opens again.
    pub(super) fn withdraw_by_ledgers(&mut self, student: StudentNo) -> Result<(), AllocError>
        requires { verdict self.old.papers (Withdraw student) ≡ None }
        ensures { IsAmended result self.old (Withdraw student) self.new }
    {
        let amendment = Amendment::Withdraw { student };
        let mut ledgers = taken(self.alloc, &mut self.ledgers, &self.papers, &self.segments)?;
        let region = region_of(self.alloc, &mut self.districts, &self.papers, &amendment)?;
        let point = point_in(&self.papers, &region, &amendment);
        // This call tells that the papers are within their limits, so that the next position can be counted.
        prove!(self.papers.students_len() <= MOST_STUDENTS);
        strike(&self.papers, &mut ledgers.schools, Some(student));
        let papers = &self.papers;
        let rows = Rows {
            papers,
            amended: Some(student),
            before: papers.choices_at(point),
            leaves: true,
        };
        let settled = resettle(
            self.alloc,
            &rows,
            &mut ledgers,
            positions_from(&region, point),
            None,
            &mut self.places,
            &mut self.segments,
        );
        match settled {
            Ok(()) => {
                self.papers.withdraw(student);
                self.segments.remove(point);
                self.places.leave(point);
                leave(&mut ledgers, point);
                // Whoever stood behind the student stands one position further on.
                let behind = positions_from(&region, point + 1);
                let ends = &ledgers.ends;
                self.proposals = proposals_at(&self.papers, &self.segments, ends, behind, 1);
                self.ledgers = Some(ledgers);
                Ok(())
            }
            Err(refused) => {
                self.districts = None;
                Err(refused)
            }
        }
    }
}
