//! Amendments after which the papers are settled from scratch.

ghost use Rattle.std.specs.Prelude.{◌≡◌, None, IfOk};
ghost use Rattle.sc_papers.specs.Verdict.{verdict};
ghost use Rattle.sc_papers.specs.declared.amendment.Amendment.TheVariants.{Withdraw};
ghost use Rattle.sc_repair.specs.Changed.{ChangesInPlace};
ghost use Rattle.sc_repair.specs.Standing.{IsAmended};

use super::Settlement;
use crate::districts::region_of;
use crate::opening::settle_all;
use crate::region_positions::positions_from;
use crate::rewind::point_in;
use sc_ledgers::proposals_of;
use sc_papers::{Amendment, MOST_STUDENTS, StudentNo};
use sc_seats::HeapRoll;
use std::alloc::AllocError;

impl Settlement {
    /// Makes an amendment by which nobody enters or withdraws, in place, and settles the papers from scratch. The ledgers are given up.
    /// The only error is want of memory, which changes nothing else: the amendment is taken back then.
    pub(super) fn change_afresh(&mut self, amendment: Amendment) -> Result<(), AllocError>
        requires { ChangesInPlace self.old.papers amendment }
        ensures { IsAmended result self.old amendment self.new }
    {
        self.ledgers = None;
        let region = region_of(self.alloc, &mut self.districts, &self.papers, &amendment)?;
        let point = point_in(&self.papers, &region, &amendment);
        let positions = positions_from(&region, point);
        // Only an entry takes memory.
        let Ok(back) = self.papers.apply_reversibly(amendment) else {
            unreachable!()
        };
        match settle_all::<HeapRoll>(self.alloc, &self.papers, None) {
            Ok(made) => {
                drop(back);
                self.proposals = proposals_of(&self.papers, &made.segments, positions, 0);
                self.places = made.places;
                self.segments = made.segments;
                Ok(())
            }
            Err(refused) => {
                self.papers.take_back(back);
                self.districts = None;
                Err(refused)
            }
        }
    }

    /// Lets a student withdraw, in place, and settles the papers without them from scratch. The ledgers are given up. The only error is
    /// want of memory, which changes nothing else.
    pub(super) fn withdraw_afresh(&mut self, student: StudentNo) -> Result<(), AllocError>
        requires { verdict self.old.papers (Withdraw student) ≡ None }
        ensures { IsAmended result self.old (Withdraw student) self.new }
    {
        let amendment = Amendment::Withdraw { student };
        self.ledgers = None;
        let region = region_of(self.alloc, &mut self.districts, &self.papers, &amendment)?;
        let point = point_in(&self.papers, &region, &amendment);
        // This call tells that the papers are within their limits, so that the next position can be counted.
        prove!(self.papers.students_len() <= MOST_STUDENTS);
        match settle_all::<HeapRoll>(self.alloc, &self.papers, Some(student)) {
            Ok(made) => {
                self.papers.withdraw(student);
                // Whoever stood behind the student stands one position further on.
                let behind = positions_from(&region, point + 1);
                self.proposals = proposals_of(&self.papers, &made.segments, behind, 1);
                self.places = made.places;
                self.places.leave(point);
                self.segments = made.segments;
                Ok(())
            }
            Err(refused) => {
                self.districts = None;
                Err(refused)
            }
        }
    }
}
