//! Amendments that change who stands in the papers, or a school there, in place.

ghost use Rattle.sc_repair.specs.Changed.{ChangesInPlace};
ghost use Rattle.sc_repair.specs.Standing.{IsAmended};

use super::Settlement;
use crate::districts::region_of;
use crate::ledgers::{choices_before, place_in, strike, student_in, taken};
use crate::region_positions::positions_from;
use crate::resettling::resettle;
use crate::rewind::point_in;
use sc_ledgers::{Rows, proposals_at};
use sc_papers::Amendment;
use sc_stamps::record_of;
use std::alloc::AllocError;

impl Settlement {
    /// Makes an amendment by which nobody enters or withdraws, in place, and takes the turns of its region anew from its rewind point on,
    /// where they can differ. An error is want of memory, or that of `take_anew`, and changes nothing: where it comes after the papers have
    /// changed, the amendment is taken back, and the ledgers are lost, which the next amendment opens again.
    pub(super) fn change_by_ledgers(&mut self, amendment: Amendment) -> Result<(), AllocError>
        requires { ChangesInPlace self.old.papers amendment }
        ensures { IsAmended result self.old amendment self.new }
    {
        let amended = record_of(&amendment);
        let mut ledgers = taken(self.alloc, &mut self.ledgers, &self.papers, &self.segments)?;
        let region = region_of(self.alloc, &mut self.districts, &self.papers, &amendment)?;
        let point = point_in(&self.papers, &region, &amendment);
        let positions = positions_from(&region, point);
        strike(&self.papers, &mut ledgers.schools, student_in(&amended));
        // Only an entry takes memory.
        let Ok(back) = self.papers.apply_reversibly(amendment) else {
            unreachable!()
        };
        let papers = &self.papers;
        let rows = Rows {
            papers,
            amended: student_in(&amended),
            before: choices_before(papers, &back, student_in(&amended)),
            leaves: false,
        };
        let settled = resettle(
            self.alloc,
            &rows,
            &mut ledgers,
            positions,
            place_in(papers, &amended),
            &mut self.places,
            &mut self.segments,
        );
        match settled {
            Ok(()) => {
                drop(back);
                let ends = &ledgers.ends;
                self.proposals = proposals_at(&self.papers, &self.segments, ends, positions, 0);
                self.ledgers = Some(ledgers);
                Ok(())
            }
            Err(refused) => {
                self.papers.take_back(back);
                self.districts = None;
                Err(refused)
            }
        }
    }
}
