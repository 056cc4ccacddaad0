ghost use Rattle.std.specs.Prelude.{◌≡◌, ◌<◌, None, length, min, take, IfOk, IfErr, OnErr, OnOk};
ghost use Rattle.sc_papers.specs.Matching.{IsStudentOptimal};
ghost use Rattle.sc_papers.specs.Verdict.{unless_refused, verdict, IsRefusal};
ghost use Rattle.sc_papers.specs.declared.stamp.TheConstants.Stamp.{GREATEST};
ghost use Rattle.sc_stamps.specs.Stamps.{IsInStep, no_stamps, stamp_of};
ghost use Rattle.sc_stamps.specs.Record.{record_of};
ghost use Rattle.sc_stamps.specs.Verdict.{stamped_after, stamped_verdict, GivesStamp};
ghost use Rattle.sc_stamps.specs.declared.record.Record.TheVariants.{OfSchool, OfStudent};
ghost use Rattle.sc_repair.specs.Stamped.{StampedStanding, stamped_papers};
ghost use Rattle.sc_repair.specs.Rewinding.{rewind_point};
ghost use Rattle.sc_repair.specs.Standing.{CountsRegion, IsCertified, IsOptimal, KeepsOthers, held_at, log_of};
ghost use Rattle.sc_repair.specs.Standing.{matching_of, papers_after, place_of, proposals_from_scratch};

use crate::open_refused::OpenRefused;
use crate::opening::settle_all;
use crate::settlement::Settlement;
use crate::stamping::ended;
use sc_papers::{
    Amendment, Assignment, MOST_STUDENTS, Papers, Refusal, Rejection, SchoolNo, Stamp, Stamped,
    StudentNo,
};
use sc_seats::HeapRoll;
use sc_stamps::{Stamps, marking_of};
use std::alloc::{AllocError, Global};
use std::marker::Model;

/// The papers and the standing assignment under them, and the stamps of their records: of every clearing, the
/// standing assignment is the student-optimal stable matching of its papers, and a log of rejections certifies
/// it.
pub struct Clearing {
    settlement: Settlement,
    stamps: Stamps,
}

impl Drop for Clearing {
    fn drop(self) {
        let Clearing {
            settlement: _,
            stamps: _,
        } = self;
    }
}

impl Model for Clearing {
    ghost Value = { StampedStanding };

    ghost view = { λ c. record { standing = c.settlement; stamps = c.stamps } };

    ghost invariant = { λ c. IsInStep c.settlement.papers c.stamps };
}

impl Clearing {
    /// Settles papers that were amended before, whose records have these stamps, one for each and none greater than the
    /// number of accepted amendments: the standing assignment is their student-optimal stable matching, and the log
    /// certifies it. The only error is want of memory, which gives the papers back unchanged.
    ///
    /// The cost is an offer for each proposal, and memory is taken in proportion to the students, the
    /// schools and the rejections.
    pub fn resume(alloc: Global, papers: Papers, stamps: Stamps) -> Result<Self, OpenRefused>
        requires in_step { IsInStep papers stamps }
        ensures papers { IfOk result (λ clearing. clearing.standing.papers ≡ papers) }
        ensures stamps { IfOk result (λ clearing. clearing.stamps ≡ stamps) }
        ensures optimal { IfOk result (λ clearing. IsStudentOptimal papers (matching_of clearing.standing)) }
        ensures certified { IfOk result (λ clearing. IsCertified clearing.standing) }
        ensures proposals { IfOk result (λ clearing. clearing.standing.proposals
            ≡ proposals_from_scratch clearing.standing) }
        ensures refused { IfErr result (λ refused. refused.papers ≡ papers) }
    {
        let Ok(placed) = settle_all::<HeapRoll>(alloc, &papers, None) else {
            return Err(OpenRefused { papers });
        };
        let settlement = Settlement {
            alloc,
            papers,
            places: placed.places,
            segments: placed.segments,
            proposals: placed.proposals,
            ledgers: None,
            districts: None,
            rest: 0,
        };
        Ok(Clearing { settlement, stamps })
    }

    /// Settles the papers: the standing assignment is their student-optimal stable matching, and the
    /// log certifies it. No amendment was accepted yet, so every stamp is 0. The only error is want of memory,
    /// which gives the papers back unchanged.
    ///
    /// The cost is an offer for each proposal, and memory is taken in proportion to the students, the
    /// schools and the rejections.
    pub fn open(alloc: Global, papers: Papers) -> Result<Self, OpenRefused>
        ensures papers { IfOk result (λ clearing. clearing.standing.papers ≡ papers) }
        ensures stamps { IfOk result (λ clearing. clearing.stamps ≡ no_stamps papers) }
        ensures optimal { IfOk result (λ clearing. IsStudentOptimal papers (matching_of clearing.standing)) }
        ensures certified { IfOk result (λ clearing. IsCertified clearing.standing) }
        ensures proposals { IfOk result (λ clearing. clearing.standing.proposals
            ≡ proposals_from_scratch clearing.standing) }
        ensures refused { IfErr result (λ refused. refused.papers ≡ papers) }
    {
        match Stamps::new(alloc, &papers) {
            Ok(stamps) => Clearing::resume(alloc, papers, stamps),
            Err(_) => Err(OpenRefused { papers }),
        }
    }

    /// The papers as they stand. Whichever clearing this is, the standing assignment is their
    /// student-optimal stable matching and the log is settled for them, and this call tells its
    /// callers so.
    pub fn papers(&self) -> &Papers
        ensures papers { result.now ≡ self.now.standing.papers }
        ensures optimal { IsOptimal self.now.standing }
        ensures certified { IsCertified self.now.standing }
    {
        &self.settlement.papers
    }

    /// What the student has: `None` for one who is not in the papers, `Some(None)` for one who is
    /// unplaced. In constant time.
    pub fn place_of(&self, student: StudentNo) -> Option<Option<SchoolNo>>
        ensures { result ≡ place_of self.now.standing student }
    {
        if self.settlement.papers.student(student).is_none() {
            return None;
        }
        Some(self.settlement.places.get(student))
    }

    /// How many students have the school, or `None` for one that is not in the papers. In constant time.
    pub fn held(&self, school: SchoolNo) -> Option<u32>
        ensures { result ≡ held_at self.now.standing school }
    {
        let settlement = &self.settlement;
        if settlement.papers.school(school).is_none() {
            return None;
        }
        // These calls tell that no student stands twice, in the places or in the papers.
        prove!(settlement.places.len() <= usize::MAX);
        prove!(settlement.papers.students_len() <= MOST_STUDENTS);
        Some(settlement.places.held(school) as u32)
    }

    /// The standing assignment, lent.
    pub fn places(&self) -> &Assignment
        ensures { result.now ≡ self.now.standing.places }
    {
        &self.settlement.places
    }

    /// The standing assignment as a value of its own: each placed student with their school. The only
    /// error is want of memory.
    pub fn assignment(&self) -> Result<Assignment, AllocError>
        ensures { IfOk result (λ assignment. assignment ≡ self.now.standing.places) }
    {
        self.settlement.places.copy()
    }

    /// How many rejections led to the standing assignment, or the greatest number where there were more. One
    /// pass over the students.
    pub fn log_len(&self) -> usize
        ensures { result ≡ min (length (log_of self.now.standing)) usize.MAX }
    {
        self.settlement.segments.log_len()
    }

    /// The rejections that led to the standing assignment, in the order in which they happened, as a value of its own. They are settled for
    /// the papers as they stand, so whoever doubts the assignment can check them. The only error is
    /// want of memory; the cost is their number.
    pub fn log(&self) -> Result<Vec<Rejection>, AllocError>
        ensures { IfOk result (λ log. log.items ≡ log_of self.now.standing) }
    {
        self.settlement.segments.flat()
    }

    /// How many proposals the last settling comes to. Of a clearing from `open`, `resume` or `Unsettled::settle` those of
    /// all students, from scratch; after an accepted `amend` those of its region's students from the rewind point on; of
    /// one from a journal's replay those of the last line, or of the opening where there is none. A proposal is
    /// one student's asking one school in a chain, also where a turn is known to stay and is not run again.
    pub fn proposals_last(&self) -> u64
        ensures { result ≡ self.now.standing.proposals }
    {
        self.settlement.proposals
    }

    /// How many amendments were accepted since the opening: the stamp that the last of them gave its record. Whichever
    /// clearing this is, its stamps are in step with its papers, so that none is greater than this number.
    pub fn accepted(&self) -> Stamp
        ensures count { result ≡ self.now.stamps.accepted }
        ensures in_step { IsInStep self.now.standing.papers self.now.stamps }
    {
        self.stamps.accepted()
    }

    /// The stamp of a student: the number of the last accepted amendment of theirs, 0 where there was none, and
    /// 0 for one who is not in the papers. In constant time.
    pub fn stamp_of_student(&self, student: StudentNo) -> Stamp
        ensures { result ≡ stamp_of self.now.standing.papers self.now.stamps (OfStudent student) }
    {
        self.stamps.of_student(&self.settlement.papers, student)
    }

    /// The stamp of a school: the number of the last accepted amendment of its seats, 0 where there was none,
    /// and 0 for one that is not in the papers. In constant time.
    pub fn stamp_of_school(&self, school: SchoolNo) -> Stamp
        ensures { result ≡ stamp_of self.now.standing.papers self.now.stamps (OfSchool school) }
    {
        self.stamps.of_school(&self.settlement.papers, school)
    }

    /// The first refusal that applies to a stamped amendment, but for want of memory: that of the papers first,
    /// as `Papers::check` answers it, then `Stale` with the record's stamp where the amendment carries another
    /// one, then `Spent` where 999,999,999 amendments were accepted. It takes no memory. Whichever clearing this
    /// is, its standing is as `papers` tells.
    pub fn check(&self, stamped: &Stamped) -> Result<(), Refusal>
        ensures answer { result ≡ unless_refused (stamped_verdict (stamped_papers self.now) stamped.now) }
        ensures optimal { IsOptimal self.now.standing }
        ensures certified { IsCertified self.now.standing }
    {
        self.stamps.check(&self.settlement.papers, stamped)
    }

    /// Makes the amendment, gives its record the next stamp, and settles its region anew from its rewind point
    /// on, or answers the first refusal that applies, as `check` does, or else want of memory. After a refusal
    /// the papers, the stamps, the standing assignment, the log and the count of proposals are as before; the
    /// amendment is given up. Whatever the answer, the standing assignment is the student-optimal
    /// stable matching of the papers as they then stand.
    ///
    /// An accepted amendment carried the stamp that its record had: nobody amends what they have not seen.
    /// Whoever is not in the region (`sc_region::region`) keeps their place and their segment, and the
    /// segments of the students before the rewind point stay.
    ///
    /// An `Enter` costs its `check` and for each proposal of the newcomer's chain a look at the ledger of the school, however many
    /// students there are, but for a table that grows now and then. It changes what stands in place, and takes that back where a growth
    /// is refused.
    ///
    /// Any other amendment costs that of finding the region, a look at the segment of each of the region's students from the rewind point
    /// on, and for each of them whose turn can differ a look at a ledger for each proposal of their old and their new chain; a withdrawal
    /// also moves up whoever stands behind the student in the order of entry, and passes over all ledgers. Beside that it clears four
    /// bytes for each student and one for each school. The new segments are made whole beside the old ones before they take their place,
    /// and papers that have changed by then go back where a growth is refused, so nothing is left half done.
    ///
    /// A look at a ledger counts its labels. Where that has cost twice as much as a settling from scratch would, the papers are settled
    /// from scratch, an offer for each proposal, for this amendment and the next sixteen; where there are more than 1,500 students for
    /// each school they are at once. So none costs more than some settlings from scratch and an opening of the ledgers, and it is want
    /// of memory only where that has none.
    ///
    /// The first amendment after an opening, and the first after a refused growth, also opens the ledgers: a look at each rejection of the
    /// log, and a sort of the keys of each school. A refused amendment costs its `check` alone. The stamps take a look-up, and those behind
    /// a student who withdraws move up.
    pub fn amend(&mut self, stamped: Stamped) -> Result<(), Refusal>
        ensures optimal { IsStudentOptimal (papers_after self.old.standing.papers stamped.amendment result)
            (matching_of self.new.standing) }
        ensures certified { IsCertified self.new.standing }
        ensures stays { OnOk result
            (take (rewind_point self.old.standing.papers stamped.amendment) self.new.standing.segments
            ≡ take (rewind_point self.old.standing.papers stamped.amendment) self.old.standing.segments) }
        ensures others { OnOk result (KeepsOthers self.old.standing stamped.amendment self.new.standing) }
        ensures proposals { OnOk result (CountsRegion self.old.standing.papers stamped.amendment self.new.standing) }
        ensures allowed { OnOk result (stamped_verdict (stamped_papers self.old) stamped ≡ None) }
        ensures accepted { OnOk result (stamped_papers self.new
            ≡ stamped_after (stamped_papers self.old) stamped.amendment) }
        ensures stamped { OnOk result
            (GivesStamp (stamped_papers self.old) stamped.amendment (stamped_papers self.new)) }
        ensures honoured { OnOk result
            (stamp_of self.old.standing.papers self.old.stamps (record_of stamped.amendment) ≡ stamped.stamp) }
        ensures refused { IfErr result (IsRefusal (stamped_verdict (stamped_papers self.old) stamped)) }
        ensures unchanged { OnErr result (self.new ≡ self.old) }
    {
        self.check(&stamped)?;
        self.amend_allowed(stamped.amendment)?;
        Ok(())
    }

    /// Makes an amendment that nothing is said against, gives its record the next stamp, and settles its region anew from its rewind point on.
    /// The only error is want of memory, after which the papers, the stamps, the standing assignment, the log and the
    /// count of proposals are as before; the amendment is given up. Whatever the answer, the standing assignment is the student-optimal
    /// stable matching of the papers as they then stand.
    ///
    /// It is what `amend` does for a caller who has asked `check`, and costs what `amend` costs without it.
    pub fn amend_allowed(&mut self, amendment: Amendment) -> Result<(), AllocError>
        requires allowed { verdict self.old.standing.papers amendment ≡ None }
        requires room { self.old.stamps.accepted < GREATEST }
        ensures optimal { IsOptimal self.new.standing }
        ensures certified { IsCertified self.new.standing }
        ensures stays { OnOk result (take (rewind_point self.old.standing.papers amendment) self.new.standing.segments
            ≡ take (rewind_point self.old.standing.papers amendment) self.old.standing.segments) }
        ensures others { OnOk result (KeepsOthers self.old.standing amendment self.new.standing) }
        ensures proposals { OnOk result (CountsRegion self.old.standing.papers amendment self.new.standing) }
        ensures accepted { OnOk result (stamped_papers self.new ≡ stamped_after (stamped_papers self.old) amendment) }
        ensures stamped { OnOk result (GivesStamp (stamped_papers self.old) amendment (stamped_papers self.new)) }
        ensures unchanged { OnErr result (self.new ≡ self.old) }
    {
        let marking = marking_of(self.papers(), &amendment);
        self.stamps.begin(marking)?;
        let made = self.settlement.amend(amendment);
        ended(&mut self.stamps, marking, made)
    }
}
