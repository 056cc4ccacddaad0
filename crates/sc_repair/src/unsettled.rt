ghost use Rattle.std.specs.Prelude.{◌≡◌, ◌<◌, None, IfErr, IfOk, OnErr, OnOk};
ghost use Rattle.sc_papers.specs.Matching.{IsStudentOptimal};
ghost use Rattle.sc_papers.specs.Reordering.{IsReordering};
ghost use Rattle.sc_papers.specs.Verdict.{unless_refused, verdict, IsRefusal};
ghost use Rattle.sc_papers.specs.WellFormed.{WellFormed};
ghost use Rattle.sc_papers.specs.declared.stamp.TheConstants.Stamp.{GREATEST};
ghost use Rattle.sc_stamps.specs.Verdict.{StampedPapers, stamped_after, stamped_verdict, unamended};
ghost use Rattle.sc_stamps.specs.Record.{record_of};
ghost use Rattle.sc_stamps.specs.Stamps.{stamp_of, IsInStep};
ghost use Rattle.sc_repair.specs.Turns.{stamped_in_turn, AreInTurn};
ghost use Rattle.sc_repair.specs.Stamped.{stamped_papers};
ghost use Rattle.sc_repair.specs.Standing.{matching_of, proposals_from_scratch, IsCertified};

use crate::clearing::Clearing;
use crate::entry_order::{make, position_of_leaver, put_in_order, put_last};
use crate::open_refused::OpenRefused;
use crate::turns::Turns;
use sc_papers::{Amendment, Papers, Refusal, Stamp, Stamped};
use sc_stamps::{Stamps, marking_of};
use std::alloc::{AllocError, Global};
use std::marker::Model;

/// Papers that are amended and not settled, and the stamps of their records: for those who make many
/// amendments, and look at no standing assignment before the last of them.
pub struct Unsettled {
    // In an order of their own: whoever withdraws goes last before, so that nobody moves up.
    papers: Papers,
    stamps: Stamps,
    // The order of entry.
    turns: Turns,
}

impl Drop for Unsettled {
    fn drop(self) {
        let Unsettled {
            papers: _,
            stamps: _,
            turns: _,
        } = self;
    }
}

impl Model for Unsettled {
    ghost Value = { StampedPapers };

    ghost view = { λ u. stamped_in_turn u.turns.positions u.papers u.stamps };

    ghost invariant = { λ u. AreInTurn u.turns u.papers u.stamps };
}

impl Unsettled {
    /// Papers that no amendment was accepted for: each stamp is 0. Papers are always well-formed, and this
    /// call tells its callers so. The only error is want of memory, which gives the papers back unchanged.
    pub fn new(alloc: Global, papers: Papers) -> Result<Self, OpenRefused>
        ensures unamended { IfOk result (λ unsettled. unsettled ≡ unamended papers) }
        ensures well_formed { WellFormed papers }
        ensures refused { IfErr result (λ refused. refused.papers ≡ papers) }
    {
        // Papers tell that they are well-formed where they tell how many students there are.
        let students = papers.students_len();
        let Ok(turns) = Turns::first(alloc, students) else {
            return Err(OpenRefused { papers });
        };
        let Ok(stamps) = Stamps::new(alloc, &papers) else {
            return Err(OpenRefused { papers });
        };
        Ok(Unsettled {
            papers,
            stamps,
            turns,
        })
    }

    /// The papers as they stand, in order of entry. One pass over all who ever entered; it takes no memory.
    pub fn into_papers(self) -> Papers
        ensures { result ≡ self.papers }
    {
        let Unsettled {
            mut papers,
            mut stamps,
            mut turns,
        } = self;
        put_in_order(&mut papers, &mut stamps, &mut turns);
        papers
    }

    /// The papers as they stand, with the students in an order of their own, for whoever asks for nothing that hangs on the
    /// order of entry, as no text of a report does. In constant time.
    pub fn into_reordered(self) -> Papers
        ensures { IsReordering result self.papers }
    {
        let Unsettled {
            papers,
            stamps,
            turns,
        } = self;
        drop(stamps);
        drop(turns);
        papers
    }

    /// How many amendments were accepted: the stamp that the last of them gave its record. Whichever papers these are,
    /// their stamps are in step with them, so that none is greater than this number.
    pub fn accepted(&self) -> Stamp
        ensures count { result ≡ self.now.stamps.accepted }
        ensures in_step { IsInStep self.now.papers self.now.stamps }
    {
        self.stamps.accepted()
    }

    /// The first refusal that applies to a stamped amendment, but for want of memory: that of the papers first,
    /// as `Papers::check` answers it, then `Stale` with the record's stamp where the amendment carries another
    /// one, then `Spent` where 999,999,999 amendments were accepted. It takes no memory.
    #[tactic(auto, using(crate::proofs::AmendedInTurn::stamped_verdict_in_turn))]
    pub fn check(&self, stamped: &Stamped) -> Result<(), Refusal>
        ensures { result ≡ unless_refused (stamped_verdict self.now stamped.now) }
    {
        self.stamps.check(&self.papers, stamped)
    }

    /// Makes the amendment, and gives its record the next stamp, or answers the first refusal that applies, as
    /// `check` does, or else want of memory. After a refusal the papers and the stamps are as before; the
    /// amendment is given up. An accepted amendment carried the stamp that its record had.
    ///
    /// The cost is that of `check` and a few look-ups, with one draw of the lottery for a student who enters; nobody
    /// moves up where one withdraws. Only an entry takes memory.
    pub fn amend(&mut self, stamped: Stamped) -> Result<(), Refusal>
        ensures allowed { OnOk result (stamped_verdict self.old stamped ≡ None) }
        ensures accepted { OnOk result (self.new ≡ stamped_after self.old stamped.amendment) }
        ensures honoured { OnOk result (stamp_of self.old.papers self.old.stamps (record_of stamped.amendment)
            ≡ stamped.stamp) }
        ensures refused { IfErr result (IsRefusal (stamped_verdict self.old stamped)) }
        ensures unchanged { OnErr result (self.new ≡ self.old) }
    {
        self.check(&stamped)?;
        self.amend_allowed(stamped.amendment)?;
        Ok(())
    }

    /// Makes an amendment that has no stamp of its own, so that it is never stale, and gives its record the next
    /// stamp, or answers the first refusal of the papers, as `Papers::check` does, or else want of
    /// memory. After a refusal the papers and the stamps are as before; the amendment is given up.
    ///
    /// The cost is that of `amend`.
    pub fn apply(&mut self, amendment: Amendment) -> Result<(), Refusal>
        requires room { self.old.stamps.accepted < GREATEST }
        ensures allowed { OnOk result (verdict self.old.papers amendment ≡ None) }
        ensures accepted { OnOk result (self.new ≡ stamped_after self.old amendment) }
        ensures refused { IfErr result (IsRefusal (verdict self.old.papers amendment)) }
        ensures unchanged { OnErr result (self.new ≡ self.old) }
    {
        self.check_rules(&amendment)?;
        self.amend_allowed(amendment)?;
        Ok(())
    }

    /// The first refusal of the papers. It takes no memory.
    #[tactic(auto, using(crate::proofs::AmendedInTurn::verdict_in_turn))]
    fn check_rules(&self, amendment: &Amendment) -> Result<(), Refusal>
        ensures { result ≡ unless_refused (verdict self.now.papers amendment.now) }
    {
        self.papers.check(amendment)
    }

    /// Makes an amendment that nothing is said against, and gives its record the next stamp. The only error is want of memory, after which
    /// the papers and the stamps are as before; the amendment is given up. The cost is that of `amend` without its `check`.
    pub fn amend_allowed(&mut self, amendment: Amendment) -> Result<(), AllocError>
        requires allowed { verdict self.old.papers amendment ≡ None }
        requires room { self.old.stamps.accepted < GREATEST }
        ensures accepted { OnOk result (self.new ≡ stamped_after self.old amendment) }
        ensures unchanged { OnErr result (self.new ≡ self.old) }
    {
        let marking = marking_of(&self.papers, &amendment);
        put_last(
            &mut self.papers,
            &mut self.stamps,
            &mut self.turns,
            position_of_leaver(marking),
        );
        self.turns.begin(marking)?;
        let made = make(&mut self.papers, &mut self.stamps, amendment);
        self.turns.ended(marking, made)
    }

    /// Settles the papers as they stand: a clearing of them, with their stamps. The standing assignment is their
    /// student-optimal stable matching, however they came to be as they are. The only error is want of memory,
    /// which gives the papers back.
    ///
    /// The cost is that of `into_papers` and of `Clearing::resume`.
    pub fn settle(self, alloc: Global) -> Result<Clearing, OpenRefused>
        ensures papers { IfOk result (λ clearing. stamped_papers clearing ≡ self) }
        ensures optimal { IfOk result (λ clearing. IsStudentOptimal self.papers (matching_of clearing.standing)) }
        ensures certified { IfOk result (λ clearing. IsCertified clearing.standing) }
        ensures proposals { IfOk result (λ clearing. clearing.standing.proposals
            ≡ proposals_from_scratch clearing.standing) }
        ensures refused { IfErr result (λ refused. refused.papers ≡ self.papers) }
    {
        let Unsettled {
            mut papers,
            mut stamps,
            mut turns,
        } = self;
        put_in_order(&mut papers, &mut stamps, &mut turns);
        Clearing::resume(alloc, papers, stamps)
    }
}
