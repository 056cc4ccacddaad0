//! What the records of a script amend: papers that are settled once, at the end, or after each amendment.

ghost use Rattle.std.specs.Prelude.{◌≡◌, ◌<◌, None, IfOk, OnErr, OnOk};
ghost use Rattle.sc_papers.specs.Verdict.{unless_refused, verdict};
ghost use Rattle.sc_papers.specs.declared.stamp.TheConstants.Stamp.{GREATEST};
ghost use Rattle.sc_papers.specs.WellFormed.{WellFormed};
ghost use Rattle.sc_stamps.specs.Verdict.{stamped_after, stamped_verdict, unamended, StampedPapers};
ghost use Rattle.sc_repair.specs.Stamped.{stamped_papers};
ghost use Rattle.sc_repair.specs.Standing.{IsCertified};

use sc_papers::{Amendment, Papers, Refusal, Stamp, Stamped};
use sc_repair::{Clearing, Unsettled};
use std::alloc::{AllocError, Global};

/// Papers with stamps, amended one record after the other.
pub trait Amendable {
    // The papers and the stamps of their records, as they stand.
    ghost stands: { Self → StampedPapers };

    /// The papers of an opening, whose stamps are 0. The only error is want of memory.
    fn open(alloc: Global, papers: Papers) -> Result<Self, AllocError>
        ensures unamended { IfOk result (λ amended. stands amended ≡ unamended papers) }
        ensures well_formed { OnOk result (WellFormed papers) };

    /// How many amendments were accepted.
    fn accepted(&self) -> Stamp
        ensures { result ≡ (stands self.now).stamps.accepted };

    /// The first refusal that applies to a stamped amendment, as the error, but for want of memory: nothing is amended, and
    /// no memory is taken.
    fn check(&self, stamped: &Stamped) -> Result<(), Refusal>
        ensures { result ≡ unless_refused (stamped_verdict (stands self.now) stamped.now) };

    /// Makes an amendment that nothing is said against. The only error is want of memory, after which the papers and the
    /// stamps are as before.
    fn amend_allowed(&mut self, amendment: Amendment) -> Result<(), AllocError>
        requires allowed { verdict (stands self.old).papers amendment ≡ None }
        requires room { (stands self.old).stamps.accepted < GREATEST }
        ensures accepted { OnOk result (stands self.new ≡ stamped_after (stands self.old) amendment) }
        ensures unchanged { OnErr result (stands self.new ≡ stands self.old) };

    /// The papers settled, with their stamps. The only error is want of memory. A clearing is settled already; papers that
    /// are not cost what `Clearing::open` does.
    fn settle(self, alloc: Global) -> Result<Clearing, AllocError>
        ensures papers { IfOk result (λ clearing. stamped_papers clearing ≡ stands self) }
        ensures certified { IfOk result (λ clearing. IsCertified clearing.standing) };
}

impl Amendable for Clearing {
    ghost stands = { λ clearing. stamped_papers clearing };

    fn open(alloc: Global, papers: Papers) -> Result<Self, AllocError> {
        match Clearing::open(alloc, papers) {
            Ok(clearing) => Ok(clearing),
            Err(_) => Err(AllocError),
        }
    }

    fn accepted(&self) -> Stamp {
        Clearing::accepted(self)
    }

    fn check(&self, stamped: &Stamped) -> Result<(), Refusal> {
        Clearing::check(self, stamped)
    }

    fn amend_allowed(&mut self, amendment: Amendment) -> Result<(), AllocError> {
        Clearing::amend_allowed(self, amendment)
    }

    fn settle(self, _alloc: Global) -> Result<Clearing, AllocError> {
        // A clearing is settled after each amendment, and tells so where it tells its papers.
        let _papers = self.papers();
        Ok(self)
    }
}

impl Amendable for Unsettled {
    ghost stands = { λ unsettled. unsettled };

    fn open(alloc: Global, papers: Papers) -> Result<Self, AllocError> {
        match Unsettled::new(alloc, papers) {
            Ok(unsettled) => Ok(unsettled),
            Err(_) => Err(AllocError),
        }
    }

    fn accepted(&self) -> Stamp {
        Unsettled::accepted(self)
    }

    fn check(&self, stamped: &Stamped) -> Result<(), Refusal> {
        Unsettled::check(self, stamped)
    }

    fn amend_allowed(&mut self, amendment: Amendment) -> Result<(), AllocError> {
        Unsettled::amend_allowed(self, amendment)
    }

    fn settle(self, alloc: Global) -> Result<Clearing, AllocError> {
        match self.settle(alloc) {
            Ok(clearing) => Ok(clearing),
            Err(_) => Err(AllocError),
        }
    }
}
