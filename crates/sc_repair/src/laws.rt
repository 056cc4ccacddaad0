//! The laws of amendments to settled papers. Each function does nothing: its contract is the law.
ghost use Rattle.std.specs.Prelude.{◌≡◌, ◌≤◌, ℕ, Bool};
ghost use Rattle.sc_papers.specs.Market.{Market};
ghost use Rattle.sc_papers.specs.Progress.{all_choices};
ghost use Rattle.sc_papers.specs.Restriction.{restricted};
ghost use Rattle.sc_papers.specs.Verdict.{after};
ghost use Rattle.sc_papers.specs.declared.amendment.Amendment.{Amendment};
ghost use Rattle.sc_repair.specs.Locality.{TellsRegion};
ghost use Rattle.sc_repair.specs.Standing.{CountsRegion, IsCertified, Standing};

/// An amendment makes no more proposals than there are choices, under the papers after it, on the lists of the students
/// of its region. What is asked of the standing, `Clearing::amend` promises.
#[tactic(auto, using(crate::proofs::Bounded::proposals_bounded))]
pub fn amendment_proposes_no_more_than_its_region_lists()
    ensures { (m : Market) (a : Amendment) (new : Standing) (test : ℕ → Bool) → new.papers ≡ after m a
        → IsCertified new → CountsRegion m a new → TellsRegion m a test
        → new.proposals ≤ all_choices (restricted new.papers test) }
{}
