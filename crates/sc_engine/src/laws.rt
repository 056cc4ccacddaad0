//! The laws of rounds. Each function does nothing: its contract is the law.
ghost use Rattle.std.specs.Prelude.{◌≡◌, ℕ, ◌≤◌, List, [], false};
ghost use Rattle.sc_papers.specs.Market.{Market};
ghost use Rattle.sc_papers.specs.Progress.{all_choices};
ghost use Rattle.sc_papers.specs.declared.rejection.Rejection.{Rejection};
ghost use Rattle.sc_engine.specs.Counting.{CountsExactly};
ghost use Rattle.sc_engine.specs.RoundView.{RoundView, Continues, Enters, Fits, entered_papers, has_entered};

/// After `Round::start` a round has made exactly as many proposals as its log has entries and as it has
/// students who stand at a choice: so it is where nobody has entered, and so it stays with each student
/// who enters.
#[tactic(auto, using(crate::proofs::CountingLaws::exact_none))]
pub fn proposals_after_start_are_counted_exactly()
    ensures start { (m : Market) (r : RoundView) → ((i : ℕ) → has_entered m r.ranks i ≡ false) → r.log ≡ []
        → r.proposals ≡ 0 → CountsExactly m r }
    ensures enter { (m : Market) (old new : RoundView) (i : ℕ) → CountsExactly m old → Enters m old new i
        → CountsExactly m new }
{}

/// A round has made at most as many proposals as the students whom it holds have choices, all together,
/// where all its calls had the same papers: whichever log it goes on from, it makes none twice.
#[tactic(auto, using(crate::proofs::CountingLaws::proposals_bounded))]
pub fn proposals_are_at_most_the_choices()
    ensures { (m : Market) (r : RoundView) (earlier : List Rejection) → Fits m r → Continues m earlier r
        → r.proposals ≤ all_choices (entered_papers m r.ranks) }
{}
