//! The laws of the auditor's answers. Each function does nothing: its contract is the law.
ghost use Rattle.std.specs.Prelude.{◌≡◌, List};
ghost use Rattle.sc_papers.specs.Market.{Market};
ghost use Rattle.sc_papers.specs.Matching.{Matching};
ghost use Rattle.sc_papers.specs.declared.rejection.Rejection.{Rejection};
ghost use Rattle.sc_audit.specs.Stability.{IsStability};
ghost use Rattle.sc_audit.specs.Verdict.{IsVerdict};
ghost use Rattle.sc_audit.specs.declared.stability.Stability.{Stability};
ghost use Rattle.sc_audit.specs.declared.verdict.Verdict.{Verdict};

/// One verdict alone is true of a log under the same papers.
pub fn verdict_is_unique()
    ensures { (m : Market) (log : List Rejection) (v w : Verdict) → IsVerdict m log v → IsVerdict m log w → v ≡ w }
{}

/// One stability verdict alone is true of a matching under the same papers.
pub fn stability_is_unique()
    ensures { (m : Market) (a : Matching) (v w : Stability) → IsStability m a v → IsStability m a w → v ≡ w }
{}
