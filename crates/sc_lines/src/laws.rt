//! What the definition of a line comes to. The function does nothing: its contract is the law.
ghost use Rattle.std.specs.Prelude.{◌≡◌, ℕ};
ghost use Rattle.std.specs.Int.{IsInRange};
ghost use Rattle.sc_papers.specs.declared.amendment.Amendment.{Amendment};
ghost use Rattle.sc_lines.specs.Line.{line_text};
ghost use Rattle.sc_lines.specs.Spelling.{IsInRanges};

use crate::line_no::LineNo;

/// Two lines are spelled alike only where they are of the same number and the same amendment.
pub fn spellings_differ()
    ensures number { (n k : ℕ) (a b : Amendment) → IsInRange 1 LineNo.GREATEST n → IsInRange 1 LineNo.GREATEST k
        → IsInRanges a → IsInRanges b → line_text n a ≡ line_text k b → n ≡ k }
    ensures amendment { (n k : ℕ) (a b : Amendment) → IsInRange 1 LineNo.GREATEST n → IsInRange 1 LineNo.GREATEST k
        → IsInRanges a → IsInRanges b → line_text n a ≡ line_text k b → a ≡ b }
{}
