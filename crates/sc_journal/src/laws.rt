//! What the definitions of a journal come to. Each function does nothing: its contract is the law.
ghost use Rattle.std.specs.Prelude.{◌≡◌, ℕ, ◌≤◌, List, length};
ghost use Rattle.std.specs.List.{All};
ghost use Rattle.sc_papers.specs.declared.amendment.Amendment.{Amendment};
ghost use Rattle.sc_stamps.specs.Verdict.{StampedPapers};
ghost use Rattle.sc_journal.specs.Journal.{after_all, journal_text, AreAccepted, IsFirstFault, IsReplay};
ghost use Rattle.sc_lines.specs.Spelling.{IsInRanges};
ghost use Rattle.sc_journal.specs.declared.fault.JournalFault.{JournalFault};
ghost use Rattle.sc_journal.specs.declared.journal.Tail.{Tail};
ghost use Rattle.sc_journal.specs.declared.journal.Tail.TheVariants.{Whole};

use sc_lines::LineNo;

/// The journal of amendments that papers accept in turn is replayed to the papers after them, order
/// of entry included, and to the stamps after them.
pub fn journal_is_replayed()
    ensures { (before : StampedPapers) (amendments : List Amendment) → All IsInRanges amendments
        → length amendments ≤ LineNo.GREATEST → AreAccepted before amendments
        → IsReplay before (after_all before amendments) (journal_text 1 amendments) Whole }
{}

/// The same papers and the same bytes have one answer: the same papers, stamps and tail, or the same first
/// fault, and never both a replay and a fault.
pub fn replay_has_one_answer()
    ensures papers { (before now other : StampedPapers) (bytes : List ℕ) (tail last : Tail)
        → IsReplay before now bytes tail → IsReplay before other bytes last → now ≡ other }
    ensures tail { (before now other : StampedPapers) (bytes : List ℕ) (tail last : Tail)
        → IsReplay before now bytes tail → IsReplay before other bytes last → tail ≡ last }
    ensures fault { (before : StampedPapers) (bytes : List ℕ) (fault other : JournalFault)
        → IsFirstFault before bytes fault → IsFirstFault before bytes other → fault ≡ other }
    ensures either { (before now : StampedPapers) (bytes : List ℕ) (tail : Tail) (fault : JournalFault)
        → IsReplay before now bytes tail → IsFirstFault before bytes fault → ⊥ }
{}
