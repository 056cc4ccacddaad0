//! The laws of what is told of a standing assignment. Each function does nothing: its contract is the law.
ghost use Rattle.std.specs.Prelude.{◌≡◌, ◌↔◌, ℕ, Contains, Some, codes, slice_get};
ghost use Rattle.sc_papers.specs.Key.{key_of};
ghost use Rattle.sc_papers.specs.Market.{Market, choices_of};
ghost use Rattle.sc_papers.specs.Matching.{IsMatching, Matching, Prefers, StandsBefore};
ghost use Rattle.sc_papers.specs.WellFormed.{WellFormed};
ghost use Rattle.sc_papers.specs.declared.key.Key.{Key};
ghost use Rattle.sc_reasons.specs.Reason.{reason};
ghost use Rattle.sc_seats.specs.Roll.{IsAscending};
ghost use Rattle.sc_notices.specs.Admissions.{class_list, waiting_list};
ghost use Rattle.sc_notices.specs.Changes.{changed, place_in};
ghost use Rattle.sc_notices.specs.ChangesText.{changes_text};
ghost use Rattle.sc_notices.specs.Explanation.{outcome};
ghost use Rattle.sc_notices.specs.declared.outcome.Outcome.TheVariants.{Given, Later, Refused};

/// What is told of a choice is so: it is `given` exactly where the matching gives the student that school; a choice that
/// the student prefers to what they have has the reason that the report tells of it; and a choice after the one that they
/// have is `later`.
pub fn outcomes_are_so()
    ensures given { (m : Market) (a : Matching) (i rank s : ℕ) → ((outcome m a i rank s ≡ Given) ↔ (a i ≡ Some s)) }
    ensures refused { (m : Market) (a : Matching) → WellFormed m → (i rank s : ℕ)
        → slice_get (choices_of m i) rank ≡ Some s → Prefers m i s (a i)
        → outcome m a i rank s ≡ Refused (reason m a i s) }
    ensures later { (m : Market) (a : Matching) → WellFormed m → (i rank s t : ℕ)
        → slice_get (choices_of m i) rank ≡ Some s → a i ≡ Some t → StandsBefore (choices_of m i) t s
        → outcome m a i rank s ≡ Later }
{}

/// The lists of a school are so. Its class list holds the keys of exactly those who have it, and its waiting list those of
/// exactly the students who prefer it to what they have; there is nothing else in either; and each key is ahead of every
/// later one, so that nobody stands twice.
pub fn admissions_are_so()
    ensures admitted { (m : Market) (a : Matching) → WellFormed m → IsMatching m a → (i s : ℕ)
        → (Contains (class_list m a s) (key_of m i s) ↔ (a i ≡ Some s)) }
    ensures waiting { (m : Market) (a : Matching) → WellFormed m → IsMatching m a → (i s : ℕ)
        → (Contains (waiting_list m a s) (key_of m i s) ↔ Prefers m i s (a i)) }
    ensures admitted_keys { (m : Market) (a : Matching) (s : ℕ) (key : Key) → Contains (class_list m a s) key
        → key ≡ key_of m key.student s }
    ensures waiting_keys { (m : Market) (a : Matching) (s : ℕ) (key : Key) → Contains (waiting_list m a s) key
        → key ≡ key_of m key.student s }
    ensures admitted_ascend { (m : Market) (a : Matching) → WellFormed m → (s : ℕ) → IsAscending (class_list m a s) }
    ensures waiting_ascend { (m : Market) (a : Matching) → WellFormed m → (s : ℕ) → IsAscending (waiting_list m a s) }
{}

/// What is told of two times is so: a student is told of exactly where their place at the one differs from that at the
/// other, and where the papers are the same and the matchings agree, nobody is.
pub fn changes_are_so()
    ensures told { (m : Market) (a : Matching) (n : Market) (b : Matching) (i : ℕ)
        → (Contains (changed m a n b) i ↔ (place_in m a i ≡ place_in n b i → ⊥)) }
    ensures unchanged { (m : Market) (a b : Matching) → ((i : ℕ) → a i ≡ b i)
        → changes_text m a m b ≡ codes "student,before,after\n" }
{}
