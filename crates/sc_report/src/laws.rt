//! The laws of the texts: the order of entry decides nothing about them, and what the cutoffs and the
//! reasons say of a stable matching is so. Each function does nothing: its contract is the law.
ghost use Rattle.std.specs.Prelude.{◌≡◌, ◌↔◌, ℕ, true, false, Some};
ghost use Rattle.sc_papers.specs.Key.{key_of};
ghost use Rattle.sc_papers.specs.Market.{Market};
ghost use Rattle.sc_papers.specs.Matching.{IsMatching, Matching, IsStable, IsStudentOptimal, Prefers, WithinSeats};
ghost use Rattle.sc_papers.specs.Reordering.{IsReordering};
ghost use Rattle.sc_papers.specs.WellFormed.{WellFormed};
ghost use Rattle.sc_reasons.specs.Cutoff.{cutoff};
ghost use Rattle.sc_reasons.specs.Reason.{reason, rows_for, Applies};
ghost use Rattle.sc_reasons.specs.declared.reason.Reason.{Reason};
ghost use Rattle.sc_report.specs.Admission.{first_admitting, is_admitted};
ghost use Rattle.sc_report.specs.CutoffText.{cutoff_text};
ghost use Rattle.sc_report.specs.ReasonText.{reason_text};
ghost use Rattle.sc_report.specs.Text.{assignment_text, report_text};

/// The order of entry decides nothing about what people read: papers with the same schools and
/// students, up to their order, have the same texts, part by part and whole, for matchings that give
/// every student the same, as student-optimal ones do.
pub fn order_of_entry_decides_no_text()
    ensures assignment { (m n : Market) (a b : Matching) → WellFormed m → IsReordering m n → ((i : ℕ) → a i ≡ b i)
        → assignment_text m a ≡ assignment_text n b }
    ensures cutoffs { (m n : Market) (a b : Matching) → WellFormed m → IsReordering m n → ((i : ℕ) → a i ≡ b i)
        → cutoff_text m a ≡ cutoff_text n b }
    ensures reasons { (m n : Market) (a b : Matching) → WellFormed m → IsReordering m n → ((i : ℕ) → a i ≡ b i)
        → reason_text m a ≡ reason_text n b }
    ensures report { (m n : Market) (a b : Matching) → WellFormed m → IsReordering m n → ((i : ℕ) → a i ≡ b i)
        → report_text m a ≡ report_text n b }
    ensures optimal { (m n : Market) (a b : Matching) → WellFormed m → IsReordering m n → IsStudentOptimal m a
        → IsStudentOptimal n b → report_text m a ≡ report_text n b }
{}

/// A reason's row stands, once, for each student and school where the student prefers the school to what
/// it has, and for no others.
pub fn each_place_not_given_has_one_row()
    ensures preferred { (m : Market) (a : Matching) → WellFormed m → IsMatching m a → (i s : ℕ) → Prefers m i s (a i)
        → rows_for m a i s ≡ 1 }
    ensures others { (m : Market) (a : Matching) → WellFormed m → IsMatching m a → (i s : ℕ) → (Prefers m i s (a i) → ⊥)
        → rows_for m a i s ≡ 0 }
{}

/// In a stable matching the reason of each choice that a student prefers to what they have is true of
/// the school's cutoff and the student's key: no case is left over.
pub fn reason_applies()
    ensures { (m : Market) (a : Matching) → WellFormed m → IsStable m a → (i s : ℕ) → Prefers m i s (a i)
        → Applies (cutoff m a s) (key_of m i s) (reason m a i s) }
{}

/// What a student has in a stable matching can be read from the cutoffs alone: the first of their choices
/// that admits them, or none where no choice does. The school that they have admits them, and each choice that
/// they prefer does not, for one reason.
pub fn first_choice_that_admits()
    ensures first { (m : Market) (a : Matching) → WellFormed m → IsStable m a → (i : ℕ) → a i ≡ first_admitting m a i }
    ensures has { (m : Market) (a : Matching) → WellFormed m → IsStable m a → (i s : ℕ) → a i ≡ Some s
        → is_admitted m a i s ≡ true }
    ensures preferred { (m : Market) (a : Matching) → WellFormed m → IsStable m a → (i s : ℕ) → Prefers m i s (a i)
        → is_admitted m a i s ≡ false }
    ensures one_reason { (m : Market) (a : Matching) → WellFormed m → IsStable m a → (i s : ℕ) → Prefers m i s (a i)
        → (r : Reason) → (Applies (cutoff m a s) (key_of m i s) r ↔ (r ≡ reason m a i s)) }
{}

/// Cutoffs certify stability: a matching within seats is stable exactly where each student has the first
/// of their choices that admits them by the cutoffs of that matching.
pub fn cutoffs_certify_stability()
    ensures { (m : Market) (a : Matching) → WellFormed m
        → (IsStable m a ↔ (WithinSeats m a × ((i : ℕ) → a i ≡ first_admitting m a i))) }
{}
