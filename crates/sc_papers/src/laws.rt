//! The laws of the mechanism. Each function does nothing: its contract is the law.
ghost use Rattle.std.specs.Prelude.{◌≡◌, ◌↔◌, ℕ, ◌+◌, ◌≤◌, Bool, List, [], ◌∷◌, ◌++◌, length, take, slice_get, Some, None, true, false, All, Contains, flat_map};
ghost use Rattle.std.specs.List.Sorted.{IsPermutation};
ghost use Rattle.std.specs.Option.{option_map};
ghost use Rattle.sc_papers.specs.Chain.{and_one, InChain, PutsOut, Ends, IsChain};
ghost use Rattle.sc_papers.specs.Interleaving.{IsInterleaving, StandsInOrder, after_list, verdicts};
ghost use Rattle.sc_papers.specs.Key.{IsStrictOrder, is_ahead, is_before, key_cmp};
ghost use Rattle.sc_papers.specs.Log.{is_rejected, next_choice, matching_of, IsValidEntry, IsValidLog, IsSettled};
ghost use Rattle.sc_papers.specs.Market.{Market, students_of, choices_of, seats_of, zone_at};
ghost use Rattle.sc_papers.specs.Matching.{IsStudentOptimal, Matching};
ghost use Rattle.sc_papers.specs.Progress.{all_choices, placed};
ghost use Rattle.sc_papers.specs.Reordering.{IsReordering};
ghost use Rattle.sc_papers.specs.Restriction.{restricted, cut, joined, entries_of, outside, AreApart, AlikeUpTo, AlikeOutside, is_among_first, IsSegmented};
ghost use Rattle.sc_papers.specs.Verdict.{after, verdict};
ghost use Rattle.sc_papers.specs.WellFormed.{WellFormed};
ghost use Rattle.sc_papers.specs.declared.amendment.Amendment.{Amendment};
ghost use Rattle.sc_papers.specs.declared.amendment.Refusal.{Refusal};
ghost use Rattle.sc_papers.specs.declared.key.Key.{Key};
ghost use Rattle.sc_papers.specs.declared.rejection.Rejection.{Rejection};
ghost use Rattle.std.specs.declared.cmp.Ordering.TheVariants.{Less, Equal, Greater};

use crate::count::Count;
use crate::limits::{LONGEST_LIST, MOST_SCHOOLS, MOST_STUDENTS};
use crate::school_no::SchoolNo;
use crate::seats::Seats;
use crate::zone::Zone;

/// The limits: 200,000 students, 5,000 schools, 20 schools on a list; school numbers up to 99,999, zones up
/// to 9,999, 10,000 seats of a school, and as many in one amendment. Every other clause cites them by name.
pub fn limits_are_these_numbers()
    ensures students { MOST_STUDENTS ≡ 200000 }
    ensures schools { MOST_SCHOOLS ≡ 5000 }
    ensures list { LONGEST_LIST ≡ 20 }
    ensures school_number { SchoolNo.GREATEST ≡ 99999 }
    ensures zone { Zone.GREATEST ≡ 9999 }
    ensures seats { Seats.GREATEST ≡ 10000 }
    ensures count { Count.GREATEST ≡ 10000 }
{}

/// At each school being ahead is a strict order: nobody is ahead of themselves, whoever is ahead of one
/// who is ahead of a third is ahead of the third, and of two different students one is ahead.
pub fn being_ahead_is_a_strict_order()
    ensures { (m : Market) (s : ℕ) → IsStrictOrder (is_ahead m s) }
{}

/// A comparison of two keys says which of them is ahead, and that they are equal only where they are one.
pub fn comparison_says_who_is_ahead()
    ensures ahead { (a b : Key) → (key_cmp a b ≡ Less ↔ is_before a b ≡ true) }
    ensures equal { (a b : Key) → (key_cmp a b ≡ Equal ↔ a ≡ b) }
    ensures behind { (a b : Key) → (key_cmp a b ≡ Greater ↔ is_before b a ≡ true) }
{}

/// The matching of every settled log is student-optimal, whoever made the log (Gale and Shapley,
/// Theorem 2). So a settled log certifies its matching.
pub fn settled_log_is_student_optimal()
    ensures { (m : Market) (log : List Rejection) → WellFormed m → IsSettled m log
        → IsStudentOptimal m (matching_of m log) }
{}

/// Two student-optimal matchings of the same papers give every student the same.
pub fn student_optimal_matching_is_unique()
    ensures { (m : Market) (a b : Matching) → IsStudentOptimal m a → IsStudentOptimal m b → (i : ℕ) → a i ≡ b i }
{}

/// Well-formed papers have a settled log, and so a student-optimal matching (Gale and Shapley,
/// Theorem 1).
pub fn settled_log_exists()
    ensures log { (m : Market) → WellFormed m → (log : List Rejection) × IsSettled m log }
    ensures matching { (m : Market) → WellFormed m → (a : Matching) × IsStudentOptimal m a }
{}

/// Every settled log of the same papers rejects the same students at the same schools, in some order.
pub fn settled_logs_reject_the_same()
    ensures rejected { (m : Market) (log other : List Rejection) → WellFormed m → IsSettled m log → IsSettled m other
        → (i s : ℕ) → is_rejected log i s ≡ is_rejected other i s }
    ensures length { (m : Market) (log other : List Rejection) → WellFormed m → IsSettled m log → IsSettled m other
        → length log ≡ length other }
{}

/// The entries of a valid log and the students that it places are no more than all choices.
pub fn valid_log_is_bounded()
    ensures { (m : Market) (log : List Rejection) → WellFormed m → IsValidLog m log
        → length log + placed m (matching_of m log) ≤ all_choices m }
{}

/// What follows a valid log depends on the next choices alone: what settles it settles each other valid
/// log that leaves them the same.
pub fn next_choices_decide_what_follows()
    ensures settled { (m : Market) (log other rest : List Rejection) → WellFormed m → IsValidLog m log
        → IsValidLog m other → ((i : ℕ) → next_choice m log i ≡ next_choice m other i) → IsSettled m (log ++ rest)
        → IsSettled m (other ++ rest) }
    ensures next { (m : Market) (log other rest : List Rejection) → WellFormed m → IsValidLog m log → IsValidLog m other
        → ((i : ℕ) → next_choice m log i ≡ next_choice m other i) → (i : ℕ)
        → next_choice m (log ++ rest) i ≡ next_choice m (other ++ rest) i }
{}

/// A valid entry moves its student's next choice on by one place of the list, and no other student's.
pub fn rejection_moves_one_student_on()
    ensures own { (m : Market) (log : List Rejection) (entry : Rejection) (k : ℕ) → WellFormed m → IsValidLog m log
        → IsValidEntry m log entry → slice_get (choices_of m entry.student) k ≡ Some entry.school
        → next_choice m (log ++ entry ∷ []) entry.student ≡ slice_get (choices_of m entry.student) (k + 1) }
    ensures others { (m : Market) (log : List Rejection) (entry : Rejection) (i : ℕ) → (entry.student ≡ i → ⊥)
        → next_choice m (log ++ entry ∷ []) i ≡ next_choice m log i }
{}

/// Papers cut at k are restricted to their first k students.
pub fn cut_is_a_restriction()
    ensures { (m : Market) (k : ℕ) → WellFormed m → cut m k ≡ restricted m (is_among_first m k) }
{}

/// Papers restricted to some of their students, or cut, are well-formed.
pub fn part_of_papers_is_well_formed()
    ensures restricted { (m : Market) (test : ℕ → Bool) → WellFormed m → WellFormed (restricted m test) }
    ensures cut { (m : Market) (k : ℕ) → WellFormed m → WellFormed (cut m k) }
{}

/// Papers that are well-formed stay so after an amendment that is not refused.
pub fn accepted_amendment_keeps_papers_well_formed()
    ensures { (m : Market) (a : Amendment) → WellFormed m → verdict m a ≡ None → WellFormed (after m a) }
{}

/// A student who enters has a chain in hand: a log that is settled for those who entered is in the
/// course of a chain for them and the new student.
pub fn entering_begins_a_chain()
    ensures { (m : Market) (entered : ℕ → Bool) (i : ℕ) (log : List Rejection) → IsSettled (restricted m entered) log
        → InChain (restricted m (and_one entered i)) log i }
{}

/// A proposal to a full school, which puts its last student out, keeps the log valid and every other
/// school within its seats: the log is in the course of the chain of the student put out.
pub fn putting_out_keeps_a_chain()
    ensures { (m : Market) (log : List Rejection) (hand : ℕ) (entry : Rejection) → WellFormed m → InChain m log hand
        → PutsOut m log hand entry.school entry.student → InChain m (log ++ entry ∷ []) entry.student }
{}

/// A proposal to a school with room, or none where no choice is left, settles the log.
pub fn end_of_a_chain_settles()
    ensures { (m : Market) (log : List Rejection) (hand : ℕ) → WellFormed m → InChain m log hand → Ends m log hand
        → IsSettled m log }
{}

/// A log that is settled for those who entered, followed by a whole chain of a new student, is
/// settled for those who entered and the new student.
pub fn whole_chain_settles()
    ensures { (m : Market) (entered : ℕ → Bool) (i : ℕ) (log chain : List Rejection) → WellFormed m
        → IsSettled (restricted m entered) log → IsChain (restricted m (and_one entered i)) log i chain
        → IsSettled (restricted m (and_one entered i)) (log ++ chain) }
{}

/// A segmented log, joined, is settled, and the segments of the first k students with a chain of the
/// next one are segments of the first k + 1.
pub fn segments_follow_one_another()
    ensures joined { (m : Market) (segments : List (List Rejection)) → IsSegmented m segments
        → IsSettled m (joined segments) }
    ensures push { (m : Market) (k i : ℕ) (segments : List (List Rejection)) (chain : List Rejection) → WellFormed m
        → slice_get (students_of m) k ≡ Some i → IsSegmented (cut m k) segments
        → IsChain (cut m (k + 1)) (joined segments) i chain → IsSegmented (cut m (k + 1)) (segments ++ chain ∷ []) }
{}

/// Decomposition: where no student of a set lists a school that a student outside it lists, a log is
/// settled exactly where its entries of the set are settled for the papers restricted to the set, and
/// its other entries for the papers restricted to the rest.
pub fn settled_log_falls_apart()
    ensures { (m : Market) (test : ℕ → Bool) (log : List Rejection) → AreApart m test
        → (IsSettled m log ↔ (IsSettled (restricted m test) (entries_of test log)
        × IsSettled (restricted m (outside test)) (entries_of (outside test) log))) }
{}

/// Papers are alike up to k where only students from position k on have changed, or only the seats of a
/// school that none of the first k students lists.
pub fn late_changes_keep_papers_alike()
    ensures students { (m n : Market) (k : ℕ) → n.seed ≡ m.seed → n.schools ≡ m.schools
        → take k n.students ≡ take k m.students → AlikeUpTo k m n }
    ensures seats { (m n : Market) (k s : ℕ) → n.seed ≡ m.seed → n.students ≡ m.students
        → ((t : ℕ) → zone_at n t ≡ zone_at m t) → ((t : ℕ) → (t ≡ s → ⊥) → seats_of n t ≡ seats_of m t)
        → ((i : ℕ) → Contains (choices_of (cut m k) i) s → ⊥) → AlikeUpTo k m n }
{}

/// Rewinding: a log that is settled for papers cut at k is settled for others cut at k that are alike
/// up to k. So the first k segments of a segmented log, joined, are settled for them.
pub fn rewinding_keeps_a_settled_log()
    ensures log { (m n : Market) (k : ℕ) (log : List Rejection) → AlikeUpTo k m n → IsSettled (cut m k) log
        → IsSettled (cut n k) log }
    ensures segments { (m n : Market) (k : ℕ) (segments : List (List Rejection)) → AlikeUpTo k m n
        → IsSegmented m segments → k ≤ length segments → IsSettled (cut n k) (joined (take k segments)) }
{}

/// The order of entry decides nothing: a matching is student-optimal for papers exactly where it is so
/// for the same schools and students in another order.
pub fn order_of_entry_decides_nothing()
    ensures { (m n : Market) (a : Matching) → WellFormed m → IsReordering m n
        → (IsStudentOptimal m a ↔ IsStudentOptimal n a) }
{}

/// Locality: where no student of a set lists a school that a student outside it lists, before and after a
/// change, and papers change only within the set, every student outside has the same.
pub fn nothing_changes_outside()
    ensures { (m n : Market) (test : ℕ → Bool) (a b : Matching) → WellFormed m → WellFormed n → AreApart m test
        → AreApart n test → AlikeOutside test m n → IsStudentOptimal m a → IsStudentOptimal n b → (i : ℕ)
        → test i ≡ false → a i ≡ b i }
{}

/// The order of entry decides nothing about what anybody has: papers that are equal up to order have
/// student-optimal matchings that give every student the same.
pub fn papers_equal_up_to_order_leave_one_matching()
    ensures { (m n : Market) (a b : Matching) → WellFormed m → IsReordering m n → IsStudentOptimal m a
        → IsStudentOptimal n b → (i : ℕ) → a i ≡ b i }
{}

/// Amendments in turn: each is answered by its verdict in the papers after those before it, an accepted
/// one is made, a refused one changes nothing, and the papers stay well-formed. So it is with every
/// interleaving of several desks' lists.
pub fn amendments_are_answered_in_turn()
    ensures verdicts { (m : Market) (list : List Amendment) (k : ℕ)
        → slice_get (verdicts m list) k ≡ option_map (verdict (after_list m (take k list))) (slice_get list k) }
    ensures accepted { (m : Market) (list : List Amendment) (a : Amendment) → verdict (after_list m list) a ≡ None
        → after_list m (list ++ a ∷ []) ≡ after (after_list m list) a }
    ensures refused { (m : Market) (list : List Amendment) (a : Amendment) (refusal : Refusal)
        → verdict (after_list m list) a ≡ Some refusal → after_list m (list ++ a ∷ []) ≡ after_list m list }
    ensures well_formed { (m : Market) (list : List Amendment) → WellFormed m → WellFormed (after_list m list) }
{}

/// An interleaving of several desks' lists, of amendments with or without stamps or of anything else, has all their
/// members, each once, and each list keeps its order in it.
pub fn interleaving_has_each_member_once_in_order<T>()
    ensures members { (desks : List (List T)) (woven : List T) → IsInterleaving desks woven
        → IsPermutation (flat_map (λ list. list) desks) woven }
    ensures order { (desks : List (List T)) (woven : List T) → IsInterleaving desks woven
        → All (λ list. StandsInOrder list woven) desks }
{}

/// The order of amendments decides nothing either, where it leaves the same papers: two lists of
/// amendments of the same papers, or two interleavings of several desks' lists, after which the papers
/// are equal up to order, leave every student the same.
pub fn amendments_that_leave_the_same_papers_leave_one_matching()
    ensures lists { (m : Market) (first second : List Amendment) (a b : Matching) → WellFormed m
        → IsReordering (after_list m first) (after_list m second) → IsStudentOptimal (after_list m first) a
        → IsStudentOptimal (after_list m second) b → (i : ℕ) → a i ≡ b i }
    ensures interleavings { (m : Market) (desks : List (List Amendment)) (first second : List Amendment)
        (a b : Matching) → WellFormed m → IsInterleaving desks first → IsInterleaving desks second
        → IsReordering (after_list m first) (after_list m second) → IsStudentOptimal (after_list m first) a
        → IsStudentOptimal (after_list m second) b → (i : ℕ) → a i ≡ b i }
{}
