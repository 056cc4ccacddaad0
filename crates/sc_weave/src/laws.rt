//! The laws of woven segments. Each function does nothing: its contract is the law.
ghost use Rattle.std.specs.Prelude.{◌≡◌, ℕ, Bool, List, [], length, filter, slice_get, Some, true, false};
ghost use Rattle.sc_papers.specs.Market.{Market, students_of};
ghost use Rattle.sc_papers.specs.Restriction.{restricted, entries_of, outside, AreApart, AlikeOutside, IsSegmented};
ghost use Rattle.sc_papers.specs.WellFormed.{WellFormed};
ghost use Rattle.sc_papers.specs.declared.rejection.Rejection.{Rejection};
ghost use Rattle.sc_weave.specs.Weaving.{part_of, woven};

/// A chain stays among those apart: the segment of a student who passes has no entry of one who doesn't,
/// and the other way round.
pub fn chain_stays_on_its_side()
    ensures passes { (m : Market) (test : ℕ → Bool) (segments : List (List Rejection)) (k i : ℕ)
        (segment : List Rejection) → WellFormed m → AreApart m test → IsSegmented m segments
        → slice_get (students_of m) k ≡ Some i → slice_get segments k ≡ Some segment → test i ≡ true
        → entries_of test segment ≡ segment }
    ensures fails { (m : Market) (test : ℕ → Bool) (segments : List (List Rejection)) (k i : ℕ)
        (segment : List Rejection) → WellFormed m → AreApart m test → IsSegmented m segments
        → slice_get (students_of m) k ≡ Some i → slice_get segments k ≡ Some segment → test i ≡ false
        → entries_of test segment ≡ [] }
{}

/// The segments of the students who pass are segmented for the papers restricted to them, where no
/// student who passes lists a school that another student lists.
pub fn part_of_segments_is_segmented()
    ensures { (m : Market) (test : ℕ → Bool) (segments : List (List Rejection)) → WellFormed m → AreApart m test
        → IsSegmented m segments → IsSegmented (restricted m test) (part_of (students_of m) test segments) }
{}

/// Segments that are segmented for a set and for the rest, woven in order of entry, are segmented for the
/// whole papers, where no student of the set lists a school that a student outside it lists.
pub fn woven_segments_are_segmented()
    ensures { (m : Market) (test : ℕ → Bool) (inside rest : List (List Rejection)) → WellFormed m → AreApart m test
        → IsSegmented (restricted m test) inside → IsSegmented (restricted m (outside test)) rest
        → IsSegmented m (woven (students_of m) test inside rest) }
{}

/// To weave the two parts of segments gives them back, and the parts of woven segments are what was woven.
pub fn weaving_and_parting_undo_each_other()
    ensures whole { (test : ℕ → Bool) (students : List ℕ) (segments : List (List Rejection))
        → length segments ≡ length students → woven students test (part_of students test segments)
        (part_of students (outside test) segments) ≡ segments }
    ensures inside { (test : ℕ → Bool) (students : List ℕ) (inside rest : List (List Rejection))
        → length inside ≡ length (filter test students)
        → part_of students test (woven students test inside rest) ≡ inside }
    ensures rest { (test : ℕ → Bool) (students : List ℕ) (inside rest : List (List Rejection))
        → length rest ≡ length (filter (outside test) students)
        → part_of students (outside test) (woven students test inside rest) ≡ rest }
{}

/// Where papers change only within a set, segments of the rest stay segments of the rest.
pub fn segments_outside_a_change_stay()
    ensures { (m n : Market) (test : ℕ → Bool) (rest : List (List Rejection)) → WellFormed m → AlikeOutside test m n
        → IsSegmented (restricted m (outside test)) rest → IsSegmented (restricted n (outside test)) rest }
{}

/// An amendment in its region: where papers change only within a set that lies apart before and after, the old
/// segments of those outside, woven with any segments of the new papers restricted to the set, are
/// segments of the new papers. So nobody outside is settled anew.
pub fn amendment_changes_the_segments_of_its_region()
    ensures { (m n : Market) (test : ℕ → Bool) (segments inside : List (List Rejection)) → WellFormed m → WellFormed n
        → AreApart m test → AreApart n test → AlikeOutside test m n → IsSegmented m segments
        → IsSegmented (restricted n test) inside
        → IsSegmented n (woven (students_of n) test inside (part_of (students_of m) (outside test) segments)) }
{}
