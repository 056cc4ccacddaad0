//! From where on an amendment may change anything.

ghost use Rattle.std.specs.Prelude.{◌≡◌, ◌≤◌, ◌<◌, ℕ, List, None, Some, true, false, length, slice_index, slice_index_or, take, Contains, IfErr, IfOk, IsTrue, OnOk};
ghost use Rattle.sc_papers.specs.Market.{students_of};
ghost use Rattle.sc_papers.specs.Restriction.{cut, IsSegmented};
ghost use Rattle.sc_papers.specs.Verdict.{after, verdict};
ghost use Rattle.sc_papers.specs.declared.rejection.Rejection.{Rejection};
ghost use Rattle.sc_region.specs.Telling.{MarkRegion};
ghost use Rattle.sc_repair.specs.Rewinding.{first_to_list, lists, position_of, rewind_point};

use sc_papers::{Amendment, FlatPapers, Refusal, SchoolNo, StudentNo};
use sc_region::RegionPositions;
use sc_stamps::{Record, record_of};

/// The position of the first student who lists the school, or the number of students where none
/// does.
fn first_to_list(papers: &FlatPapers, school: SchoolNo) -> usize
    ensures { result ≡ first_to_list papers.now school }
{
    for position in 0..papers.students_len() {
        if papers.choice_rank_at(position, school).is_some() {
            return position;
        }
    }
    papers.students_len()
}

/// The position of the first student who lists the school, where whoever lists it is marked; the number of students
/// where none does.
fn first_marked(papers: &FlatPapers, school: SchoolNo, region: &RegionPositions) -> usize
    requires one_each { length region.now ≡ length papers.now.students }
    requires marked { (p : ℕ) → p < length papers.now.students
        → lists papers.now school (slice_index (students_of papers.now) p) ≡ true
        → IsTrue (slice_index_or region.now p false) }
    ensures { result ≡ first_to_list papers.now school }
{
    let positions = region.positions();
    for position in positions {
        if papers.choice_rank_at(*position, school).is_some() {
            return *position;
        }
    }
    papers.students_len()
}

/// The position of the student, or the number of students for one who is not in the papers.
#[tactic(auto, using(crate::proofs::Positions::position_or_length))]
fn position_of(papers: &FlatPapers, student: StudentNo) -> usize
    ensures { result ≡ position_of papers.now student }
{
    papers
        .student_position(student)
        .unwrap_or(papers.students_len())
}

/// The position from which on an amendment may change anything. Who enters will stand last.
fn first_changed(papers: &FlatPapers, amendment: &Amendment) -> usize
    ensures { result ≡ rewind_point papers.now amendment.now }
{
    match amendment {
        Amendment::Enter { .. } => papers.students_len(),
        Amendment::Withdraw { student }
        | Amendment::Rerank { student, .. }
        | Amendment::Correct { student, .. } => position_of(papers, *student),
        Amendment::Add { school, .. } | Amendment::Close { school, .. } => {
            first_to_list(papers, *school)
        }
    }
}

/// The position in the order of entry, from 0, from which on the amendment may change anything, so
/// that the log of the students before it still stands: for an `Enter` the number of students; for
/// a `Withdraw`, a `Rerank` or a `Correct` the position of that student; for an `Add` or a `Close`
/// the position of the first student who lists the school, or the number of students where none
/// does. An amendment that the papers don't allow is refused as by `FlatPapers::check`.
///
/// It takes no memory. Beside the cost of `FlatPapers::check` it takes constant time, and for an `Add` or
/// a `Close` one pass over the choices of the students up to that position, with a look-up of the school for
/// each of them.
#[tactic(auto, using(crate::proofs::Rewinding::rewind_within, crate::proofs::Rewinding::segments_after))]
pub fn rewind_point(papers: &FlatPapers, amendment: &Amendment) -> Result<usize, Refusal>
    ensures point { IfOk result (λ k. k ≡ rewind_point papers.now amendment.now) }
    ensures within { IfOk result (λ k. k ≤ length papers.now.students) }
    ensures allowed { OnOk result (verdict papers.now amendment.now ≡ None) }
    ensures refused { IfErr result (λ refusal. verdict papers.now amendment.now ≡ Some refusal) }
    ensures kept { IfOk result (λ k. (segments : List (List Rejection)) → IsSegmented papers.now segments
        → IsSegmented (cut (after papers.now amendment.now) k) (take k segments)) }
{
    papers.check(amendment)?;
    Ok(first_changed(papers, amendment))
}

/// What `rewind_point` answers of an amendment that is not refused, where its region is marked.
///
/// It takes no memory. It takes constant time, and for an `Add` or a `Close` a look at the choices of the region's students up
/// to that position, with a look-up of the school for each of them.
pub(crate) fn point_in(
    papers: &FlatPapers,
    region: &RegionPositions,
    amendment: &Amendment,
) -> usize
    requires { MarkRegion papers.now amendment.now region.now }
    ensures { result ≡ rewind_point papers.now amendment.now }
{
    if let Record::OfSchool(school) = record_of(amendment) {
        return first_marked(papers, school, region);
    }
    first_changed(papers, amendment)
}
