ghost use Rattle.std.specs.Prelude.{◌≡◌, [], IfOk};
ghost use Rattle.sc_papers.specs.Log.{matching_of};
ghost use Rattle.sc_papers.specs.Matching.{IsStudentOptimal};
ghost use Rattle.sc_audit.specs.AuditState.{view_of};
ghost use Rattle.sc_audit.specs.AuditView.{Follows};
ghost use Rattle.sc_audit.specs.Verdict.{IsVerdict};
ghost use Rattle.sc_audit.specs.declared.verdict.Verdict.TheVariants.{Certified};
ghost use Rattle.sc_tallies.specs.Places.{ArePlaces};

use crate::audit_state::AuditState;
use crate::verdict::Verdict;
use sc_papers::{FlatPapers, Rejection, SchoolNo};
use std::alloc::{AllocError, Global};

/// What an audit finds of a log, and what the log gives each student.
#[derive(Drop)]
pub struct AuditedLog {
    pub verdict: Verdict,
    /// Where the log is certified, the school that each student has by it, if any, in the papers' order of entry; and
    /// else none.
    pub places: Vec<Option<SchoolNo>>,
}

/// Reads a log of rejections by the rules alone, whoever made it: the first entry that is not valid,
/// or else a school that is over its seats at the end, or else that the log is certified. A certified
/// log's matching is the student-optimal stable matching of the papers (Gale and Shapley 1962), so
/// the log is all that somebody who doubts an assignment has to see.
///
/// The only error is want of memory, and says nothing of the log. The cost is an offer, which takes
/// the logarithm of a school's seats, for each student and each entry, and memory is taken in
/// proportion to the students and the schools.
pub fn audit(alloc: Global, papers: &FlatPapers, log: &[Rejection]) -> Result<Verdict, AllocError>
    ensures verdict { IfOk result (IsVerdict papers.now log.now) }
    ensures optimal { IfOk result (λ verdict. verdict ≡ Certified
        → IsStudentOptimal papers.now (matching_of papers.now log.now)) }
{
    let mut state = AuditState::start(alloc, papers)?;
    read(&mut state, papers, log)
}

/// Reads a log as `audit` does, and answers also what a certified one gives each student: whoever has the log needs
/// nobody else to say who has which school.
///
/// The only error is want of memory, and says nothing of the log. The cost is that of `audit`, and a pass over the
/// students.
pub fn audit_and_place(
    alloc: Global,
    papers: &FlatPapers,
    log: &[Rejection],
) -> Result<AuditedLog, AllocError>
    ensures verdict { IfOk result (λ audit. IsVerdict papers.now log.now audit.verdict) }
    ensures places { IfOk result (λ audit. audit.verdict ≡ Certified
        → ArePlaces papers.now (matching_of papers.now log.now) audit.places.items) }
    ensures none { IfOk result (λ audit. (audit.verdict ≡ Certified → ⊥) → audit.places.items ≡ []) }
{
    let mut state = AuditState::start(alloc, papers)?;
    match read(&mut state, papers, log)? {
        Verdict::Certified => Ok(AuditedLog {
            verdict: Verdict::Certified,
            places: state.places(alloc, papers)?,
        }),
        verdict => Ok(AuditedLog {
            verdict,
            places: Vec::new(alloc),
        }),
    }
}

/// Reads a log from the state before the first entry on.
fn read(
    state: &mut AuditState,
    papers: &FlatPapers,
    log: &[Rejection],
) -> Result<Verdict, AllocError>
    requires { Follows papers.now [] (view_of state.old) }
    ensures verdict { IfOk result (IsVerdict papers.now log.now) }
    ensures follows { IfOk result (λ verdict. verdict ≡ Certified → Follows papers.now log.now (view_of state.new)) }
{
    for position in 0..log.len() {
        if !state.take(papers, log[position])? {
            return Ok(Verdict::BadEntry {
                line: position as u64 + 1,
            });
        }
    }
    match state.least_over(papers) {
        Some(school) => Ok(Verdict::Over { school }),
        None => Ok(Verdict::Certified),
    }
}
