//! Who blocks an assignment.
ghost use Rattle.std.specs.Prelude.{◌≡◌, ◌==◌, ℕ, ◌<◌, true, false, length, IfSome, IfNone};
ghost use Rattle.std.specs.Option.{option_map_or};
ghost use Rattle.sc_papers.specs.Assignment.{assigned};
ghost use Rattle.sc_papers.specs.Market.{is_school, student_at};
ghost use Rattle.sc_papers.specs.Matching.{IsMatching, Blocks};
ghost use Rattle.sc_papers.specs.WellFormed.{WellFormed};
ghost use Rattle.sc_audit.specs.Stability.{IsEarliestBlock, IsFirstBlock};
ghost use Rattle.sc_tallies.specs.Tally.{AreTallies};
ghost use Rattle.sc_audit.specs.Tallies.{earlier_of};

use crate::tallies::would_take;
use sc_papers::{Assignment, FlatPapers, LONGEST_LIST, SchoolNo, StudentNo};
use sc_tallies::Tally;

/// Whether what is given is this school.
fn is_given(given: &Option<SchoolNo>, school: SchoolNo) -> bool
    ensures { result ≡ option_map_or (λ t. t == school) given.now false }
{
    *given == Some(school)
}

/// The first of the choices that the student at the position prefers to what they have at which they would
/// be taken.
fn earliest_block(
    tallies: &[Tally],
    papers: &FlatPapers,
    assignment: &Assignment,
    position: usize,
) -> Option<SchoolNo>
    requires within { position < length papers.now.students }
    requires matching { IsMatching papers.now (assigned assignment.now) }
    requires tallies { AreTallies papers.now (assigned assignment.now) tallies.now }
    ensures block { IfSome result (IsEarliestBlock papers.now (assigned assignment.now)
        (student_at papers.now position)) }
    ensures none { IfNone result ((s : ℕ) → ¬ Blocks papers.now (assigned assignment.now)
        (student_at papers.now position) s) }
{
    // This call tells that the papers are well-formed and within their limits, and so are their lists.
    prove!(position < papers.students_len());
    let Some(student) = papers.student_at(position) else {
        unreachable!()
    };
    let given = assignment.get(student);
    for rank in 0..LONGEST_LIST {
        let Some(school) = papers.choice_at(position, rank) else {
            return None;
        };
        if is_given(&given, school) {
            return None;
        }
        if would_take(tallies, papers, position, school) {
            return Some(school);
        }
    }
    None
}

/// The block of the student, if they have one and their number is the least so far, and else the first so
/// far.
fn earlier(
    first: Option<(StudentNo, SchoolNo)>,
    student: StudentNo,
    block: Option<SchoolNo>,
) -> Option<(StudentNo, SchoolNo)>
    ensures { result ≡ earlier_of first student block }
{
    let Some(school) = block else {
        return first;
    };
    let Some((other, there)) = first else {
        return Some((student, school));
    };
    if student < other {
        Some((student, school))
    } else {
        Some((other, there))
    }
}

/// The student of the least number who blocks, and their earliest choice at which they do.
pub(crate) fn first_block(
    tallies: &[Tally],
    papers: &FlatPapers,
    assignment: &Assignment,
) -> Option<(StudentNo, SchoolNo)>
    requires matching { IsMatching papers.now (assigned assignment.now) }
    requires tallies { AreTallies papers.now (assigned assignment.now) tallies.now }
    ensures block { IfSome result (λ block. IsFirstBlock papers.now (assigned assignment.now) block.0 block.1) }
    ensures none { IfNone result ((i s : ℕ) → ¬ Blocks papers.now (assigned assignment.now) i s) }
{
    let mut first = None;
    for position in 0..papers.students_len() {
        let Some(student) = papers.student_at(position) else {
            unreachable!()
        };
        let block = earliest_block(tallies, papers, assignment, position);
        first = earlier(first, student, block);
    }
    first
}
