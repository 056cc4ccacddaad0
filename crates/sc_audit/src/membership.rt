//! Whether an assignment is a matching of the papers.
ghost use Rattle.std.specs.Prelude.{◌≡◌, ◌==◌};
ghost use Rattle.std.specs.Bool.{OnTrue, OnFalse};
ghost use Rattle.std.specs.List.{list_any};
ghost use Rattle.sc_papers.specs.Assignment.{assigned};
ghost use Rattle.sc_papers.specs.Market.{choices_of};
ghost use Rattle.sc_papers.specs.Matching.{IsMatching};

use sc_papers::{Assignment, FlatPapers, SchoolNo, StudentNo};

/// Whether the student is in the papers and lists the school.
fn lists(papers: &FlatPapers, student: StudentNo, school: SchoolNo) -> bool
    ensures { result ≡ list_any (λ t. t == school) (choices_of papers.now student) }
{
    match papers.student_position(student) {
        Some(position) => papers.choice_rank_at(position, school).is_some(),
        None => false,
    }
}

/// Whether every student who has a school is in the papers and lists it.
pub(crate) fn is_matching(papers: &FlatPapers, assignment: &Assignment) -> bool
    ensures matching { OnTrue result (IsMatching papers.now (assigned assignment.now)) }
    ensures fault { OnFalse result (¬ IsMatching papers.now (assigned assignment.now)) }
{
    for position in 0..assignment.len() {
        let Some(pair) = assignment.at(position) else {
            unreachable!()
        };
        if !lists(papers, pair.0, pair.1) {
            return false;
        }
    }
    true
}
