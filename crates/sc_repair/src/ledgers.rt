//! The ledgers of settled papers, which are opened when they are first wanted.

ghost use Rattle.std.specs.Prelude.{◌≡◌, None, IfOk, IfSome, length, true};
ghost use Rattle.sc_papers.specs.Market.{choices_of, is_student};
ghost use Rattle.sc_papers.specs.Restriction.{IsSegmented};
ghost use Rattle.sc_checkpoint.specs.Chains.{logs_in};
ghost use Rattle.sc_repair.specs.Anew.{choices_before, place_in, student_in, AreLedgersOf, IsStruck};

use sc_checkpoint::Segments;
use sc_ledgers::{Ledger, Ledgers, open_ledgers, strike_student};
use sc_papers::{Amendment, FlatPapers, Papers, SchoolNo, StudentNo};
use sc_stamps::Record;
use std::alloc::{AllocError, Global};

/// The ledgers that are kept, if there are some, and else those of the log, opened. They are taken: where what follows is refused, there
/// are none, and they are opened again when they are wanted.
pub(crate) fn taken(
    alloc: Global,
    ledgers: &mut Option<Ledgers>,
    papers: &FlatPapers,
    segments: &Segments,
) -> Result<Ledgers, AllocError>
    requires run { IsSegmented papers.now (logs_in segments.now) }
    requires kept { IfSome ledgers.old (λ kept. AreLedgersOf papers.now (logs_in segments.now) kept) }
    ensures taken { IfOk result (λ taken. AreLedgersOf papers.now (logs_in segments.now) taken) }
    ensures none { ledgers.new ≡ None }
{
    match ledgers.take() {
        Some(kept) => Ok(kept),
        None => open_ledgers(alloc, papers, segments),
    }
}

/// The student whom an amendment amends, if it amends one.
pub(crate) fn student_in(amended: &Record) -> Option<StudentNo>
    ensures { result ≡ student_in amended.now }
{
    match amended {
        Record::OfStudent(student) => Some(*student),
        Record::OfSchool(_) => None,
    }
}

/// The position of the school whose seats an amendment changes, if it changes some.
pub(crate) fn place_in(papers: &FlatPapers, amended: &Record) -> Option<usize>
    ensures { result ≡ place_in papers.now amended.now }
{
    match amended {
        Record::OfStudent(_) => None,
        Record::OfSchool(school) => papers.school_position(*school),
    }
}

/// Strikes the labels of a student who is about to be amended, if there is one: they have them by the papers as they stand. It takes no
/// memory.
pub(crate) fn strike(papers: &FlatPapers, ledgers: &mut Vec<Ledger>, amended: Option<StudentNo>)
    requires one_each { length ledgers.old.items ≡ length papers.now.schools }
    requires known { IfSome amended (λ i. is_student papers.now i ≡ true) }
    ensures one_each { length ledgers.new.items ≡ length papers.now.schools }
    ensures struck { IsStruck papers.now amended ledgers.old.items ledgers.new.items }
{
    let Some(student) = amended else {
        return;
    };
    let Some(position) = papers.student_position(student) else {
        unreachable!()
    };
    strike_student(papers, ledgers, position);
}

/// The choices of a student by the papers as they stand; none for one who is not in them. Lent.
fn choices_now(papers: &Papers, student: StudentNo) -> &[SchoolNo]
    ensures { result.now ≡ choices_of papers.now student }
{
    match papers.student_position(student) {
        Some(position) => papers.choices_at(position),
        None => &[],
    }
}

/// The choices that a student had before an amendment, by what takes it back and the papers that it led to; none where it amended no
/// student. Lent.
pub(crate) fn choices_before<'a>(
    papers: &'a Papers,
    back: &'a Amendment,
    amended: Option<StudentNo>,
) -> &'a [SchoolNo]
    ensures { result.now ≡ choices_before papers.now back.now amended }
{
    let Some(student) = amended else {
        return &[];
    };
    match back {
        Amendment::Rerank {
            student: reranked,
            choices,
        } if *reranked == student => choices.as_slice(),
        _ => choices_now(papers, student),
    }
}
