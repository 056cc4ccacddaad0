//! The ledgers of a log in segments.

ghost use Rattle.std.specs.Prelude.{◌≡◌, ◌<◌, [], All, IfOk, length};
ghost use Rattle.sc_papers.specs.Restriction.{IsSegmented};
ghost use Rattle.sc_checkpoint.specs.Chains.{logs_in};
ghost use Rattle.sc_ledgers.specs.Cohort.{cohort};
ghost use Rattle.sc_ledgers.specs.Course.{labels_of};
ghost use Rattle.sc_ledgers.specs.Ends.{AreEnds};
ghost use Rattle.sc_ledgers.specs.Opening.{everybody, AreLedgersOf};
ghost use Rattle.sc_ledgers.specs.Whole.{AreWhole};
ghost use Rattle.sc_ledgers.specs.declared.ledger.TheConstants.{NEVER};

use crate::ends::Ends;
use crate::ledger::Ledger;
use crate::noting::{Labels, note_all};
use sc_checkpoint::Segments;
use sc_papers::{FlatPapers, MOST_STUDENTS};
use std::alloc::{AllocError, Global};

/// What is kept of a run beside its log: the ledger of each school, by position, and where each turn ended.
#[derive(Drop)]
pub struct Ledgers {
    pub schools: Vec<Ledger>,
    pub ends: Ends,
}

/// So many lists without labels.
fn empty_lists(alloc: Global, count: usize) -> Result<Vec<Labels>, AllocError>
    ensures count { IfOk result (λ lists. length lists.items ≡ count) }
    ensures empty { IfOk result (λ lists. All (λ labels. labels ≡ []) lists.items) }
{
    let mut lists = Vec::with_capacity(alloc, count)?;
    for _ in 0..count {
        lists.push(Labels::new(alloc))?;
    }
    Ok(lists)
}

/// A ledger for each list, whose memory is given back. The cost is a sort of each list.
fn ledgers_of(alloc: Global, mut lists: Vec<Labels>) -> Result<Vec<Ledger>, AllocError>
    requires turns { All (All (λ label. label.turn < NEVER)) lists.items }
    ensures { IfOk result (λ ledgers. AreLedgersOf lists.items ledgers.items) }
{
    let mut ledgers = Vec::with_capacity(alloc, lists.len())?;
    for position in 0..lists.len() {
        ledgers.push(lists[position].take_ledger(alloc)?)?;
    }
    Ok(ledgers)
}

/// The ledgers of papers, one for each school, by the segments of their log: whoever came to stand at a school has a label there. With
/// them comes where each turn ended. The only error is a refused growth. The cost is a look at each student's first choice and at each
/// rejection, and a sort of each school's labels.
pub fn open_ledgers(
    alloc: Global,
    papers: &FlatPapers,
    segments: &Segments,
) -> Result<Ledgers, AllocError>
    requires run { IsSegmented papers.now (logs_in segments.now) }
    ensures one_each { IfOk result (λ ledgers. length ledgers.schools.items ≡ length papers.now.schools) }
    ensures whole { IfOk result (λ ledgers. AreWhole (cohort papers.now everybody) (logs_in segments.now)
        (labels_of papers.now ledgers.schools.items)) }
    ensures ends { IfOk result (λ ledgers. AreEnds papers.now (logs_in segments.now) ledgers.ends) }
{
    // This call tells that the papers are well-formed.
    prove!(papers.students_len() <= MOST_STUDENTS);
    let mut lists = empty_lists(alloc, papers.schools_len())?;
    let mut ends = Ends::with_room(alloc, segments.len())?;
    note_all(papers, &mut lists, &mut ends, segments)?;
    let schools = ledgers_of(alloc, lists)?;
    Ok(Ledgers { schools, ends })
}
