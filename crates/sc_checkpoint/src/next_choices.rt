//! Which choices have rejected the first students of the papers, by a log.

ghost use Rattle.std.specs.Prelude.{◌≡◌, ◌≤◌, ◌∷◌, [], length, IfOk};
ghost use Rattle.sc_papers.specs.Market.{students_of};
ghost use Rattle.sc_checkpoint.specs.Ranks.{AreTabled, MarksEntries};

use crate::rank_set::RankSet;
use sc_papers::{FlatPapers, MOST_STUDENTS, Rejection};
use std::alloc::{AllocError, Global};

/// Puts the entry's school among the ranks of the entry's student, where the table has a set for them and they list the
/// school.
fn mark(papers: &FlatPapers, table: &mut Vec<RankSet>, entry: Rejection)
    ensures tabled { MarksEntries papers.now (students_of papers.now) (entry ∷ []) table.old.items table.new.items }
    ensures same_length { length table.new.items ≡ length table.old.items }
{
    // This call tells that the papers are well-formed and within their limits: no number and no choice stands
    // twice, and a set has room for each rank.
    prove!(papers.students_len() <= MOST_STUDENTS);
    let Some(position) = papers.student_position(entry.student) else {
        return;
    };
    if position >= table.len() {
        return;
    }
    let Some(rank) = papers.choice_rank_at(position, entry.school) else {
        return;
    };
    table[position] = table[position].with(rank);
}

/// For each of so many first students of the papers, the ranks of the choices that rejected them, by a log.
pub(crate) fn rejected_ranks(
    alloc: Global,
    papers: &FlatPapers,
    log: &[Rejection],
    count: usize,
) -> Result<Vec<RankSet>, AllocError>
    ensures count { IfOk result (λ table. length table.items ≡ count) }
    ensures tabled { IfOk result (λ table. AreTabled papers.now (students_of papers.now) log.now table.items) }
{
    let mut table = vec![in alloc; RankSet::new(); count]?;
    for entry in log {
        mark(papers, &mut table, *entry);
    }
    Ok(table)
}
