//! Rounds in which nobody has entered.

ghost use Rattle.std.specs.Prelude.{◌≡◌, ◌≤◌, [], length, IfOk};
ghost use Rattle.sc_engine.specs.RoundView.{AreEmpty, StandNowhere};
ghost use Rattle.sc_engine.specs.Rolls.{rolls_of};

use super::Round;
use super::rolls::empty_rolls;
use crate::rank_table::RankTable;
use sc_papers::{FlatPapers, MOST_STUDENTS, Rejection};
use sc_seats::Roll;
use std::alloc::{AllocError, Global};

impl<R: Roll> Round<R> {
    ghost use Rattle.sc_engine.specs.Fresh.{IsFresh};

    /// A round of these parts, in which nobody has entered.
    fn of_parts(
        papers: &FlatPapers,
        alloc: Global,
        ranks: RankTable,
        rolls: Vec<R>,
        log: Vec<Rejection>,
    ) -> Self
        requires within { length ranks ≤ length papers.now.students }
        requires nobody { StandNowhere ranks }
        requires length { length rolls.items ≡ length papers.now.schools }
        requires empty { AreEmpty papers.now (rolls_of R.keys R.seats rolls.items) (length papers.now.schools) }
        requires log { log.items ≡ [] }
        ensures { IsFresh R.keys R.seats papers.now result }
    {
        // This call tells that the papers are well-formed and within their limits.
        prove!(papers.students_len() <= MOST_STUDENTS);
        Round {
            alloc,
            ranks,
            rolls,
            log,
            proposals: 0,
            spent: false,
        }
    }

    /// A round in which nobody has entered, or the error of a refused growth. It takes memory for each
    /// student and each school; the rolls take theirs by the offers.
    pub fn start(alloc: Global, papers: &FlatPapers) -> Result<Self, AllocError>
        ensures { IfOk result (IsFresh R.keys R.seats papers.now) }
    {
        let ranks = RankTable::with_room(alloc, papers.students_len())?;
        let rolls = empty_rolls(alloc, papers)?;
        Ok(Round::of_parts(papers, alloc, ranks, rolls, Vec::new(alloc)))
    }
}
