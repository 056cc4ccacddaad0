//! What stands after an opening and a journal, if there is one.

ghost use Rattle.std.specs.Prelude.{IfErr, IfOk};
ghost use Rattle.sc_repair.specs.Standing.{IsCertified};
ghost use Rattle.sc_steps.specs.Steps.{papers_held};
ghost use Rattle.sc_runs.specs.Standing.{IsStandingFault, Stands};

use sc_journal::{Tail, replay_papers};
use sc_papers::Seed;
use sc_repair::Clearing;
use sc_steps::{OpeningSlices, RunFault, read_papers};
use std::alloc::Global;

/// Opens the papers that the texts hold, and makes the amendments of a journal in turn. It answers what then stands,
/// and whether bytes follow the journal's last newline, which are left unread. An opening alone stands as after a
/// journal without a line.
pub fn clearing_after(
    alloc: Global,
    seed: &Seed,
    texts: OpeningSlices<'_>,
    journal: &[u8],
) -> Result<(Clearing, Tail), RunFault>
    ensures stands { IfOk result (λ stood.
        Stands (papers_held seed.now texts.entry) journal.now stood.0.standing.papers stood.1) }
    ensures certified { IfOk result (λ stood. IsCertified stood.0.standing) }
    ensures refused { IfErr result (IsStandingFault (papers_held seed.now texts.entry) journal.now) }
{
    let papers = read_papers(alloc, seed, texts)?;
    let (amended, tail) = replay_papers(alloc, papers, journal)?;
    // Who tells a text of what stands asks for no count of proposals, so one settling is enough.
    match amended.settle(alloc) {
        Ok(clearing) => Ok((clearing, tail)),
        Err(_) => Err(RunFault::OutOfMemory),
    }
}
