//! From the texts of an opening to its papers.

ghost use Rattle.std.specs.Prelude.{◌≡◌, MatchResult, Ok};
ghost use Rattle.sc_steps.specs.Opening.{opening_in};
ghost use Rattle.sc_steps.specs.Steps.{papers_held, texts_of, IsOpeningFault};

use crate::fault::RunFault;
use crate::inputs::{OpeningSlices, OpeningTexts};
use sc_intake::read_flat_papers;
use sc_papers::{FlatPapers, Papers, Seed};
use std::alloc::Global;

/// Answers the papers that the texts hold, without a record of each student. An error is the first fault of the texts, or
/// want of memory. The cost is that of `read_flat_papers` of `sc_intake`.
pub fn read_flat(
    alloc: Global,
    seed: &Seed,
    texts: OpeningSlices<'_>,
) -> Result<FlatPapers, RunFault>
    ensures { MatchResult result
        (λ papers. papers_held seed.now texts.entry ≡ Ok papers)
        (IsOpeningFault (papers_held seed.now texts.entry)) }
{
    let papers = read_flat_papers(alloc, *seed, texts.schools, texts.roster, texts.lists)?;
    Ok(papers)
}

/// Answers the papers that the texts hold, with a record of each student. An error is the first fault of the texts, or want
/// of memory. The texts are kept while the records are made: who owns them calls `read_kept`.
pub fn read_papers(alloc: Global, seed: &Seed, texts: OpeningSlices<'_>) -> Result<Papers, RunFault>
    ensures { MatchResult result
        (λ papers. papers_held seed.now texts.entry ≡ Ok papers)
        (IsOpeningFault (papers_held seed.now texts.entry)) }
{
    let papers = sc_intake::read_papers(alloc, *seed, texts.schools, texts.roster, texts.lists)?;
    Ok(papers)
}

/// Answers the papers that the texts hold, without a record of each student. An error is the first fault of the texts, or
/// want of memory. The texts are given up once the papers are read, so that their memory serves the settling.
pub fn read_owned(alloc: Global, seed: &Seed, texts: OpeningTexts) -> Result<FlatPapers, RunFault>
    ensures { MatchResult result
        (λ papers. opening_in seed.now (texts_of texts) ≡ Ok papers)
        (IsOpeningFault (opening_in seed.now (texts_of texts))) }
{
    read_flat(alloc, seed, texts.as_slices())
}

/// Answers the papers that the texts hold, with a record of each student. An error is the first fault of the texts, or want
/// of memory. The texts are given up before the records are made.
pub fn read_kept(alloc: Global, seed: &Seed, texts: OpeningTexts) -> Result<Papers, RunFault>
    ensures { MatchResult result
        (λ papers. opening_in seed.now (texts_of texts) ≡ Ok papers)
        (IsOpeningFault (opening_in seed.now (texts_of texts))) }
{
    let flat = read_owned(alloc, seed, texts)?;
    match Papers::from_flat(flat) {
        Ok(papers) => Ok(papers),
        Err(_) => Err(RunFault::OutOfMemory),
    }
}
