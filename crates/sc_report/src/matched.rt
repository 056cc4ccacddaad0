//! Papers, lent, and what the students have.

ghost use Rattle.std.specs.Prelude.{IfOk, length};

use sc_papers::{FlatPapers, SchoolNo};
use sc_tallies::{Tally, tallies};
use std::alloc::{AllocError, Global};

/// Papers, lent, and who has which school under them: what a report tells of.
#[derive(Drop)]
pub struct Matched<'a> {
    pub papers: &'a FlatPapers,
    /// The school that each student has, if any, in the papers' order of entry.
    pub places: Vec<Option<SchoolNo>>,
    /// How many students have each school, and the last key among them, in the papers' order of entry.
    pub tallies: Vec<Tally>,
}

impl<'a> Matched<'a> {
    ghost use Rattle.std.specs.Prelude.{◌≡◌};
    ghost use Rattle.sc_papers.specs.Matching.{Matching};
    ghost use Rattle.sc_tallies.specs.Places.{ArePlaces};
    ghost use Rattle.sc_tallies.specs.Tally.{AreTallies, IsForEachSchool};

    /// The same with the tallies counted, given the school that each student has, in the papers' order of entry. The only
    /// error is want of memory. The cost is one pass over the students.
    pub fn counted(
        alloc: Global,
        papers: &'a FlatPapers,
        places: Vec<Option<SchoolNo>>,
    ) -> Result<Matched<'a>, AllocError>
        requires { length places.items ≡ length papers.now.students }
        ensures papers { IfOk result (λ matched. matched.papers.now ≡ papers.now) }
        ensures places { IfOk result (λ matched. matched.places.items ≡ places.items) }
        ensures tallies { IfOk result (λ matched. (a : Matching) → ArePlaces papers.now a places.items
            → AreTallies papers.now a matched.tallies.items) }
        ensures schools { IfOk result (λ matched. IsForEachSchool papers.now matched.tallies.items) }
    {
        let tallies = tallies(alloc, papers, places.as_slice())?;
        Ok(Matched {
            papers,
            places,
            tallies,
        })
    }
}
