//! Cutoffs: the last key that each school admits.
ghost use Rattle.std.specs.Prelude.{◌≡◌, length, map, IfOk, OnOk};
ghost use Rattle.sc_papers.specs.Market.{Market, schools_of};
ghost use Rattle.sc_papers.specs.Matching.{Matching};
ghost use Rattle.sc_papers.specs.WellFormed.{WellFormed};
ghost use Rattle.sc_reasons.specs.Cutoff.{cutoff_by, cutoff_rows, rows_in_order};
ghost use Rattle.sc_tallies.specs.Places.{ArePlaces};
ghost use Rattle.sc_tallies.specs.Tally.{AreTallies, IsForEachSchool};

use sc_papers::{FlatPapers, Key, SchoolNo, Seats};
use sc_tallies::{Tally, tallies};
use std::alloc::{AllocError, Global};

/// What it takes to have a school.
#[derive(Clone, Copy, Debug, PartialEq, Eq)]
pub enum Cutoff {
    /// The school has no seats.
    Closed,
    /// Fewer students have the school than it has seats.
    Free,
    /// The seats are taken: a student is admitted whose key is not after this one, the last among
    /// those who have the school.
    Full { key: Key },
}

/// A school, its seats, how many students have it, and its cutoff.
#[derive(Clone, Copy, Debug, PartialEq, Eq)]
pub struct CutoffRow {
    pub school: SchoolNo,
    pub seats: Seats,
    pub held: u32,
    pub cutoff: Cutoff,
}

/// The cutoff of a school with these seats, where so many have it and this is the last key of theirs.
fn cutoff_by(seats: u32, held: u32, last: Option<Key>) -> Cutoff
    ensures { result ≡ cutoff_by seats held last }
{
    match last {
        _ if seats == 0 => Cutoff::Closed,
        Some(key) if seats <= held => Cutoff::Full { key },
        _ => Cutoff::Free,
    }
}

/// The rows of all schools, in order of entry, by their tallies. The only error is want of memory. The cost is one pass over
/// the schools.
pub fn rows_by_tallies(
    alloc: Global,
    papers: &FlatPapers,
    counted: &[Tally],
) -> Result<Vec<CutoffRow>, AllocError>
    requires { IsForEachSchool papers.now counted.now }
    ensures rows { IfOk result (λ rows. (a : Matching) → AreTallies papers.now a counted.now
        → rows.items ≡ rows_in_order papers.now a) }
    ensures schools { IfOk result (λ rows. map (λ row. row.school) rows.items ≡ schools_of papers.now) }
{
    let mut rows = Vec::with_capacity(alloc, counted.len())?;
    for position in 0..counted.len() {
        let Some(school) = papers.school_at(position) else {
            unreachable!()
        };
        let tally = counted[position];
        let seats = papers.seats_of(school);
        let cutoff = cutoff_by(seats.get(), tally.held, tally.last);
        rows.push(CutoffRow {
            school,
            seats,
            held: tally.held,
            cutoff,
        })?;
    }
    Ok(rows)
}

/// The rows of all schools, in order of entry, by the schools that the students have, given in their order of entry. The
/// only error is want of memory. The cost is one pass over the students. Papers are always well-formed, and this call
/// tells its callers so.
pub fn rows_in_order(
    alloc: Global,
    papers: &FlatPapers,
    places: &[Option<SchoolNo>],
) -> Result<Vec<CutoffRow>, AllocError>
    requires { length places.now ≡ length papers.now.students }
    ensures rows { IfOk result (λ rows. (a : Matching) → ArePlaces papers.now a places.now
        → rows.items ≡ rows_in_order papers.now a) }
    ensures schools { IfOk result (λ rows. map (λ row. row.school) rows.items ≡ schools_of papers.now) }
    ensures well_formed { OnOk result (WellFormed papers.now) }
{
    let tallies = tallies(alloc, papers, places)?;
    let rows = rows_by_tallies(alloc, papers, tallies.as_slice())?;
    Ok(rows)
}

/// The rows of all schools by rising number, given those in order of entry. The only error is want of memory. The cost is a
/// sort of the schools' numbers.
pub fn rising_rows(alloc: Global, rows: &[CutoffRow]) -> Result<Vec<CutoffRow>, AllocError>
    ensures { IfOk result (λ rising. (m : Market) (a : Matching) → rows.now ≡ rows_in_order m a
        → rising.items ≡ cutoff_rows m a) }
{
    let mut rising = Vec::from_slice(alloc, rows)?;
    rising.as_mut_slice().sort_unstable_by_key(|row| row.school);
    Ok(rising)
}
