//! How many students list each school.
ghost use Rattle.std.specs.Prelude.{◌≡◌, ℕ, ◌+◌, ◌<◌, ◌≤◌, nat_eq, count_by, length, replicate, slice_index, take, All, IfOk};
ghost use Rattle.sc_papers.specs.Market.{students_of};
ghost use Rattle.sc_notices.specs.Counting.{AreListings};
ghost use Rattle.sc_notices.specs.Summary.{listed};

use sc_papers::{ClassedChoice, FlatPapers, LONGEST_LIST, MOST_STUDENTS, SchoolNo};
use std::alloc::{AllocError, Global};

/// Counts one more at each of the choices' positions.
fn count_choices(counts: &mut [u32], choices: &[ClassedChoice])
    requires within { All (λ c. c.position < length counts.old) choices.now }
    requires short { length choices.now ≤ LONGEST_LIST }
    requires few { (at : ℕ) → at < length counts.old → slice_index counts.old at ≤ MOST_STUDENTS }
    ensures { (at : ℕ) → at < length counts.old
        → slice_index counts.new at ≡ slice_index counts.old at + count_by (λ c. nat_eq at c.position) choices.now }
{
    for choice in choices {
        counts[choice.position()] += 1;
    }
}

/// A count of nobody for each of so many schools.
fn no_listings(alloc: Global, count: usize) -> Result<Vec<u32>, AllocError>
    ensures { IfOk result (λ counts. counts.items ≡ replicate count 0) }
{
    let mut counts = Vec::new(alloc);
    counts.resize(count, 0)?;
    Ok(counts)
}

/// How many students list each school, by the school's position in the order of entry. The only error is want of
/// memory, which is taken for each school. One pass over the students' choices, without a look-up by number.
pub(crate) fn listings(alloc: Global, papers: &FlatPapers) -> Result<Vec<u32>, AllocError>
    ensures counts { IfOk result (λ counts. AreListings papers.now (students_of papers.now) counts.items) }
{
    let mut counts = no_listings(alloc, papers.schools_len())?;
    for position in 0..papers.students_len() {
        count_choices(counts.as_mut_slice(), papers.classed_choices_at(position));
    }
    Ok(counts)
}

/// How many students list a school, by the counts of all schools; nobody lists one that is not in the papers.
pub(crate) fn listings_of(counts: &[u32], papers: &FlatPapers, school: SchoolNo) -> u32
    requires { AreListings papers.now (students_of papers.now) counts.now }
    ensures { result ≡ listed papers.now school }
{
    // This call tells that the papers are well-formed.
    prove!(papers.students_len() <= MOST_STUDENTS);
    match papers.school_position(school) {
        Some(position) => counts[position],
        None => 0,
    }
}
