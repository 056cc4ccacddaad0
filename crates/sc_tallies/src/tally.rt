ghost use Rattle.std.specs.Prelude.{◌≡◌, ℕ, ◌+◌, ◌<◌, ◌≤◌, length, replicate, get_or, set, slice_get, take, All, Some, IfOk, IfSome, OnOk};
ghost use Rattle.sc_papers.specs.Market.{students_of};
ghost use Rattle.sc_papers.specs.Matching.{Matching};
ghost use Rattle.sc_papers.specs.WellFormed.{WellFormed};
ghost use Rattle.sc_tallies.specs.LastKey.{or_later};
ghost use Rattle.sc_tallies.specs.Places.{ArePlaces};
ghost use Rattle.sc_tallies.specs.Tally.{held_at, no_tally, with_key, AreTallies, AreTalliesAmong};

use sc_papers::{FlatPapers, Key, MOST_SCHOOLS, MOST_STUDENTS, SchoolNo};
use std::alloc::{AllocError, Global};

/// How many students have a school, and the last key among them, if they are any.
#[derive(Clone, Copy, Debug, PartialEq, Eq)]
pub struct Tally {
    pub held: u32,
    pub last: Option<Key>,
}

/// The later of a key and the last one so far.
fn later_key(last: Option<Key>, key: Key) -> Option<Key>
    ensures { result ≡ or_later last key }
{
    match last {
        Some(last) if key < last => Some(last),
        _ => Some(key),
    }
}

/// The tally with a student of this key.
fn with_student(tally: Tally, key: Key) -> Tally
    requires { tally.held < MOST_STUDENTS }
    ensures { result ≡ with_key tally key }
{
    Tally {
        held: tally.held + 1,
        last: later_key(tally.last, key),
    }
}

/// The position of the school that a student has, if it is one of the papers, and the student's key there. The student
/// is the one at the position, and has this school.
fn held_at(papers: &FlatPapers, position: usize, place: Option<SchoolNo>) -> Option<(usize, Key)>
    ensures within { IfSome result (λ found. found.0 < length papers.now.schools) }
    ensures found { (a : Matching) (student : ℕ) → slice_get (students_of papers.now) position ≡ Some student
        → a student ≡ place → result ≡ held_at papers.now a student }
{
    let Some(school) = place else {
        return None;
    };
    let at = papers.school_position(school)?;
    let key = papers.key_at(position, at)?;
    Some((at, key))
}

/// Counts a student of this key at the position.
fn count_at(tallies: &mut [Tally], at: usize, key: Key, counted: usize)
    requires at { at < length tallies.old }
    requires limit { length tallies.old ≤ MOST_SCHOOLS }
    requires few { All (λ t. t.held ≤ counted) tallies.old }
    requires counted { counted < MOST_STUDENTS }
    ensures { (t : Tally) → tallies.new ≡ set tallies.old at (with_key (get_or tallies.old at t) key) }
{
    tallies[at] = with_student(tallies[at], key);
}

/// Counts the student at the position of the order of entry, who has this school, if any.
fn count_student(
    tallies: &mut [Tally],
    papers: &FlatPapers,
    position: usize,
    place: Option<SchoolNo>,
)
    requires limit { position < MOST_STUDENTS }
    requires schools { length tallies.old ≡ length papers.now.schools }
    requires few { All (λ t. t.held ≤ position) tallies.old }
    ensures schools { length tallies.new ≡ length papers.now.schools }
    ensures few { All (λ t. t.held ≤ position + 1) tallies.new }
    ensures counted { (a : Matching) (student : ℕ) → slice_get (students_of papers.now) position ≡ Some student
        → a student ≡ place → AreTalliesAmong papers.now a (take position (students_of papers.now)) tallies.old
        → AreTalliesAmong papers.now a (take (position + 1) (students_of papers.now)) tallies.new }
{
    // This call tells that the papers are well-formed and within their limits.
    prove!(papers.students_len() <= MOST_STUDENTS);
    if let Some((at, key)) = held_at(papers, position, place) {
        count_at(tallies, at, key, position);
    }
}

/// A tally of nobody for each of so many schools.
fn no_tallies(alloc: Global, count: usize) -> Result<Vec<Tally>, AllocError>
    ensures { IfOk result (λ tallies. tallies.items ≡ replicate count no_tally) }
{
    let mut tallies = Vec::with_capacity(alloc, count)?;
    for _added in 0..count {
        tallies.push(Tally {
            held: 0,
            last: None,
        })?;
    }
    Ok(tallies)
}

/// Counts the students, who have these schools in order of entry, where nobody is counted yet.
fn count_students(tallies: &mut [Tally], papers: &FlatPapers, places: &[Option<SchoolNo>])
    requires limit { length places.now ≤ MOST_STUDENTS }
    requires nobody { tallies.old ≡ replicate (length papers.now.schools) no_tally }
    ensures schools { length tallies.new ≡ length papers.now.schools }
    ensures tallies { (a : Matching) → ArePlaces papers.now a places.now → AreTallies papers.now a tallies.new }
{
    for (position, place) in places.iter().enumerate() {
        count_student(tallies, papers, position, *place);
    }
}

/// Each school's tally by the schools that the students have, which are given in the papers' order of entry. Where a
/// student has a school that is not in the papers, they are not counted. Tallies stand by the school's position in the
/// order of entry.
///
/// The only error is a refused growth; memory is taken for each school. The cost is one pass over the students. Papers
/// are always well-formed, and this call tells its callers so.
pub fn tallies(
    alloc: Global,
    papers: &FlatPapers,
    places: &[Option<SchoolNo>],
) -> Result<Vec<Tally>, AllocError>
    requires { length places.now ≡ length papers.now.students }
    ensures tallies { IfOk result (λ tallies. (a : Matching) → ArePlaces papers.now a places.now
        → AreTallies papers.now a tallies.items) }
    ensures schools { IfOk result (λ tallies. length tallies.items ≡ length papers.now.schools) }
    ensures well_formed { OnOk result (WellFormed papers.now) }
{
    // This call tells that the papers are well-formed and within their limits.
    prove!(papers.students_len() <= MOST_STUDENTS);
    let mut tallies = no_tallies(alloc, papers.schools_len())?;
    count_students(tallies.as_mut_slice(), papers, places);
    Ok(tallies)
}
