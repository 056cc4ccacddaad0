//! Whose place differs between two times, as text.
ghost use Rattle.std.specs.Prelude.{◌≡◌, ◌++◌, ◌∷◌, [], not, filter, All, IfOk, OnOk, if◌then◌else◌};
ghost use Rattle.sc_papers.specs.Market.{Market, is_student, students_of};
ghost use Rattle.sc_papers.specs.Matching.{Matching};
ghost use Rattle.sc_repair.specs.Standing.{matching_of};
ghost use Rattle.sc_reasons.specs.Entrants.{numbers_of, AreRising, Holds};
ghost use Rattle.sc_reasons.specs.Rising.{rising};
ghost use Rattle.sc_notices.specs.Changes.{differ, place_in, students_of_either};
ghost use Rattle.sc_notices.specs.ChangesText.{change_line, changes_text, place_word};
ghost use Rattle.sc_notices.specs.Telling.{Tells};

use crate::fields::push_field;
use crate::parts::TextParts;
use sc_decimal::push_number;
use sc_papers::{FlatPapers, SchoolNo, StudentNo};
use sc_repair::Clearing;
use sc_report::{Entrant, rising_entrants};
use sc_tallies::places_of;
use std::alloc::{AllocError, Global};
use std::marker::Model;

/// The line above the students' lines.
pub(crate) const HEADER: &[u8] = b"student,before,after\n";

/// The students of the papers as they stand, by rising number, each with what they have: as much of a time as
/// `change_parts` looks at. The only error is want of memory, which is taken for each student. The cost is a sort of
/// their numbers.
pub fn standing_places(alloc: Global, clearing: &Clearing) -> Result<Vec<Entrant>, AllocError>
    ensures students { IfOk result (λ places. AreRising clearing.now.standing.papers places.items) }
    ensures places { IfOk result (λ places. All (Holds (matching_of clearing.now.standing)) places.items) }
{
    let papers: &FlatPapers = clearing.papers();
    let places = places_of(alloc, papers, clearing.places())?;
    let rising = rising_entrants(alloc, papers, places.as_slice())?;
    Ok(rising)
}

/// The numbers of students.
fn numbers(alloc: Global, places: &[Entrant]) -> Result<Vec<StudentNo>, AllocError>
    ensures { IfOk result (λ numbers. numbers.items ≡ numbers_of places.now) }
{
    places.iter().map(|place| place.student).collect(alloc)
}

/// The place of a student by those of a time, whose students have these numbers: `None` where they are none of them.
fn place_among(
    numbers: &[StudentNo],
    places: &[Entrant],
    student: StudentNo,
) -> Option<Option<SchoolNo>>
    requires { numbers.now ≡ numbers_of places.now }
    // By whichever papers and matching the places are.
    ensures { (m : Market) (a : Matching) → AreRising m places.now → All (Holds a) places.now
        → result ≡ place_in m a student }
{
    match numbers.binary_search(&student) {
        Ok(index) => Some(places[index].held),
        Err(_) => None,
    }
}

/// Whether a student is one of those whose rising numbers are given.
fn is_among(numbers: &[StudentNo], student: StudentNo) -> bool
    // Of whichever papers they are the students.
    ensures { (m : Market) → numbers.now ≡ rising (students_of m) → result ≡ is_student m student }
{
    numbers.binary_search(&student).is_ok()
}

/// Adds a student to others, unless they are known.
fn push_unknown(
    students: &mut Vec<StudentNo>,
    student: StudentNo,
    is_known: bool,
) -> Result<(), AllocError>
    ensures { OnOk result (students.new.items
        ≡ (if is_known then students.old.items else students.old.items ++ student ∷ [])) }
{
    if !is_known {
        students.push(student)?;
    }
    Ok(())
}

/// Adds the students of the papers who are none of those whose rising numbers are given.
fn push_newcomers(
    students: &mut Vec<StudentNo>,
    numbers: &[StudentNo],
    papers: &FlatPapers,
) -> Result<(), AllocError>
    ensures { OnOk result ((m : Market) → numbers.now ≡ rising (students_of m)
        → students.new.items ≡ students.old.items ++ filter (λ i. not (is_student m i)) (students_of papers.now)) }
{
    for position in 0..papers.students_len() {
        let Some(student) = papers.student_at(position) else {
            unreachable!()
        };
        push_unknown(students, student, is_among(numbers, student))?;
    }
    Ok(())
}

/// The students of either papers by rising number, given those of the first so.
fn rising_of_either(
    alloc: Global,
    numbers: &[StudentNo],
    papers: &FlatPapers,
) -> Result<Vec<StudentNo>, AllocError>
    ensures { IfOk result (λ students. (m : Market) → numbers.now ≡ rising (students_of m)
        → students.items ≡ rising (students_of_either m papers.now)) }
{
    let mut students = Vec::from_slice(alloc, numbers)?;
    push_newcomers(&mut students, numbers, papers)?;
    students.sort_unstable();
    Ok(students)
}

/// Adds a place in a word.
fn push_place(text: &mut Vec<u8>, place: Option<Option<SchoolNo>>) -> Result<(), AllocError>
    ensures { OnOk result (text.new.items ≡ text.old.items ++ place_word place) }
{
    match place {
        Some(Some(school)) => push_number(text, u64::from(school.get())),
        Some(None) => text.extend_from_slice(b"-"),
        None => text.extend_from_slice(b"absent"),
    }
}

/// Adds the line of a student who had the one place and has the other.
fn push_line(
    text: &mut Vec<u8>,
    student: StudentNo,
    before: Option<Option<SchoolNo>>,
    after: Option<Option<SchoolNo>>,
) -> Result<(), AllocError>
    ensures { OnOk result (text.new.items ≡ text.old.items ++ change_line student before after) }
{
    push_field(text, student.get())?;
    push_place(text, before)?;
    text.extend_from_slice(b",")?;
    push_place(text, after)?;
    text.extend_from_slice(b"\n")
}

/// Adds the line of a student where the two places differ, and nothing where they are one.
fn push_change(
    text: &mut Vec<u8>,
    student: StudentNo,
    before: Option<Option<SchoolNo>>,
    after: Option<Option<SchoolNo>>,
) -> Result<(), AllocError>
    ensures { OnOk result (text.new.items ≡ text.old.items
        ++ (if differ before after then change_line student before after else [])) }
{
    if before != after {
        push_line(text, student, before, after)?;
    }
    Ok(())
}

/// Whose place differs between a time and now: the places before, what stands now, and the students of either.
pub struct Changes<'a> {
    before: &'a [Entrant],
    // Those of the places before.
    numbers: Vec<StudentNo>,
    after: &'a Clearing,
    students: Vec<StudentNo>,
}

impl Drop for Changes<'_> {
    fn drop(self) {
        let Changes {
            before: _,
            numbers: _,
            after: _,
            students: _,
        } = self;
    }
}

impl<'a> Model for Changes<'a> {
    ghost use Rattle.std.specs.Prelude.{◌≡◌};
    ghost use Rattle.sc_reasons.specs.Entrants.{numbers_of};
    ghost use Rattle.sc_notices.specs.Parts.{ToCompare};

    ghost Value = { ToCompare };

    ghost view = { λ c. record {
      students = c.students.items;
      before = c.before.now;
      standing = c.after.now.standing;
    } };

    ghost invariant = { λ c. c.numbers.items ≡ numbers_of c.before.now };
}

impl<'a> Changes<'a> {
    ghost use Rattle.std.specs.Prelude.{◌≡◌, ◌++◌, ℕ, List, [], get_or, length, OnOk};
    ghost use Rattle.sc_notices.specs.Parts.{AreCompared};

    /// How many students there are.
    pub(crate) fn count(&self) -> usize
        ensures { result ≡ length self.now.students }
    {
        self.students.len()
    }

    /// Adds the line of a student whose place differs, by their place from 0, or nothing past the last.
    pub(crate) fn push_part(&self, text: &mut Vec<u8>, at: usize) -> Result<(), AllocError>
        ensures { (parts : List (List ℕ)) → AreCompared self.now parts
            → OnOk result (text.new.items ≡ text.old.items ++ get_or parts at []) }
    {
        let Some(student) = self.students.get(at) else {
            return Ok(());
        };
        let was = place_among(self.numbers.as_slice(), self.before, *student);
        push_change(text, *student, was, self.after.place_of(*student))
    }
}

/// Whose place differs between a time, of which the places are given, and now: a header, and by rising number a line for
/// each student of either papers whose place is another one, with the place before and the place now. A place is a
/// school's number, `-` for no school, or `absent` for a student who is not in the papers. Each part has the line of one
/// student, or nothing. The only error is want of memory, which is taken for each student. The cost is a sort of the
/// students' numbers, and for each part a search and a look-up.
pub fn change_parts<'a>(
    alloc: Global,
    before: &'a [Entrant],
    after: &'a Clearing,
) -> Result<TextParts<'a>, AllocError>
    // By whichever papers and matching the places before are.
    ensures { IfOk result (λ told. (m : Market) (a : Matching) → AreRising m before.now → All (Holds a) before.now
        → Tells told (changes_text m a after.now.standing.papers (matching_of after.now.standing))) }
{
    let numbers = numbers(alloc, before)?;
    let students = rising_of_either(alloc, numbers.as_slice(), after.papers())?;
    Ok(TextParts::Compared {
        changes: Changes {
            before,
            numbers,
            after,
            students,
        },
    })
}
