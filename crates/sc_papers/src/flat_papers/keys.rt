//! The keys of the students at the schools.

ghost use Rattle.std.specs.Prelude.{◌≡◌, ◌<◌, ◌==◌, length, map, nat_eq, position, nat_lt, take, true, ◌&&◌, Some, None, if◌then◌else◌};
ghost use Rattle.std.specs.Bool.{OnTrue};
ghost use Rattle.std.specs.List.{list_any};
ghost use Rattle.sc_papers.specs.Key.{class_by, same_zone};
ghost use Rattle.sc_papers.specs.StudentRow.{class_in, IsZoned};

use crate::classed_choice::{ClassedChoice, ClassedList};
use crate::flat_papers::FlatPapers;
use crate::key::Key;
use crate::limits::{LONGEST_LIST, MOST_STUDENTS};
use crate::position_list::PositionList;
use crate::records::{School, Student};
use crate::school_no::SchoolNo;
use crate::student_row::StudentRow;
use crate::zone::Zone;
use sc_lottery::StudentNumber;

/// The priority class at a school of a student who continues there or not, has a sibling there or not, and
/// lives in this zone.
fn class_of(continuing: bool, sibling: bool, zone: Zone, school: School) -> u8
    ensures { result ≡ class_by continuing sibling (same_zone zone school.zone) }
{
    let zone = zone == school.zone && zone.get() != 0;
    match (continuing, sibling, zone) {
        (true, _, _) => 0,
        (false, true, true) => 1,
        (false, true, false) => 2,
        (false, false, true) => 3,
        (false, false, false) => 4,
    }
}

/// The priority class of a student at a school of this number.
#[inline]
fn class_in(student: &Student, number: SchoolNo, school: School) -> u8
    ensures { result ≡ class_in student.now number school.zone }
{
    let continuing = student.continuing == Some(number);
    let sibling = student.siblings.as_slice().contains(&number);
    class_of(continuing, sibling, student.zone, school)
}

/// Whether the zone alone tells the student's class at each school, as it does of most.
fn is_zoned(student: &Student) -> bool
    ensures { OnTrue result (IsZoned student.now) }
{
    student.zone.get() != 0
        && student.continuing.is_none()
        && student.siblings.as_slice().is_empty()
}

/// Whether a position is among some.
fn is_among(positions: &[u16], at: usize) -> bool
    ensures { result ≡ list_any (λ p. p == at) positions.now }
{
    positions.iter().any(|other| usize::from(*other) == at)
}

impl FlatPapers {
    ghost use Rattle.sc_papers.specs.Market.{student_at, schools_of, siblings_of, is_school, is_student};
    ghost use Rattle.sc_papers.specs.Placed.{AreOfSchools};
    ghost use Rattle.sc_papers.specs.StudentRow.{classed_at, IsRowAt, IsZoned};
    ghost use Rattle.sc_papers.specs.Key.{has_sibling_at, key_at, key_of};

    /// The student's key at the school, or `None` where either is not in the papers. The student
    /// need not list the school. The cost is that of `student_position`; no draw is made.
    pub fn key(&self, student: StudentNumber, school: SchoolNo) -> Option<Key>
        ensures { result ≡ (if is_student self.now student && is_school self.now school
            then Some (key_of self.now student school) else None) }
    {
        self.key_at(
            self.student_position(student)?,
            self.school_position(school)?,
        )
    }

    /// The key of the student at a position at the school at a position, both of the orders of entry
    /// and from 0, or `None` where either is past the last one. The student need not list the school.
    /// In constant time, without a look-up by number; no draw is made.
    #[inline]
    pub fn key_at(&self, student: usize, school: usize) -> Option<Key>
        ensures { result ≡ key_at self.now student school }
    {
        let row = self.rows.get(student)?;
        let (name, entry) = self.schools.get_index(school)?;
        let continuing = row.continues_at(*name);
        let sibling = self.has_sibling_at(row, student, *name, school);
        let class = class_of(continuing, sibling, row.zone(), *entry);
        Some(Key {
            class,
            draw: row.draw(),
            student: row.number(),
        })
    }

    /// The choice by a student of the school at a position of the order of entry, from 0, with the student's class there.
    #[inline]
    fn classed_choice(&self, student: &Student, position: u16) -> ClassedChoice
        requires { position < length self.now.schools }
        ensures { result ≡ classed_at self.now student.now position }
    {
        // This call tells that the papers are within their limits.
        prove!(self.students_len() <= MOST_STUDENTS);
        let Some((name, school)) = self.schools.get_index(usize::from(position)) else {
            unreachable!()
        };
        ClassedChoice::new(position, class_in(student, *name, *school))
    }

    /// The same of a student whose class the zone alone tells. No branch is taken on it, since nobody can guess whether the
    /// next choice is at home.
    #[inline]
    fn zoned_choice(&self, student: &Student, position: u16) -> ClassedChoice
        requires within { position < length self.now.schools }
        requires zoned { IsZoned student.now }
        ensures { result ≡ classed_at self.now student.now position }
    {
        // This call tells that the papers are within their limits.
        prove!(self.students_len() <= MOST_STUDENTS);
        let Some((_, school)) = self.schools.get_index(usize::from(position)) else {
            unreachable!()
        };
        ClassedChoice::new(position, 4).moved_ahead(student.zone == school.zone)
    }

    /// What `filled_choices` answers of a student whose class the zone alone tells. It is taken into whoever makes a row, so
    /// that the choices are filled in where they are read and not copied.
    #[inline(always)]
    fn zoned_choices(&self, student: &Student, positions: &PositionList) -> [ClassedChoice; 20]
        requires positions { AreOfSchools self.now positions.now }
        requires zoned { IsZoned student.now }
        ensures { take (length positions.now) result ≡ map (classed_at self.now student.now) positions.now }
    {
        let mut choices = [ClassedChoice::default(); LONGEST_LIST];
        for (rank, position) in positions.as_slice().iter().enumerate() {
            choices[rank] = self.zoned_choice(student, *position);
        }
        choices
    }

    /// The choices by a student of the schools at these positions, and any after the last of them. It is not inlined, since
    /// of most students the zone tells.
    #[inline(never)]
    fn filled_choices(&self, student: &Student, positions: &PositionList) -> [ClassedChoice; 20]
        requires { AreOfSchools self.now positions.now }
        ensures { take (length positions.now) result ≡ map (classed_at self.now student.now) positions.now }
    {
        let mut choices = [ClassedChoice::default(); LONGEST_LIST];
        for (rank, position) in positions.as_slice().iter().enumerate() {
            choices[rank] = self.classed_choice(student, *position);
        }
        choices
    }

    /// The choices by a student of the schools at these positions of the order of entry, each from 0. The cost is a look at
    /// each school, and at the student's siblings for each.
    #[inline(always)]
    pub(crate) fn classed_list(&self, student: &Student, positions: &PositionList) -> ClassedList
        requires { AreOfSchools self.now positions.now }
        ensures { result ≡ map (classed_at self.now student.now) positions.now }
    {
        let choices = if is_zoned(student) {
            self.zoned_choices(student, positions)
        } else {
            self.filled_choices(student, positions)
        };
        ClassedList {
            count: positions.count,
            choices,
        }
    }

    /// What a proposal reads of the student at a position of the order of entry, from 0.
    pub(crate) fn row_at(&self, student: usize) -> &StudentRow
        requires { student < length self.now.students }
        ensures { IsRowAt self.now student result.now }
    {
        self.rows.at(student)
    }

    /// Where the schools of the siblings of the student at a position of the order of entry, from 0, stand, who has more
    /// than one.
    pub(crate) fn sibling_positions_at(&self, student: usize) -> &[u16]
        requires student { student < length self.now.students }
        requires more { nat_lt 1 (length (siblings_of self.now (student_at self.now student))) ≡ true }
        ensures { map Some result.now ≡ map (λ s. position (nat_eq s) (schools_of self.now))
            (siblings_of self.now (student_at self.now student)) }
    {
        let Some(kept) = self.siblings.get(&self.rows.at(student).number()) else {
            unreachable!()
        };
        kept.as_slice()
    }

    /// Whether a sibling of the student at a position of the order of entry, from 0, who has more than one, is at the
    /// school at a position. It is not inlined, since few have more than one, and who asks for a key does so in a loop.
    #[inline(never)]
    fn has_any_sibling_at(&self, student: usize, school: SchoolNo, at: usize) -> bool
        requires student { student < length self.now.students }
        requires more { nat_lt 1 (length (siblings_of self.now (student_at self.now student))) ≡ true }
        requires school { position (nat_eq school) (schools_of self.now) ≡ Some at }
        ensures { result ≡ has_sibling_at self.now (student_at self.now student) school }
    {
        is_among(self.sibling_positions_at(student), at)
    }

    /// Whether a sibling of the student at a position of the order of entry, from 0, is at the school at a position. All
    /// siblings are looked at only where the student's row tells of more than one.
    #[inline]
    fn has_sibling_at(&self, row: &StudentRow, student: usize, school: SchoolNo, at: usize) -> bool
        requires row { IsRowAt self.now student row.now }
        requires school { position (nat_eq school) (schools_of self.now) ≡ Some at }
        ensures { result ≡ has_sibling_at self.now (student_at self.now student) school }
    {
        row.has_first_sibling_at(school)
            || row.has_more_siblings() && self.has_any_sibling_at(student, school, at)
    }
}
