//! Papers whose students' records are kept, so that they can be lent and amended.

ghost use Rattle.std.specs.Prelude.{◌≡◌, ◌+◌, ◌-◌, ◌<◌, ◌≤◌, [], length, slice_get, IfOk, IfErr, OnOk, OnErr, None};
ghost use Rattle.std.specs.Option.{option_and_then, option_copied};
ghost use Rattle.sc_papers.specs.Change.{ChangesTo};
ghost use Rattle.sc_papers.specs.Entry.{MayEnterAt};
ghost use Rattle.sc_papers.specs.Market.{choices_of, continuing_of, seats_of, schools_of, siblings_of, student_at, student_of, students_of, zone_of};
ghost use Rattle.sc_papers.specs.Placed.{schools_at};
ghost use Rattle.sc_papers.specs.Records.{AreRecords};
ghost use Rattle.sc_papers.specs.Verdict.{first_of, objections_to_add, objections_to_close, objections_to_correct, objections_to_enter, objections_to_rerank, school_verdict, with_choices, with_circumstances, with_school, with_seats, with_student, without_student, IsRefusal, IsSchoolRefusal};
ghost use Rattle.sc_papers.specs.EntryOrder.{with_moved_student, with_swapped_students};

use crate::amendment::Refusal;
use crate::count::Count;
use crate::flat_papers::FlatPapers;
use crate::flat_papers::numbers::Finding;
use crate::limits::{LONGEST_LIST, MOST_STUDENTS};
use crate::ordered::Ordered;
use crate::position_list::PositionList;
use crate::recording::{records_of, replace_circumstances};
use crate::records::Student;
use crate::school_list::SchoolList;
use crate::school_no::SchoolNo;
use crate::school_refusal::SchoolRefusal;
use crate::seats::Seats;
use crate::zone::Zone;
use sc_lottery::{Seed, StudentNumber};
use std::alloc::{AllocError, Global};
use std::marker::Model;
use std::mem;
use std::ops::Deref;

/// The schools and the students of one school choice, and the seed of its lottery, with a record of each student that
/// can be lent and amended.
///
/// What needs no record is asked of the flat papers that they hold, which a call on these reaches by itself.
pub struct Papers {
    flat: FlatPapers,
    records: Ordered<Student>,
}

impl Drop for Papers {
    fn drop(self) {
        let Papers {
            flat: _,
            records: _,
        } = self;
    }
}

impl Model for Papers {
    ghost use Rattle.sc_papers.specs.Market.{Market};

    ghost Value = { Market };

    ghost use Rattle.sc_papers.specs.Records.{AreRecords};

    ghost view = { λ p. p.flat };

    ghost invariant = { λ p. AreRecords p.flat p.records.items };
}

impl Deref for Papers {
    type Target = FlatPapers;

    /// The same papers, without their records.
    fn deref(&self) -> &FlatPapers
        ensures { result.now ≡ self.now }
    {
        &self.flat
    }
}

/// Records of all students.
fn recorded(papers: &FlatPapers) -> Result<Ordered<Student>, AllocError>
    ensures { IfOk result (λ records. AreRecords papers.now records.items) }
{
    // This call tells that the papers are within their limits, so a slot has 32 bits.
    prove!(papers.students_len() <= MOST_STUDENTS);
    Ordered::laid(records_of(papers)?)
}

/// What stands in the place of a record that is taken out to be changed. It takes no memory.
fn no_record(alloc: Global) -> Student {
    Student {
        zone: Zone::default(),
        continuing: None,
        siblings: SchoolList::from_vec(Vec::new(alloc)),
        choices: SchoolList::from_vec(Vec::new(alloc)),
    }
}

impl Papers {
    /// Papers with this seed, no schools and no students. It takes no memory.
    pub fn new(alloc: Global, seed: Seed) -> Self
        ensures seed { result.seed ≡ seed }
        ensures schools { result.schools ≡ [] }
        ensures students { result.students ≡ [] }
    {
        Papers {
            flat: FlatPapers::finding(Finding::ByTable, alloc, seed),
            records: Ordered::new(Finding::ByTable, alloc),
        }
    }

    /// Papers that hold a record of each student of flat ones. The only error is want of memory, after which the flat
    /// papers are given up. The cost is one pass over the students and their lists. A table of the students' numbers is
    /// made, if there is none.
    pub fn from_flat(flat: FlatPapers) -> Result<Self, AllocError>
        ensures { IfOk result (λ papers. papers ≡ flat) }
    {
        let flat = flat.with_table()?;
        match recorded(&flat) {
            Ok(records) => Ok(Papers { flat, records }),
            Err(refused) => {
                drop(flat);
                Err(refused)
            }
        }
    }

    /// Equal papers, or the error of a refused growth. One pass over the schools and the students; no
    /// draw is made.
    pub fn copy(&self) -> Result<Self, AllocError>
        ensures { IfOk result (λ copy. copy ≡ self.now) }
    {
        Papers::from_flat(self.flat.copy()?)
    }

    /// What the papers hold of a student, or `None` where the student is not in them. In constant
    /// time.
    pub fn student(&self, student: StudentNumber) -> Option<&Student>
        ensures { option_copied result ≡ student_of self.now student }
    {
        let position = self.flat.student_position(student)?;
        Some(self.records.at(position))
    }

    /// What the papers hold of the student at a position of the order of entry, from 0, or `None` past
    /// the last one. In constant time, without a look-up by number.
    pub fn record_at(&self, position: usize) -> Option<&Student>
        ensures { option_copied result ≡ option_and_then (student_of self.now)
            (slice_get (students_of self.now) position) }
    {
        // This call tells that the papers are well-formed: no number stands twice.
        prove!(self.flat.students_len() <= MOST_STUDENTS);
        self.records.get(position)
    }

    /// The choices, best first, of the student at a position of the order of entry, from 0. In constant
    /// time, without a look-up by number.
    pub fn choices_at(&self, student: usize) -> &[SchoolNo]
        requires { student < length self.now.students }
        ensures choices { result.now ≡ choices_of self.now (student_at self.now student) }
        ensures short { length result.now ≤ LONGEST_LIST }
    {
        // This call tells that the papers are within their limits, and so are their lists.
        prove!(self.flat.students_len() <= MOST_STUDENTS);
        let Some(record) = self.record_at(student) else {
            unreachable!()
        };
        record.choices.as_slice()
    }

    /// Adds a school last, or answers the first refusal that applies: `SchoolExists`,
    /// `TooManySchools` where there are 5,000, `SchoolsClosed` once a student has entered, and last
    /// `OutOfMemory`. After a refusal the papers are as before.
    pub fn add_school(
        &mut self,
        school: SchoolNo,
        zone: Zone,
        seats: Seats,
    ) -> Result<(), SchoolRefusal>
        ensures allowed { OnOk result (school_verdict self.old school ≡ None) }
        ensures added { OnOk result (self.new ≡ with_school self.old school (record { zone = zone; seats = seats })) }
        ensures refused { IfErr result (IsSchoolRefusal (school_verdict self.old school)) }
        ensures unchanged { OnErr result (self.new ≡ self.old) }
    {
        self.flat.add_school(school, zone, seats)
    }

    /// Does what `apply` does with an amendment by which the student enters, without the amendment having to be made:
    /// puts the student last in the order of entry, or answers the first refusal that applies, as `FlatPapers::admit`
    /// does. After a refusal the papers are as before; the student is given up.
    pub fn admit(&mut self, number: StudentNumber, student: Student) -> Result<(), Refusal>
        ensures allowed { OnOk result (first_of
            (objections_to_enter self.old number student.siblings student.choices student.continuing) ≡ None) }
        ensures entered { OnOk result (self.new ≡ with_student self.old number student) }
        ensures refused { IfErr result (IsRefusal
            (first_of (objections_to_enter self.old number student.siblings student.choices student.continuing))) }
        ensures unchanged { OnErr result (self.new ≡ self.old) }
    {
        let choices = self.flat.check_entry(number, &student)?;
        self.put_last(number, student, &choices)?;
        Ok(())
    }

    /// Puts a student who may enter last in the order of entry. A refused growth leaves the papers as they were.
    pub(crate) fn enter(
        &mut self,
        number: StudentNumber,
        student: Student,
    ) -> Result<(), AllocError>
        requires { first_of (objections_to_enter self.old number student.siblings student.choices student.continuing)
            ≡ None }
        ensures { ChangesTo self.old self.new (with_student self.old number student) result }
    {
        let choices = self.flat.entry_positions(number, &student);
        self.put_last(number, student, &choices)
    }

    /// Puts a student who may enter, whose choices' schools stand at these positions, last in the order of entry. The growth comes first, so a refused one leaves the papers as they were.
    fn put_last(
        &mut self,
        number: StudentNumber,
        student: Student,
        choices: &PositionList,
    ) -> Result<(), AllocError>
        requires may { MayEnterAt self.old number student choices.now }
        requires choices { schools_at (schools_of self.old) choices.now ≡ student.choices }
        ensures { ChangesTo self.old self.new (with_student self.old number student) result }
    {
        // This call tells that the papers are within their limits, so a slot has 32 bits.
        prove!(self.flat.students_len() <= MOST_STUDENTS);
        self.records.reserve(1)?;
        self.flat.put_last(number, &student, choices)?;
        self.records.push_reserved(student);
        Ok(())
    }

    /// Replaces a student's choices, and answers the old ones.
    pub(crate) fn rerank(&mut self, number: StudentNumber, choices: SchoolList) -> SchoolList
        requires { first_of (objections_to_rerank self.old number choices) ≡ None }
        ensures new { self.new ≡ with_choices self.old number choices }
        ensures old { result ≡ choices_of self.old number }
    {
        // This call tells that the papers are well-formed and within their limits.
        prove!(self.flat.students_len() <= MOST_STUDENTS);
        let Some(position) = self.flat.student_position(number) else {
            unreachable!()
        };
        let mut record = self
            .records
            .replace(position, no_record(self.flat.allocator()));
        let before = mem::replace(&mut record.choices, choices);
        self.flat.put_student(number, position, &record);
        let _ = self.records.replace(position, record);
        before
    }

    /// Replaces a student's zone, siblings and the school at which the student continues, and answers the old
    /// ones.
    pub(crate) fn correct(
        &mut self,
        number: StudentNumber,
        zone: Zone,
        siblings: SchoolList,
        continuing: Option<SchoolNo>,
    ) -> (Zone, SchoolList, Option<SchoolNo>)
        requires { first_of (objections_to_correct self.old number siblings continuing) ≡ None }
        ensures new { self.new ≡ with_circumstances self.old number zone siblings continuing }
        ensures old { result ≡ (zone_of self.old number, siblings_of self.old number, continuing_of self.old number) }
    {
        // This call tells that the papers are well-formed and within their limits.
        prove!(self.flat.students_len() <= MOST_STUDENTS);
        let Some(position) = self.flat.student_position(number) else {
            unreachable!()
        };
        let mut record = self
            .records
            .replace(position, no_record(self.flat.allocator()));
        let before = replace_circumstances(&mut record, zone, siblings, continuing);
        self.flat.put_student(number, position, &record);
        let _ = self.records.replace(position, record);
        before
    }

    /// Gives a school so many seats more.
    pub(crate) fn add_seats(&mut self, number: SchoolNo, count: Count)
        requires { first_of (objections_to_add self.old number count) ≡ None }
        ensures { self.new ≡ with_seats self.old number (seats_of self.old number + count) }
    {
        self.flat.add_seats(number, count)
    }

    /// Takes so many seats of a school away.
    pub(crate) fn close_seats(&mut self, number: SchoolNo, count: Count)
        requires { first_of (objections_to_close self.old number count) ≡ None }
        ensures { self.new ≡ with_seats self.old number (seats_of self.old number - count) }
    {
        self.flat.close_seats(number, count)
    }

    /// Moves the student at one position of the order of entry to another one, each from 0; those between move
    /// by one position. It takes no memory and cannot fail. The cost is that of the shift.
    pub fn move_student(&mut self, from: usize, to: usize)
        requires from { from < length self.old.students }
        requires to { to < length self.old.students }
        ensures { self.new ≡ with_moved_student self.old from to }
    {
        self.flat.move_student(from, to);
        self.records.move_index(from, to);
    }

    /// Changes the students at two positions of the order of entry for one another, each from 0; all others stay where
    /// they are. It takes no memory and cannot fail. In constant time.
    pub fn swap_students(&mut self, a: usize, b: usize)
        requires a { a < length self.old.students }
        requires b { b < length self.old.students }
        ensures { self.new ≡ with_swapped_students self.old a b }
    {
        self.flat.swap_students(a, b);
        self.records.swap(a, b);
    }

    /// Removes a student, and the student's draw; the number of nobody changes nothing. The others keep their
    /// order and their draws. It takes no memory and cannot fail. The cost is that of a few passes over four bytes a
    /// student, and of none for the last student where nobody has gone or moved since the student entered.
    pub fn withdraw(&mut self, student: StudentNumber)
        ensures { self.new ≡ without_student self.old student }
    {
        if let Some(position) = self.flat.withdraw(student) {
            self.records.remove(position);
        }
    }
}
