//! Schools and students who come to the papers.

use crate::amendment::Refusal;
use crate::check::{check_enter, check_enter_at};
use crate::flat_papers::FlatPapers;
use crate::limits::{MOST_SCHOOLS, MOST_STUDENTS};
use crate::placed_choices::ChosenPositions;
use crate::position_list::{PositionList, keep_siblings};
use crate::records::{School, Student};
use crate::school_list::SchoolList;
use crate::school_no::SchoolNo;
use crate::school_refusal::SchoolRefusal;
use crate::seats::Seats;
use crate::student_row::StudentRow;
use crate::zone::Zone;
use sc_lottery::StudentNumber;
use std::alloc::AllocError;

impl FlatPapers {
    ghost use Rattle.std.specs.Prelude.{◌≡◌, ◌≤◌, None, Some, OnOk, OnErr, IfErr, IfOk};
    ghost use Rattle.sc_papers.specs.Change.{ChangesTo};
    ghost use Rattle.sc_papers.specs.Entry.{with_choices_at, MayEnterAt};
    ghost use Rattle.sc_papers.specs.Market.{schools_of};
    ghost use Rattle.sc_papers.specs.Placed.{schools_at, AreOfSchools};
    ghost use Rattle.sc_papers.specs.Verdict.{first_of, objections_to_enter, school_verdict, with_school, with_student, IsRefusal, IsSchoolRefusal};

    /// Adds a school last, or answers the first refusal that applies: `SchoolExists`,
    /// `TooManySchools` where there are 5,000, `SchoolsClosed` once a student has entered, and last
    /// `OutOfMemory`. After a refusal the papers are as before.
    pub fn add_school(
        &mut self,
        school: SchoolNo,
        zone: Zone,
        seats: Seats,
    ) -> Result<(), SchoolRefusal>
        ensures allowed { OnOk result (school_verdict self.old school ≡ None) }
        ensures added { OnOk result (self.new ≡ with_school self.old school (record { zone = zone; seats = seats })) }
        ensures refused { IfErr result (IsSchoolRefusal (school_verdict self.old school)) }
        ensures unchanged { OnErr result (self.new ≡ self.old) }
    {
        if self.school(school).is_some() {
            return Err(SchoolRefusal::SchoolExists);
        }
        if self.schools.len() >= MOST_SCHOOLS {
            return Err(SchoolRefusal::TooManySchools);
        }
        if !self.rows.is_empty() {
            return Err(SchoolRefusal::SchoolsClosed);
        }
        prove!(seats.get() <= Seats::GREATEST);
        self.put_school(school, School { zone, seats })?;
        Ok(())
    }

    /// Puts a school that may be added last in the order of entry. Both growths come before the first
    /// change that counts, so a refused one leaves the papers as they were.
    fn put_school(&mut self, number: SchoolNo, school: School) -> Result<(), AllocError>
        requires allowed { school_verdict self.old number ≡ None }
        requires seats { school.seats ≤ Seats.GREATEST }
        ensures { ChangesTo self.old self.new (with_school self.old number school) result }
    {
        self.positions.reserve(number)?;
        let position = self.schools.len() as u16;
        let _ = self.schools.insert(number, school)?;
        self.positions.put(number, position);
        Ok(())
    }

    /// Makes room for so many more students, so that none of them takes memory as they enter, but for the
    /// table of which `admit` tells. Nothing else changes, also where the growth is refused. The only error
    /// is want of memory.
    pub fn reserve(&mut self, students: usize) -> Result<(), AllocError>
        ensures { self.new ≡ self.old }
    {
        self.numbers.reserve(students)?;
        self.rows.reserve(students)?;
        self.siblings.reserve(students)?;
        Ok(())
    }

    /// Tests whether a student may enter, if the schools of their choices stand at these positions, and answers the first
    /// refusal that applies.
    fn check_entry_at(
        &self,
        number: StudentNumber,
        student: &Student,
        choices: &ChosenPositions,
    ) -> Result<(), Refusal>
        requires { AreOfSchools self.now choices.now }
        ensures may { OnOk result (MayEnterAt self.now number student.now choices.now) }
        ensures refused { IfErr result (λ refusal. Some refusal ≡ first_of (objections_to_enter self.now number
            student.now.siblings (schools_at (schools_of self.now) choices.now) student.now.continuing)) }
    {
        // This call tells that the papers are well-formed.
        prove!(self.students_len() <= MOST_STUDENTS);
        check_enter_at(
            self,
            number,
            student.siblings.as_slice(),
            choices.as_list(),
            student.continuing,
        )
    }

    /// Where the schools of the choices stand of a student who may enter, or the first refusal that applies.
    pub(crate) fn check_entry(
        &self,
        number: StudentNumber,
        student: &Student,
    ) -> Result<PositionList, Refusal>
        ensures may { IfOk result (λ choices. MayEnterAt self.now number student.now choices) }
        ensures choices { IfOk result (λ choices. schools_at (schools_of self.now) choices ≡ student.now.choices) }
        ensures refused { IfErr result (λ refusal. Some refusal ≡ first_of
            (objections_to_enter self.now number student.now.siblings student.now.choices student.now.continuing)) }
    {
        check_enter(
            self,
            number,
            student.siblings.as_slice(),
            student.choices.as_slice(),
            student.continuing,
        )?;
        Ok(self.entry_positions(number, student))
    }

    /// Where the schools of the choices stand of a student who may enter.
    pub(crate) fn entry_positions(&self, number: StudentNumber, student: &Student) -> PositionList
        requires { first_of (objections_to_enter self.now number student.now.siblings student.now.choices
            student.now.continuing) ≡ None }
        ensures may { MayEnterAt self.now number student.now result }
        ensures choices { schools_at (schools_of self.now) result ≡ student.now.choices }
    {
        PositionList::new(&self.positions, student.choices.as_slice())
    }

    /// Puts a student of this number, zone, siblings' schools and school at which they continue last in the order of entry,
    /// with the choices whose schools stand at these positions of the papers, or answers the first refusal that applies:
    /// those of `admit`, but for what it can say of the choices alone where there are some. After a refusal the papers are as
    /// before.
    ///
    /// The cost is a draw of the lottery, and a look-up for each school of a sibling and the one at which the student
    /// continues: none of the choices is looked up. It takes the memory that `admit` takes.
    pub fn admit_placed(
        &mut self,
        number: StudentNumber,
        zone: Zone,
        siblings: SchoolList,
        continuing: Option<SchoolNo>,
        choices: &ChosenPositions,
    ) -> Result<(), Refusal>
        requires { AreOfSchools self.old choices.now }
        ensures allowed { OnOk result (first_of (objections_to_enter self.old number siblings
            (schools_at (schools_of self.old) choices.now) continuing) ≡ None) }
        ensures entered { OnOk result (self.new ≡ with_student self.old number (record {
          zone = zone;
          continuing = continuing;
          siblings = siblings;
          choices = schools_at (schools_of self.old) choices.now;
        })) }
        ensures refused { IfErr result (IsRefusal (first_of (objections_to_enter self.old number siblings
            (schools_at (schools_of self.old) choices.now) continuing))) }
        ensures unchanged { OnErr result (self.new ≡ self.old) }
    {
        let student = Student {
            zone,
            siblings,
            choices: SchoolList::from_vec(Vec::new(self.allocator())),
            continuing,
        };
        self.check_entry_at(number, &student, choices)?;
        self.put_last(number, &student, choices.as_list())?;
        Ok(())
    }

    /// Puts the student last in the order of entry, or answers the first refusal that applies. After a refusal the
    /// papers are as before. No record of the student is kept, only what the papers tell of them.
    ///
    /// The refusals, in the order of the tests: `StudentExists` where the number is in the papers; `EmptyList` where
    /// there are no choices; `ListTooLong` where there are more than 20 choices, or more than 20 siblings;
    /// `UnknownSchool` where a school is not in the papers, of the choices, then of the siblings, then the one at which
    /// the student continues; `SchoolTwice` where the choices, and then the siblings, name a school twice; `RosterFull`
    /// where there are 200,000 students; and last `OutOfMemory`.
    ///
    /// The cost is the lengths of the lists, a look-up for each school named, and one draw of the lottery for a student
    /// who enters. It takes memory for the student alone, and none where `reserve` made room. Only where all numbers
    /// rose so far and this one is lower than the last, a table of them all is made.
    pub fn admit(&mut self, number: StudentNumber, student: Student) -> Result<(), Refusal>
        ensures allowed { OnOk result (first_of
            (objections_to_enter self.old number student.siblings student.choices student.continuing) ≡ None) }
        ensures entered { OnOk result (self.new ≡ with_student self.old number student) }
        ensures refused { IfErr result (IsRefusal
            (first_of (objections_to_enter self.old number student.siblings student.choices student.continuing))) }
        ensures unchanged { OnErr result (self.new ≡ self.old) }
    {
        let choices = self.check_entry(number, &student)?;
        self.put_last(number, &student, &choices)?;
        Ok(())
    }

    /// Puts a student who may enter, with the choices whose schools stand at these positions, last in the order of entry,
    /// with the one draw that they ever make. All growths come first, so a refused one leaves the papers as they were.
    pub(crate) fn put_last(
        &mut self,
        number: StudentNumber,
        student: &Student,
        choices: &PositionList,
    ) -> Result<(), AllocError>
        requires { MayEnterAt self.old number student.now choices.now }
        ensures { ChangesTo self.old self.new
            (with_student self.old number (with_choices_at self.old choices.now student.now)) result }
    {
        let choices = self.classed_list(student, choices);
        self.rows.reserve(1)?;
        let room = (self.rows.len() + 1).saturating_sub(self.siblings.len());
        self.siblings.reserve(room)?;
        let draw = self.lottery.draw(number);
        let row = StudentRow::new(number, draw, &choices, student);
        self.numbers.push(number)?;
        self.rows.push_reserved(row);
        keep_siblings(&mut self.siblings, &self.positions, number, student);
        Ok(())
    }
}
