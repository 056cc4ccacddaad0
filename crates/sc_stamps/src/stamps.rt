ghost use Rattle.std.specs.Prelude.{◌≡◌, ◌<◌, length, replicate, swap, IfOk, OnOk, OnErr};
ghost use Rattle.sc_stamps.specs.Stamps.{stamp_at, with_stamp, without_stamp};

use crate::marking::{Marking, marking_of};
use crate::record::{Record, record_of};
use sc_papers::{FlatPapers, Refusal, SchoolNo, Stamp, Stamped, StudentNo};
use std::alloc::{AllocError, Global};
use std::marker::Model;

/// The stamps of the records of papers, four bytes a record, and how many amendments were accepted.
///
/// They belong to papers that their owner keeps beside them, and lends to each call that reads them.
pub struct Stamps {
    accepted: Stamp,
    // Of each student, and of each school, in order of entry.
    students: Vec<Stamp>,
    schools: Vec<Stamp>,
}

impl Drop for Stamps {
    fn drop(self) {
        let Stamps {
            accepted: _,
            students: _,
            schools: _,
        } = self;
    }
}

impl Model for Stamps {
    ghost use Rattle.sc_stamps.specs.Stamps.{Stamps as AllStamps};

    ghost Value = { AllStamps };

    ghost view = { λ s. record { accepted = s.accepted; students = s.students.items; schools = s.schools.items } };
}

/// So many stamps of 0.
fn zeros(alloc: Global, count: usize) -> Result<Vec<Stamp>, AllocError>
    ensures { IfOk result (λ stamps. stamps.items ≡ replicate count 0) }
{
    Vec::from_elem(alloc, Stamp::ZERO, count)
}

/// The stamp at a position, 0 where there is none.
fn stamp_at(stamps: &Vec<Stamp>, position: Option<usize>) -> Stamp
    ensures { result ≡ stamp_at stamps.now.items position }
{
    match position {
        Some(position) if position < stamps.len() => stamps[position],
        _ => Stamp::ZERO,
    }
}

impl Stamps {
    ghost use Rattle.std.specs.Prelude.{◌≡◌, ◌<◌, length, IfOk, OnOk, OnErr};
    ghost use Rattle.sc_papers.specs.Verdict.{unless_refused};
    ghost use Rattle.sc_papers.specs.declared.stamp.TheConstants.Stamp.{GREATEST};
    ghost use Rattle.sc_stamps.specs.Record.{record_of};
    ghost use Rattle.sc_stamps.specs.Stamps.{Stamps as AllStamps, begun, finished, taken_back, no_stamps, stamp_of, with_swapped_stamps};
    ghost use Rattle.sc_stamps.specs.Verdict.{stamped_verdict};
    ghost use Rattle.sc_stamps.specs.declared.record.Record.TheVariants.{OfStudent, OfSchool};

    /// The stamps of papers that no amendment was accepted for: each is 0. The only error is want of memory.
    pub fn new(alloc: Global, papers: &FlatPapers) -> Result<Self, AllocError>
        ensures { IfOk result (λ stamps. stamps ≡ no_stamps papers.now) }
    {
        let students = zeros(alloc, papers.students_len())?;
        let schools = zeros(alloc, papers.schools_len())?;
        Ok(Stamps {
            accepted: Stamp::ZERO,
            students,
            schools,
        })
    }

    /// How many amendments were accepted: the stamp that the last of them gave.
    pub fn accepted(&self) -> Stamp
        ensures { result ≡ self.now.accepted }
    {
        self.accepted
    }

    /// The stamp of a student: 0 for one who is not in the papers. In constant time.
    pub fn of_student(&self, papers: &FlatPapers, student: StudentNo) -> Stamp
        ensures { result ≡ stamp_of papers.now self.now (OfStudent student) }
    {
        stamp_at(&self.students, papers.student_position(student))
    }

    /// The stamp of a school: 0 for one that is not in the papers. In constant time.
    pub fn of_school(&self, papers: &FlatPapers, school: SchoolNo) -> Stamp
        ensures { result ≡ stamp_of papers.now self.now (OfSchool school) }
    {
        stamp_at(&self.schools, papers.school_position(school))
    }

    /// The stamp of a record: 0 for one that is not in the papers. In constant time.
    pub fn of(&self, papers: &FlatPapers, whose: Record) -> Stamp
        ensures { result ≡ stamp_of papers.now self.now whose }
    {
        match whose {
            Record::OfStudent(student) => self.of_student(papers, student),
            Record::OfSchool(school) => self.of_school(papers, school),
        }
    }

    /// The first refusal that applies to a stamped amendment of the papers, but for want of memory: that of
    /// the papers first, as `FlatPapers::check` answers it, then `Stale` with the record's stamp, then `Spent`. It
    /// takes no memory.
    pub fn check(&self, papers: &FlatPapers, stamped: &Stamped) -> Result<(), Refusal>
        ensures { result ≡ unless_refused
            (stamped_verdict (record { papers = papers.now; stamps = self.now }) stamped.now) }
    {
        papers.check(&stamped.amendment)?;
        let stamp = self.of(papers, record_of(&stamped.amendment));
        if stamp != stamped.stamp {
            return Err(Refusal::Stale { stamp });
        }
        if self.accepted.get() >= Stamp::GREATEST {
            return Err(Refusal::Spent);
        }
        Ok(())
    }

    /// Makes ready for an amendment: a newcomer gets their stamp. The only error is want of memory, after which
    /// the stamps are as before.
    pub fn begin(&mut self, marking: Marking) -> Result<(), AllocError>
        requires { self.old.accepted < GREATEST }
        ensures begun { OnOk result (self.new ≡ begun marking self.old) }
        ensures unchanged { OnErr result (self.new ≡ self.old) }
    {
        if let (Marking::Newcomer, Some(next)) = (marking, self.accepted.next()) {
            self.students.push(next)?;
        }
        Ok(())
    }

    /// Takes back what `begin` made ready: of a newcomer the last student's stamp goes, if there is one. So
    /// after `begin` the stamps are as before it. It takes no memory.
    pub fn take_back(&mut self, marking: Marking)
        ensures taken_back { self.new ≡ taken_back marking self.old }
        ensures as_before { (before : AllStamps) → self.old ≡ begun marking before → self.new ≡ before }
    {
        if let Marking::Newcomer = marking {
            let _ = self.students.pop();
        }
    }

    /// Counts an amendment that was made ready and has been accepted, and gives its record the new stamp, or
    /// lets a stamp go with its student. It takes no memory.
    pub fn finish(&mut self, marking: Marking)
        requires { self.old.accepted < GREATEST }
        ensures { self.new ≡ finished marking self.old }
    {
        let Some(next) = self.accepted.next() else {
            unreachable!()
        };
        match marking {
            Marking::Newcomer => {}
            Marking::StudentLeaves(position) => remove(&mut self.students, position),
            Marking::StudentStays(position) => put(&mut self.students, position, next),
            Marking::School(position) => put(&mut self.schools, position, next),
        }
        self.accepted = next;
    }

    /// Changes the stamps of the students at two positions of the order of entry for one another, each from 0, where
    /// the papers do so with the students. It takes no memory and cannot fail. In constant time.
    pub fn swap_students(&mut self, a: usize, b: usize)
        requires a { a < length self.old.students }
        requires b { b < length self.old.students }
        ensures { self.new ≡ with_swapped_stamps self.old a b }
    {
        swap(&mut self.students, a, b);
    }
}

/// Changes the stamps at two positions for one another.
fn swap(stamps: &mut Vec<Stamp>, a: usize, b: usize)
    requires a { a < length stamps.old.items }
    requires b { b < length stamps.old.items }
    ensures { stamps.new.items ≡ swap stamps.old.items a b }
{
    stamps.swap(a, b);
}

/// Puts a stamp at a position, where there is one.
fn put(stamps: &mut Vec<Stamp>, position: Option<usize>, stamp: Stamp)
    ensures { stamps.new.items ≡ with_stamp stamps.old.items position stamp }
{
    if let Some(position) = position {
        if position < stamps.len() {
            stamps[position] = stamp;
        }
    }
}

/// Lets the stamp at a position go, where there is one. Those after it keep their order.
fn remove(stamps: &mut Vec<Stamp>, position: Option<usize>)
    ensures { stamps.new.items ≡ without_stamp stamps.old.items position }
{
    if let Some(position) = position {
        if position < stamps.len() {
            let _ = stamps.remove(position);
        }
    }
}
