//! The standing assignment, with how many students have each school.

ghost use Rattle.std.specs.Prelude.{◌≡◌, ℕ, ◌+◌, ◌-◌, ◌^◌, ◌<◌, ◌≤◌, ◌&&◌, None, is_some, length, take, nat_eq};
ghost use Rattle.std.specs.Prelude.{slice_set, get_or, if◌then◌else◌, IfOk, OnOk, OnErr, List};
ghost use Rattle.sc_papers.specs.Assignment.{assigned, holders, with_place};
ghost use Rattle.sc_papers.specs.declared.school_no.TheConstants.SchoolNo.{GREATEST as greatest_school};
ghost use Rattle.sc_repair.specs.Places.{AreCounts};

use crate::pair_hints::PairHints;
use sc_papers::{Assignment, FlatPapers, SchoolNo, StudentNo};
use std::alloc::{AllocError, Global};
use std::marker::Model;
use std::ops::Deref;

/// An assignment that knows how many students have each school.
pub(crate) struct Places {
    assignment: Assignment,
    // By the number of the school.
    counts: Vec<usize>,
    // Where the students' pairs may stand in the assignment, by their positions in the order of entry.
    hints: PairHints,
}

impl Drop for Places {
    fn drop(self) {
        let Places {
            assignment: _,
            counts: _,
            hints: _,
        } = self;
    }
}

impl Model for Places {
    ghost Value = { List (ℕ × ℕ) };

    ghost view = { λ p. p.assignment };

    ghost invariant = { λ p. AreCounts p.assignment p.counts.items };
}

impl Deref for Places {
    type Target = Assignment;

    /// The assignment, lent.
    fn deref(&self) -> &Assignment
        ensures { result.now ≡ self.now }
    {
        &self.assignment
    }
}

/// Counts one more at the school.
fn count_one(counts: &mut Vec<usize>, school: SchoolNo)
    requires long { greatest_school < length counts.old.items }
    requires fits { school ≤ greatest_school → get_or counts.old.items school 0 + 1 < 2 ^ 64 }
    ensures within { school ≤ greatest_school }
    ensures counted { counts.new.items ≡ slice_set counts.old.items school (get_or counts.old.items school 0 + 1) }
{
    let number = school.get() as usize;
    counts[number] += 1;
}

/// Counts one less at the school.
fn uncount_one(counts: &mut Vec<usize>, school: SchoolNo)
    requires long { greatest_school < length counts.old.items }
    requires some { school ≤ greatest_school → 0 < get_or counts.old.items school 0 }
    ensures within { school ≤ greatest_school }
    ensures counted { counts.new.items ≡ slice_set counts.old.items school (get_or counts.old.items school 0 - 1) }
{
    let number = school.get() as usize;
    counts[number] -= 1;
}

/// How many counts there are: one for each number that a school may have, and one for 0, which none has.
fn counts_len() -> usize
    ensures { greatest_school < result }
{
    SchoolNo::GREATEST as usize + 1
}

/// The counts of an assignment.
fn counts_of(alloc: Global, assignment: &Assignment) -> Result<Vec<usize>, AllocError>
    ensures { IfOk result (λ counts. AreCounts assignment.now counts.items) }
{
    let mut counts = Vec::from_elem(alloc, 0, counts_len())?;
    for position in 0..assignment.len() {
        let Some(pair) = assignment.at(position) else {
            unreachable!()
        };
        count_one(&mut counts, pair.1);
    }
    Ok(counts)
}

/// Takes the pairs from a position on out of the counts.
fn uncount_from(counts: &mut Vec<usize>, assignment: &Assignment, from: usize)
    requires within { from ≤ length assignment.now }
    requires counts { AreCounts assignment.now counts.old.items }
    ensures { AreCounts (take from assignment.now) counts.new.items }
{
    let mut left = assignment.len();
    while from < left {
        left -= 1;
        let Some(pair) = assignment.at(left) else {
            unreachable!()
        };
        uncount_one(counts, pair.1);
    }
}

impl Places {
    /// The places of an assignment of the papers. The only error is want of memory. The cost is one pass over the
    /// students.
    pub(crate) fn of(
        alloc: Global,
        papers: &FlatPapers,
        assignment: Assignment,
    ) -> Result<Self, AllocError>
        ensures { IfOk result (λ places. places ≡ assignment) }
    {
        let counts = counts_of(alloc, &assignment)?;
        let hints = PairHints::of(alloc, papers, &assignment)?;
        Ok(Places {
            assignment,
            counts,
            hints,
        })
    }

    /// How many students have the school. In constant time.
    pub(crate) fn held(&self, school: SchoolNo) -> usize
        ensures { result ≡ holders self.now school }
    {
        self.counts[school.get() as usize]
    }

    /// What `get` says of a student who often stands at this position of the order of entry: then mostly no number is
    /// looked up.
    pub(crate) fn get_near(&self, student: StudentNo, at: usize) -> Option<SchoolNo>
        ensures { result ≡ assigned self.now student }
    {
        self.assignment.get_near(student, self.hints.guess(at))
    }

    /// Gives a student who has none the school, at the end of the order. The student stands at this position of the order
    /// of entry, or may be looked up by number later on. A refused growth changes nothing.
    pub(crate) fn put(
        &mut self,
        student: StudentNo,
        at: usize,
        school: SchoolNo,
    ) -> Result<(), AllocError>
        requires unplaced { assigned self.old student ≡ None }
        ensures put { OnOk result (self.new ≡ with_place self.old student school) }
        ensures unchanged { OnErr result (self.new ≡ self.old) }
    {
        let pair = self.assignment.len();
        self.assignment.put(student, school)?;
        // This call tells that the pairs can be counted.
        prove!(self.assignment.len() <= usize::MAX);
        count_one(&mut self.counts, school);
        self.hints.note(at, pair);
        Ok(())
    }

    /// Gives a student who has a school another one, or none; one who has none stays without. It takes no memory.
    /// In constant time. One who often stands at this position of the order of entry, and has the school by now, is
    /// mostly not looked up by number.
    pub(crate) fn move_near(&mut self, student: StudentNo, at: usize, school: Option<SchoolNo>)
        ensures moved { (j : ℕ)
            → assigned self.new j
            ≡ (if nat_eq j student && is_some (assigned self.old j) then school else assigned self.old j) }
    {
        let before = self.assignment.get_near(student, self.hints.guess(at));
        if before == school {
            return;
        }
        self.assignment.move_to(student, school);
        let Some(from) = before else {
            return;
        };
        uncount_one(&mut self.counts, from);
        if let Some(to) = &school {
            prove!(self.assignment.len() <= usize::MAX);
            count_one(&mut self.counts, *to);
        }
    }

    /// The student at a position leaves the order of entry: whoever stands behind moves up by one. No place changes.
    pub(crate) fn leave(&mut self, position: usize)
        ensures { self.new ≡ self.old }
    {
        self.hints.leave(position);
    }

    /// Keeps the first pairs of the order, so many of them, and takes the others away. It takes no memory; the cost is
    /// their number.
    pub(crate) fn truncate(&mut self, count: usize)
        ensures { self.new ≡ take count self.old }
    {
        if count < self.assignment.len() {
            uncount_from(&mut self.counts, &self.assignment, count);
            self.assignment.truncate(count);
        }
    }
}
