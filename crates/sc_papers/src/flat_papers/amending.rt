//! What an amendment changes of a student or a school of the papers.

use crate::count::Count;
use crate::flat_papers::FlatPapers;
use crate::position_list::{PositionList, keep_siblings};
use crate::records::Student;
use crate::school_no::SchoolNo;
use crate::seats::Seats;
use crate::student_row::StudentRow;
use sc_lottery::StudentNumber;

impl FlatPapers {
    ghost use Rattle.std.specs.Prelude.{◌≡◌, ◌+◌, ◌-◌, ◌≤◌, None, Some, nat_eq, position};
    ghost use Rattle.sc_papers.specs.Market.{seats_of, students_of};
    ghost use Rattle.sc_papers.specs.Verdict.{changed_student, first_of, objections_to_add, objections_to_close, with_seats};
    ghost use Rattle.sc_papers.specs.WellFormed.{IsProper, IsShort};

    /// Puts what a student's record holds in the place of what the papers hold of the student, who stands at this
    /// position of the order of entry. It takes no memory.
    pub(crate) fn put_student(&mut self, number: StudentNumber, at: usize, student: &Student)
        requires stands { position (nat_eq number) (students_of self.old) ≡ Some at }
        requires proper { IsProper self.old student.now }
        requires short { IsShort student.now }
        ensures { self.new ≡ changed_student self.old number (λ _. student.now) }
    {
        let draw = self.rows.at(at).draw();
        let positions = PositionList::new(&self.positions, student.choices.as_slice());
        let choices = self.classed_list(student, &positions);
        let row = StudentRow::new(number, draw, &choices, student);
        let _ = self.rows.replace(at, row);
        // This call tells that no number stands twice.
        let _ = self.siblings.len();
        keep_siblings(&mut self.siblings, &self.positions, number, student);
    }

    /// Gives a school these seats.
    fn put_seats(&mut self, number: SchoolNo, seats: Seats)
        requires { seats ≤ Seats.GREATEST }
        ensures { self.new ≡ with_seats self.old number seats }
    {
        if let Some(school) = self.schools.get_mut(&number) {
            school.seats = seats;
        }
    }

    /// Gives a school so many seats more.
    #[tactic(auto, unfolding(crate::specs::Market::seats_of))]
    pub(crate) fn add_seats(&mut self, number: SchoolNo, count: Count)
        requires { first_of (objections_to_add self.old number count) ≡ None }
        ensures { self.new ≡ with_seats self.old number (seats_of self.old number + count) }
    {
        let before = self.seats_of(number);
        if let Some(seats) = Seats::new(before.get() + count.get()) {
            self.put_seats(number, seats);
        }
    }

    /// Takes so many seats of a school away.
    pub(crate) fn close_seats(&mut self, number: SchoolNo, count: Count)
        requires { first_of (objections_to_close self.old number count) ≡ None }
        ensures { self.new ≡ with_seats self.old number (seats_of self.old number - count) }
    {
        let before = self.seats_of(number);
        if let Some(seats) = Seats::new(before.get() - count.get()) {
            self.put_seats(number, seats);
        }
    }
}
