//! What the papers tell of a student from the student's row alone, with no read of the student's record.

ghost use Rattle.std.specs.Prelude.{◌≡◌, ◌<◌, ◌==◌, length, position, nat_eq, slice_get};
ghost use Rattle.sc_papers.specs.Market.{choices_of, students_of, student_at};

use crate::classed_choice::ClassedChoice;
use crate::flat_papers::FlatPapers;
use crate::limits::MOST_STUDENTS;
use crate::school_no::SchoolNo;
use sc_lottery::StudentNumber;

/// The first rank at which the school at this position stands among the choices.
fn rank_of(choices: &[ClassedChoice], at: usize) -> Option<usize>
    ensures { result ≡ position (λ c. c.position == at) choices.now }
{
    choices.iter().position(|choice| choice.position() == at)
}

impl FlatPapers {
    /// A student's position in the order of entry, from 0, or `None` where the student is not in the papers. The
    /// guess changes nothing of the answer, and any number may be one. Where the student stands at the guess, that row
    /// alone is read, and else the number is looked up by `student_position`.
    pub fn student_position_near(&self, student: StudentNumber, guess: usize) -> Option<usize>
        ensures { result ≡ position (nat_eq student) (students_of self.now) }
    {
        // This call tells that the papers are well-formed: no number stands twice.
        prove!(self.students_len() <= MOST_STUDENTS);
        match self.student_at(guess) {
            Some(number) if number == student => Some(guess),
            _ => self.student_position(student),
        }
    }

    /// The choice at a rank, from 0, of the student at a position of the order of entry, from 0; `None` past the
    /// last choice. In constant time, without a look-up by number: the student's row is read, and the school.
    #[inline]
    pub fn choice_at(&self, student: usize, rank: usize) -> Option<SchoolNo>
        requires { student < length self.now.students }
        ensures { result ≡ slice_get (choices_of self.now (student_at self.now student)) rank }
    {
        let choice = self.classed_choices_at(student).get(rank)?;
        self.school_at(choice.position())
    }

    /// The rank, from 0, of a school among the choices of the student at a position of the order of entry, from 0;
    /// `None` where it is not among them, as a school that is not in the papers never is. The cost is one look-up
    /// of the school in a table by number, and a pass over the student's row.
    pub fn choice_rank_at(&self, student: usize, school: SchoolNo) -> Option<usize>
        requires { student < length self.now.students }
        ensures { result ≡ position (λ s. s == school) (choices_of self.now (student_at self.now student)) }
    {
        let choices = self.classed_choices_at(student);
        rank_of(choices, self.school_position(school)?)
    }
}
