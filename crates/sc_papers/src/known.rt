//! What the papers hold of students and schools that are known to be in them.

ghost use Rattle.std.specs.Prelude.{◌≡◌, ◌<◌, true, length, position, nat_eq, Some};
ghost use Rattle.sc_papers.specs.Key.{key_of};
ghost use Rattle.sc_papers.specs.Market.{is_school, schools_of, student_at};

use crate::flat_papers::FlatPapers;
use crate::key::Key;
use crate::school_no::SchoolNo;

impl FlatPapers {
    /// The position of a school of the papers, and the key at it of the student at a position, both of
    /// the orders of entry and from 0. The student need not list the school. In constant time, with one
    /// look-up by number; no draw is made.
    pub fn position_and_key(&self, student: usize, school: SchoolNo) -> (usize, Key)
        requires student { student < length self.now.students }
        requires school { is_school self.now school ≡ true }
        ensures position { position (nat_eq school) (schools_of self.now) ≡ Some result.0 }
        ensures key { result.1 ≡ key_of self.now (student_at self.now student) school }
    {
        let Some(position) = self.school_position(school) else {
            unreachable!()
        };
        let Some(key) = self.key_at(student, position) else {
            unreachable!()
        };
        (position, key)
    }
}
