//! What a proposal takes from the papers.

ghost use Rattle.std.specs.Prelude.{◌≡◌, ◌<◌, length, nat_eq, position, slice_get, IfSome, Some};
ghost use Rattle.std.specs.Option.{option_map};
ghost use Rattle.sc_papers.specs.Key.{key_of};
ghost use Rattle.sc_papers.specs.Market.{choices_of, schools_of, student_at};

use crate::flat_papers::FlatPapers;
use crate::key::Key;
use crate::school_no::SchoolNo;

/// One choice of a student: the school, its position in the order of entry, and the student's key there.
#[derive(Clone, Copy, Debug, PartialEq, Eq)]
pub struct Proposal {
    pub school: SchoolNo,
    pub position: usize,
    pub key: Key,
}

impl FlatPapers {
    /// The choice at a rank, from 0, of the student at a position of the order of entry, from 0; `None` past the
    /// last choice. In constant time, without a look-up by number; no draw is made.
    #[inline]
    pub fn proposal(&self, student: usize, rank: usize) -> Option<Proposal>
        requires { student < length self.now.students }
        ensures school { option_map (λ p. p.school) result
            ≡ slice_get (choices_of self.now (student_at self.now student)) rank }
        ensures position { IfSome result (λ p. position (nat_eq p.school) (schools_of self.now) ≡ Some p.position) }
        ensures key { IfSome result (λ p. p.key ≡ key_of self.now (student_at self.now student) p.school) }
    {
        let row = self.row_at(student);
        let choice = row.choices().get(rank)?;
        let position = choice.position();
        let Some(school) = self.school_at(position) else {
            unreachable!()
        };
        Some(Proposal {
            school,
            position,
            key: Key {
                class: choice.class(),
                student: row.number(),
                draw: row.draw(),
            },
        })
    }
}
