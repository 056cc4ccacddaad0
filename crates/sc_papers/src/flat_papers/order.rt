//! Students who move in the order of entry, and those who leave it.

ghost use Rattle.std.specs.Prelude.{◌≡◌, ◌<◌, length, nat_eq, position, swap};
ghost use Rattle.indexmap.specs.IndexMap.{move_index};

use crate::flat_papers::FlatPapers;
use sc_lottery::StudentNumber;

/// Moves what stands at one position to another one, and what stands between by one position.
pub(crate) fn move_item<T: Drop>(items: &mut Vec<T>, from: usize, to: usize)
    requires from { from < length items.old.items }
    requires to { to < length items.old.items }
    ensures { items.new.items ≡ move_index items.old.items from to }
{
    let item = items.remove(from);
    // There is room where an item was just taken out.
    if items.insert(to, item).is_err() {
        unreachable!()
    }
}

/// Changes what stands at two positions for one another.
pub(crate) fn swap_items<T: Drop>(items: &mut Vec<T>, a: usize, b: usize)
    requires a { a < length items.old.items }
    requires b { b < length items.old.items }
    ensures { items.new.items ≡ swap items.old.items a b }
{
    items.swap(a, b);
}

impl FlatPapers {
    ghost use Rattle.sc_papers.specs.EntryOrder.{with_moved_student, with_swapped_students};
    ghost use Rattle.sc_papers.specs.Market.{students_of};
    ghost use Rattle.sc_papers.specs.Verdict.{without_student};

    /// Moves the student at one position of the order of entry to another one, each from 0; those between move
    /// by one position. It takes no memory and cannot fail. The cost is that of the shift.
    pub(crate) fn move_student(&mut self, from: usize, to: usize)
        requires from { from < length self.old.students }
        requires to { to < length self.old.students }
        ensures { self.new ≡ with_moved_student self.old from to }
    {
        self.numbers.move_index(from, to);
        self.rows.move_index(from, to);
    }

    /// Changes the students at two positions of the order of entry for one another, each from 0; all others stay where
    /// they are. It takes no memory and cannot fail. In constant time.
    pub(crate) fn swap_students(&mut self, a: usize, b: usize)
        requires a { a < length self.old.students }
        requires b { b < length self.old.students }
        ensures { self.new ≡ with_swapped_students self.old a b }
    {
        self.numbers.swap(a, b);
        self.rows.swap(a, b);
    }

    /// Removes a student, and the student's draw, and answers the position of the order of entry at which the student
    /// stood; the number of nobody changes nothing. The others keep their order and their draws. It takes no memory and
    /// cannot fail. The cost is that of the shifts behind the student, with an order of the rows of four bytes a student
    /// each, and of passes over as much that note who has moved up and which row. The last student costs none, where
    /// nobody has gone or moved since the student entered.
    pub(crate) fn withdraw(&mut self, student: StudentNumber) -> Option<usize>
        ensures left { self.new ≡ without_student self.old student }
        ensures position { result ≡ position (nat_eq student) (students_of self.old) }
    {
        let position = self.numbers.position(student)?;
        self.numbers.remove(position);
        self.rows.remove(position);
        let _ = self.siblings.swap_remove(&student);
        Some(position)
    }
}
