//! A student who leaves the papers, and whose turn goes with them.

ghost use Rattle.std.specs.Prelude.{◌≡◌, ◌<◌, ◌^◌, length, remove};
ghost use Rattle.sc_papers.specs.Market.{Market};
ghost use Rattle.sc_ledgers.specs.Course.{labels_of};
ghost use Rattle.sc_ledgers.specs.Left.{AreWithout};

use crate::ledger::Ledger;
use crate::opened::Ledgers;

/// The turns behind a position go down by one in each school's ledger. It takes no memory.
fn leave_each(ledgers: &mut Vec<Ledger>, position: u32)
    ensures one_each { length ledgers.new.items ≡ length ledgers.old.items }
    ensures without { (m : Market) → AreWithout position (labels_of m ledgers.old.items) (labels_of m ledgers.new.items) }
{
    for ledger in ledgers.iter_mut() {
        ledger.leave(position);
    }
}

/// The turn at a position goes, and those behind it go down by one, as the student there has left the papers. It takes no memory.
pub fn leave(ledgers: &mut Ledgers, position: usize)
    requires within { position < length ledgers.old.ends }
    requires few { position < 2 ^ 32 }
    ensures one_each { length ledgers.new.schools.items ≡ length ledgers.old.schools.items }
    ensures without { (m : Market) → AreWithout position (labels_of m ledgers.old.schools.items) (labels_of m ledgers.new.schools.items) }
    ensures ends { ledgers.new.ends ≡ remove ledgers.old.ends position }
{
    leave_each(&mut ledgers.schools, position as u32);
    ledgers.ends.remove(position);
}
