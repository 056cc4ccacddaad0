//! The students' numbers, and where each of them stands in the order of entry.

ghost use Rattle.std.specs.Prelude.{◌≡◌, ◌++◌, ◌∷◌, [], nat_eq, position};
ghost use Rattle.std.specs.Bool.{OnTrue};
ghost use Rattle.sc_papers.specs.Numbers.{Rise};

use crate::flat_papers::number_table::NumberTable;
use crate::flat_papers::order::{move_item, swap_items};
use crate::seeded_hash::SeededHash;
use sc_lottery::StudentNumber;
use std::alloc::{AllocError, Global};
use std::marker::Model;

/// The students' numbers in order of entry. Where each is greater than the one before they need no table.
#[derive(Drop)]
pub(crate) struct Numbers {
    kept: Kept,
    // Whether those of a list rise, so that a search finds one. Where they are moved or exchanged they may not any
    // longer, and no memory may be taken for a table there: from then on they are looked through. Papers that are
    // amended have a table from the first, so it does not come to that.
    rising: bool,
    // What a table hashes them by.
    hash: SeededHash,
}

/// How a number is found among others.
#[derive(Clone, Copy)]
pub(crate) enum Finding {
    /// By a search, as long as they rise.
    ByOrder,
    /// In a table.
    ByTable,
}

#[derive(Drop)]
enum Kept {
    Listed(Vec<StudentNumber>),
    Tabled(NumberTable),
}

impl Model for Numbers {
    ghost use Rattle.std.specs.Prelude.{◌≡◌, ℕ, true, List};
    ghost use Rattle.sc_papers.specs.Numbers.{numbers_of, ListRises};

    ghost Value = { List ℕ };

    ghost view = { λ n. numbers_of n.kept };

    ghost invariant = { λ n. n.rising ≡ true → ListRises n.kept };
}

/// Whether a number is greater than each of those that rise.
fn is_past(numbers: &[StudentNumber], number: StudentNumber) -> bool
    requires { Rise numbers.now }
    ensures { OnTrue result (Rise (numbers.now ++ number ∷ [])) }
{
    match numbers.last() {
        Some(last) => *last < number,
        None => true,
    }
}

/// Where a number stands among those that rise. No search is made for one that is greater than all.
fn position_in_rising(numbers: &[StudentNumber], number: StudentNumber) -> Option<usize>
    requires { Rise numbers.now }
    ensures { result ≡ position (nat_eq number) numbers.now }
{
    if is_past(numbers, number) {
        return None;
    }
    numbers.binary_search(&number).ok()
}

impl Numbers {
    ghost use Rattle.std.specs.Prelude.{◌≡◌, ◌<◌, ◌++◌, ◌∷◌, [], false, length, nat_eq, position, remove, swap, IfOk};
    ghost use Rattle.std.specs.List.{list_any};
    ghost use Rattle.indexmap.specs.IndexMap.{move_index};
    ghost use Rattle.sc_papers.specs.Change.{ChangesTo};

    /// No numbers. It takes no memory.
    pub(crate) fn new(finding: Finding, alloc: Global, hash: SeededHash) -> Self
        ensures { result ≡ [] }
    {
        let (kept, rising) = match finding {
            Finding::ByOrder => (Kept::Listed(Vec::new(alloc)), true),
            Finding::ByTable => (Kept::Tabled(NumberTable::new(alloc, hash)), false),
        };
        Numbers { kept, rising, hash }
    }

    /// Equal numbers, kept alike, or the error of a refused growth.
    pub(crate) fn copy(&self) -> Result<Self, AllocError>
        ensures { IfOk result (λ copy. copy ≡ self.now) }
    {
        let kept = match &self.kept {
            Kept::Listed(numbers) => Kept::Listed(numbers.clone()?),
            Kept::Tabled(table) => Kept::Tabled(table.clone()?),
        };
        Ok(Numbers {
            kept,
            rising: self.rising,
            hash: self.hash,
        })
    }

    /// Where a number stands. In constant time by a table, and for a number greater than all that rise; else by a
    /// search among those that rise, or by a pass over those that no longer do.
    pub(crate) fn position(&self, number: StudentNumber) -> Option<usize>
        ensures { result ≡ position (nat_eq number) self.now }
    {
        match &self.kept {
            Kept::Tabled(table) => table.position(number),
            Kept::Listed(numbers) => {
                if self.rising {
                    position_in_rising(numbers.as_slice(), number)
                } else {
                    numbers.iter().position(|other| *other == number)
                }
            }
        }
    }

    /// Makes room for so many more. The numbers stay, also where the growth is refused.
    pub(crate) fn reserve(&mut self, count: usize) -> Result<(), AllocError>
        ensures { self.new ≡ self.old }
    {
        match &mut self.kept {
            Kept::Listed(numbers) => numbers.reserve(count),
            Kept::Tabled(table) => table.reserve(count),
        }
    }

    /// Puts a number last that is not there. Where numbers rose and no longer do with this one, a table is made of all
    /// of them before anything changes, so a refused growth leaves everything as it was.
    pub(crate) fn push(&mut self, number: StudentNumber) -> Result<(), AllocError>
        requires { list_any (nat_eq number) self.old ≡ false }
        ensures { ChangesTo self.old self.new (self.old ++ number ∷ []) result }
    {
        match &mut self.kept {
            Kept::Tabled(table) => table.push(number)?,
            Kept::Listed(numbers) => {
                if self.rising && !is_past(numbers.as_slice(), number) {
                    let mut table = NumberTable::from_list(numbers, self.hash)?;
                    table.push(number)?;
                    self.kept = Kept::Tabled(table);
                    self.rising = false;
                } else {
                    numbers.push(number)?;
                }
            }
        }
        Ok(())
    }

    /// Makes a table of numbers that rise without one. A refused growth leaves them as they were.
    pub(crate) fn make_table(&mut self) -> Result<(), AllocError>
        ensures { self.new ≡ self.old }
    {
        if !self.rising {
            return Ok(());
        }
        if let Kept::Listed(numbers) = &self.kept {
            let table = NumberTable::from_list(numbers, self.hash)?;
            self.kept = Kept::Tabled(table);
            self.rising = false;
        }
        Ok(())
    }

    /// Moves the number at one position to another one, and those between by one position. It takes no memory.
    pub(crate) fn move_index(&mut self, from: usize, to: usize)
        requires from { from < length self.old }
        requires to { to < length self.old }
        ensures { self.new ≡ move_index self.old from to }
    {
        self.rising = false;
        match &mut self.kept {
            Kept::Listed(numbers) => move_item(numbers, from, to),
            Kept::Tabled(table) => table.move_index(from, to),
        }
    }

    /// Changes the numbers at two positions for one another. It takes no memory.
    pub(crate) fn swap(&mut self, a: usize, b: usize)
        requires a { a < length self.old }
        requires b { b < length self.old }
        ensures { self.new ≡ swap self.old a b }
    {
        self.rising = false;
        match &mut self.kept {
            Kept::Listed(numbers) => swap_items(numbers, a, b),
            Kept::Tabled(table) => table.swap(a, b),
        }
    }

    /// Removes the number at a position. Those behind it move up.
    pub(crate) fn remove(&mut self, position: usize)
        requires { position < length self.old }
        ensures { self.new ≡ remove self.old position }
    {
        match &mut self.kept {
            Kept::Listed(numbers) => {
                let _ = numbers.remove(position);
            }
            Kept::Tabled(table) => table.remove(position),
        }
    }
}
