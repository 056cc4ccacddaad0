//! Where students stand, by their positions.

ghost use Rattle.std.specs.Prelude.{◌≡◌, ℕ, ◌+◌, ◌<◌, ◌≤◌, None, Some, length, slice_index_or, slice_set, IfOk, OnOk};

use sc_papers::LONGEST_LIST;
use std::alloc::{AllocError, Global};
use std::marker::Model;

/// By position of the student in the order of entry: the rank in the choices at which the student stands, if they have
/// entered.
#[derive(Drop)]
pub(crate) struct RankTable {
    ranks: Vec<Option<u8>>,
}

impl Model for RankTable {
    ghost use Rattle.std.specs.Prelude.{List, Option, ℕ};

    ghost Value = { List (Option ℕ) };

    ghost view = { λ r. r.ranks.items };
}

/// Makes room for a position. Nobody stands there yet, nor at those that come before it.
fn make_room(ranks: &mut Vec<Option<u8>>, at: usize) -> Result<(), AllocError>
    ensures room { OnOk result (at < length ranks.new.items) }
    ensures same { (k : ℕ) → slice_index_or ranks.new.items k None ≡ slice_index_or ranks.old.items k None }
    ensures within { OnOk result ((n : ℕ) → at < n → length ranks.old.items ≤ n → length ranks.new.items ≤ n) }
{
    if ranks.len() < at {
        ranks.resize(at, None)?;
    }
    if ranks.len() == at {
        ranks.push(None)?;
    }
    Ok(())
}

/// The rank at a position, none past the end.
pub(crate) fn rank_or_none(ranks: &[Option<u8>], at: usize) -> Option<u8>
    ensures { result ≡ slice_index_or ranks.now at None }
{
    match ranks.get(at) {
        Some(rank) => *rank,
        None => None,
    }
}

impl RankTable {
    ghost use Rattle.std.specs.Prelude.{[], is_some, replicate, true};

    /// Nobody stands anywhere. Memory is taken for so many students. The only error is want of memory.
    pub(crate) fn with_room(alloc: Global, students: usize) -> Result<Self, AllocError>
        ensures { IfOk result (λ ranks. ranks ≡ []) }
    {
        Ok(RankTable {
            ranks: Vec::with_capacity(alloc, students)?,
        })
    }

    /// The ranks, lent.
    pub(crate) fn as_slice(&self) -> &[Option<u8>]
        ensures value { result.now ≡ self.now }
        ensures len { length result.now ≡ length self.now }
    {
        self.ranks.as_slice()
    }

    /// Makes room for a position. Nobody stands there yet, nor at those that come before it.
    pub(crate) fn make_room(&mut self, at: usize) -> Result<(), AllocError>
        ensures room { OnOk result (at < length self.new) }
        ensures same { OnOk result ((k : ℕ) → slice_index_or self.new k None ≡ slice_index_or self.old k None) }
        ensures within { OnOk result ((n : ℕ) → at < n → length self.old ≤ n → length self.new ≤ n) }
    {
        make_room(&mut self.ranks, at)?;
        Ok(())
    }

    /// Makes the student at the position stand at a rank.
    pub(crate) fn put(&mut self, at: usize, rank: u8)
        requires { at < length self.old }
        ensures { self.new ≡ slice_set self.old at (Some rank) }
    {
        self.ranks[at] = Some(rank);
    }

    /// Makes so many students stand at their first choices, and nobody else stand anywhere.
    pub(crate) fn put_everybody(&mut self, students: usize) -> Result<(), AllocError>
        ensures { OnOk result (self.new ≡ replicate students (Some 0)) }
    {
        self.ranks.clear();
        self.ranks.resize(students, Some(0))?;
        Ok(())
    }

    /// The student at the position moves on to the next rank of their choices.
    pub(crate) fn move_on(&mut self, at: usize)
        requires { (rank : ℕ) → slice_index_or self.old at None ≡ Some rank → rank < LONGEST_LIST }
        ensures { (rank : ℕ) → slice_index_or self.old at None ≡ Some rank
            → self.new ≡ slice_set self.old at (Some (rank + 1)) }
    {
        if let Some(Some(rank)) = self.ranks.get(at).copied() {
            self.ranks[at] = Some(rank + 1);
        }
    }

    /// Makes the student at the position, who stands somewhere, stand at a rank. It takes no memory.
    pub(crate) fn move_to(&mut self, at: usize, rank: u8)
        requires { is_some (slice_index_or self.old at None) ≡ true }
        ensures { self.new ≡ slice_set self.old at (Some rank) }
    {
        self.ranks[at] = Some(rank);
    }
}
