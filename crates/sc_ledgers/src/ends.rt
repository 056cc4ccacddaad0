//! Where each turn of a run ended.

ghost use Rattle.std.specs.Prelude.{◌≡◌, ◌<◌, IfSome};
ghost use Rattle.sc_ledgers.specs.Ends.{place_told};

use std::alloc::{AllocError, Global};
use std::marker::Model;

/// What is kept of a turn that ended at no school: no position is so great.
pub(crate) const NOWHERE: u32 = u32::MAX;

/// Where each turn of a run ended: the position of the school, if it ended at one. Four bytes a turn.
#[derive(Drop)]
pub struct Ends {
    places: Vec<u32>,
}

impl Model for Ends {
    ghost use Rattle.std.specs.Prelude.{ℕ, List, Option, map};
    ghost use Rattle.sc_ledgers.specs.Ends.{place_told};

    ghost Value = { List (Option ℕ) };

    ghost view = { λ e. map place_told e.places.items };
}

/// What is kept of an end.
fn kept(end: Option<usize>) -> u32
    requires { IfSome end (λ place. place < NOWHERE) }
    ensures { place_told result ≡ end }
{
    match end {
        Some(place) => place as u32,
        None => NOWHERE,
    }
}

/// The end that is kept so.
fn told(place: u32) -> Option<usize>
    ensures { result ≡ place_told place }
{
    if place < NOWHERE {
        Some(place as usize)
    } else {
        None
    }
}

impl Ends {
    ghost use Rattle.std.specs.Prelude.{[], ◌++◌, ◌∷◌, IfOk, OnOk, None, get_or, length, remove, slice_set};

    /// Those of no turn, with room for so many. The only error is a refused growth.
    pub(crate) fn with_room(alloc: Global, count: usize) -> Result<Self, AllocError>
        ensures { IfOk result (λ ends. ends ≡ []) }
    {
        Ok(Ends {
            places: Vec::with_capacity(alloc, count)?,
        })
    }

    /// Where a turn ended.
    pub(crate) fn get(&self, turn: usize) -> Option<usize>
        requires { turn < length self.now }
        ensures { result ≡ get_or self.now turn None }
    {
        told(self.places[turn])
    }

    /// A turn that was taken anew ended there.
    pub(crate) fn set(&mut self, turn: usize, end: Option<usize>)
        requires within { turn < length self.old }
        requires few { IfSome end (λ place. place < NOWHERE) }
        ensures { self.new ≡ slice_set self.old turn end }
    {
        self.places[turn] = kept(end);
    }

    /// One turn more, which ended there. A refused growth changes nothing.
    pub(crate) fn push(&mut self, end: Option<usize>) -> Result<(), AllocError>
        requires few { IfSome end (λ place. place < NOWHERE) }
        ensures { OnOk result (self.new ≡ self.old ++ end ∷ []) }
    {
        self.places.push(kept(end))?;
        Ok(())
    }

    /// A turn goes, and those behind it move up. It takes no memory.
    pub(crate) fn remove(&mut self, turn: usize)
        requires within { turn < length self.old }
        ensures { self.new ≡ remove self.old turn }
    {
        let _ = self.places.remove(turn);
    }
}
