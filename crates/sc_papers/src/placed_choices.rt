//! Where the schools of a student's choices stand, found in the one pass that tests them.

ghost use Rattle.std.specs.Prelude.{◌≡◌, ◌≤◌, ◌<◌, ◌==◌, ◌++◌, false, [], ◌∷◌, length, None};
ghost use Rattle.std.specs.Bool.{OnTrue};
ghost use Rattle.std.specs.List.{list_any};
ghost use Rattle.sc_papers.specs.Market.{schools_of};
ghost use Rattle.sc_papers.specs.Placed.{may_choose, schools_at, AreOfSchools};
ghost use Rattle.sc_papers.specs.Verdict.{first_repeat};

use crate::flat_papers::FlatPapers;
use crate::limits::{LONGEST_LIST, MOST_SCHOOLS, MOST_STUDENTS};
use crate::position_list::PositionList;
use crate::school_no::SchoolNo;
use std::marker::Model;

/// Where the schools of a student's choices stand in the papers' order of entry, best choice first: 20 at most, and none
/// twice. They take no memory.
#[derive(Drop)]
pub struct ChosenPositions {
    list: PositionList,
}

impl Model for ChosenPositions {
    ghost use Rattle.std.specs.Prelude.{◌≡◌, ℕ, List, [], None};
    ghost use Rattle.sc_papers.specs.Verdict.{first_repeat};

    ghost Value = { List ℕ };

    ghost view = { λ c. c.list };

    ghost invariant = { λ c. first_repeat [] c.list ≡ None };
}

impl ChosenPositions {
    /// Adds a position last that is not one of them.
    fn push(&mut self, position: u16)
        requires room { length self.old < LONGEST_LIST }
        requires once { list_any (λ p. p == position) self.old ≡ false }
        ensures { self.new ≡ self.old ++ position ∷ [] }
    {
        self.list.push(position);
    }

    /// The positions, which are few and differ.
    pub(crate) fn as_list(&self) -> &PositionList
        ensures list { result.now ≡ self.now }
        ensures short { length self.now ≤ LONGEST_LIST }
        ensures once { first_repeat [] self.now ≡ None }
    {
        // This call tells that a list is short.
        prove!(self.list.as_slice().len() <= LONGEST_LIST);
        &self.list
    }
}

/// The choices of a student as a list names them, each school placed by the papers and tested in one pass.
///
/// They are named one after the other, and take no memory.
#[derive(Drop)]
pub struct PlacedChoices {
    chosen: ChosenPositions,
    // Each list has a turn, and a position keeps that of the list in which it was chosen last: so a position is looked for
    // in one place, and nothing is cleared between two lists.
    turn: u8,
    last_turns: [u8; MOST_SCHOOLS],
}

impl Model for PlacedChoices {
    ghost use Rattle.std.specs.Prelude.{ℕ, List};
    ghost use Rattle.sc_papers.specs.Placed.{AreLastTurns};

    ghost Value = { List ℕ };

    ghost view = { λ p. p.chosen };

    ghost invariant = { λ p. AreLastTurns p.last_turns p.turn p.chosen };
}

impl PlacedChoices {
    /// No choices yet.
    pub fn new() -> Self
        ensures { result ≡ [] }
    {
        PlacedChoices {
            chosen: ChosenPositions {
                list: PositionList::default(),
            },
            turn: 1,
            last_turns: [0; MOST_SCHOOLS],
        }
    }

    /// Forgets all choices. In constant time, but for one call in 255.
    pub fn clear(&mut self)
        ensures { self.new ≡ [] }
    {
        self.chosen.list.clear();
        if self.turn < u8::MAX {
            self.turn += 1;
        } else {
            self.last_turns = [0; MOST_SCHOOLS];
            self.turn = 1;
        }
    }

    /// Whether the school at a position is chosen.
    #[inline(always)]
    fn has(&self, position: u16) -> bool
        requires { position < MOST_SCHOOLS }
        ensures { result ≡ list_any (λ p. p == position) self.now }
    {
        self.last_turns[position as usize] == self.turn
    }

    /// Adds a school last, and says whether it did: the school is in the papers, it is not chosen yet, and there are
    /// fewer than 20 choices. In constant time.
    ///
    /// It is taken into the loop that reads a list.
    #[inline(always)]
    pub fn push(&mut self, papers: &FlatPapers, school: SchoolNo) -> bool
        ensures may { result ≡ may_choose papers.now self.old school }
        ensures added { OnTrue result (schools_at (schools_of papers.now) self.new
            ≡ schools_at (schools_of papers.now) self.old ++ school ∷ []) }
        ensures within { OnTrue result (AreOfSchools papers.now self.old → AreOfSchools papers.now self.new) }
    {
        // This call tells that the papers are within their limits.
        prove!(papers.students_len() <= MOST_STUDENTS);
        let Some(position) = papers.position_of(school) else {
            return false;
        };
        if self.chosen.as_list().as_slice().len() >= LONGEST_LIST || self.has(position) {
            return false;
        }
        self.last_turns[position as usize] = self.turn;
        self.chosen.push(position);
        true
    }

    /// Adds the schools of a list, in its order, and says whether it did. Otherwise some of them may have been added.
    pub fn push_all(&mut self, papers: &FlatPapers, list: &[SchoolNo]) -> bool
        ensures added { OnTrue result (schools_at (schools_of papers.now) self.new
            ≡ schools_at (schools_of papers.now) self.old ++ list.now) }
        ensures within { OnTrue result (AreOfSchools papers.now self.old → AreOfSchools papers.now self.new) }
    {
        for school in list {
            if !self.push(papers, *school) {
                return false;
            }
        }
        true
    }

    /// Where the schools stand.
    pub fn chosen(&self) -> &ChosenPositions
        ensures { result.now ≡ self.now }
    {
        &self.chosen
    }
}
