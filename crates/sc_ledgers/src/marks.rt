//! Marked schools: those at which somebody stands in one run and another student, or nobody, in the other.

ghost use Rattle.sc_papers.specs.Market.{schools_of};

use crate::elsewhere::Stance;
use sc_papers::{FlatPapers, Rejection, SchoolNo};
use std::alloc::{AllocError, Global};
use std::marker::Model;

/// The marked schools, by their positions.
#[derive(Drop)]
pub struct Marks {
    // One that is marked throughout.
    always: Option<usize>,
    // The marked ones.
    places: Vec<usize>,
    // By position.
    flags: Vec<bool>,
}

impl Model for Marks {
    ghost use Rattle.sc_ledgers.specs.Marks.{CoverFlags, Marking};

    ghost Value = { Marking };

    ghost view = { λ m. record { always = m.always; flags = m.flags.items } };

    ghost invariant = { λ m. CoverFlags m.always m.places.items m.flags.items };
}

impl Marks {
    ghost use Rattle.std.specs.Prelude.{◌≡◌, ◌<◌, ℕ, Bool, nat_eq, position, slice_set, IfOk, Some, All, Contains, IfSome, OnOk, get_or, length, true, false};
    ghost use Rattle.sc_ledgers.specs.Marks.{FlagsPass, IsNamed, marked_in, MarksFollow, MarksMore};
    ghost use Rattle.sc_papers.specs.Market.{schools_of};

    /// No school of so many marked but one, if it is named: that one is marked throughout. The only error is a refused growth.
    pub fn new(alloc: Global, schools: usize, always: Option<usize>) -> Result<Self, AllocError>
        requires within { IfSome always (λ p. p < schools) }
        ensures always { IfOk result (λ marks. marks.always ≡ always) }
        ensures one_each { IfOk result (λ marks. length marks.flags ≡ schools) }
        ensures marked { IfOk result (λ marks. IfSome always (λ p. get_or marks.flags p false ≡ true)) }
        ensures passes { IfOk result (λ marks. (test : ℕ → Bool) → IfSome always (λ p. test p ≡ true) → FlagsPass test marks.flags) }
    {
        let mut marks = Marks {
            always,
            places: Vec::new(alloc),
            flags: Vec::from_elem(alloc, false, schools)?,
        };
        marks.mark_always()?;
        Ok(marks)
    }

    /// About how many schools are marked: no clause says anything of it.
    pub(crate) fn count(&self) -> usize {
        self.places.len()
    }

    /// Whether the school at a position is marked.
    pub fn has(&self, place: usize) -> bool
        ensures { result ≡ get_or self.now.flags place false }
    {
        self.flags.get(place).copied().unwrap_or(false)
    }

    /// Marks the school at a position.
    fn mark(&mut self, place: usize) -> Result<(), AllocError>
        requires within { place < length self.old.flags }
        ensures always { self.new.always ≡ self.old.always }
        ensures marked { OnOk result (self.new.flags ≡ slice_set self.old.flags place true) }
    {
        if !self.flags[place] {
            self.places.push(place)?;
            self.flags[place] = true;
        }
        Ok(())
    }

    /// Marks the school that is marked throughout, if there is one.
    fn mark_always(&mut self) -> Result<(), AllocError>
        ensures more { OnOk result (MarksMore self.old self.new) }
        ensures marked { OnOk result (IfSome self.old.always (λ p. get_or self.new.flags p false ≡ true)) }
        ensures passes { OnOk result ((test : ℕ → Bool) → IfSome self.old.always (λ p. test p ≡ true)
            → FlagsPass test self.old.flags → FlagsPass test self.new.flags) }
    {
        let Some(place) = self.always else {
            return Ok(());
        };
        self.mark(place)
    }

    /// Marks a school, if there is one.
    fn mark_school(
        &mut self,
        papers: &FlatPapers,
        school: Option<SchoolNo>,
    ) -> Result<(), AllocError>
        requires one_each { length self.old.flags ≡ length papers.now.schools }
        requires known { IfSome school (λ s. Contains (schools_of papers.now) s) }
        ensures more { OnOk result (MarksMore self.old self.new) }
        ensures marked { OnOk result (IfSome school (λ s. marked_in papers.now self.new.flags s ≡ true)) }
        ensures passes { OnOk result ((test : ℕ → Bool)
            → IfSome school (λ s. (p : ℕ) → position (nat_eq s) (schools_of papers.now) ≡ Some p → test p ≡ true)
            → FlagsPass test self.old.flags → FlagsPass test self.new.flags) }
    {
        let Some(number) = school else {
            return Ok(());
        };
        let Some(place) = papers.school_position(number) else {
            unreachable!()
        };
        self.mark(place)
    }

    /// Marks the schools at which these students stand, in either run.
    fn mark_all(&mut self, papers: &FlatPapers, stances: &[Stance]) -> Result<(), AllocError>
        requires one_each { length self.old.flags ≡ length papers.now.schools }
        requires known { (s : ℕ) → IsNamed stances.now s → Contains (schools_of papers.now) s }
        ensures more { OnOk result (MarksMore self.old self.new) }
        ensures marked { OnOk result ((s : ℕ) → IsNamed stances.now s → marked_in papers.now self.new.flags s ≡ true) }
        ensures passes { OnOk result ((test : ℕ → Bool)
            → ((s p : ℕ) → IsNamed stances.now s → position (nat_eq s) (schools_of papers.now) ≡ Some p → test p ≡ true)
            → FlagsPass test self.old.flags → FlagsPass test self.new.flags) }
    {
        for stance in stances {
            self.mark_school(papers, stance.old)?;
            self.mark_school(papers, stance.new)?;
        }
        Ok(())
    }

    /// Marks no school any longer. It takes no memory.
    fn clear(&mut self)
        ensures always { self.new.always ≡ self.old.always }
        ensures one_each { length self.new.flags ≡ length self.old.flags }
        ensures none { (p : ℕ) → get_or self.new.flags p false ≡ false }
    {
        while let Some(place) = self.places.pop() {
            self.flags[place] = false;
        }
    }

    /// Marks the schools at which these students stand, in either run, and no others but the one that is marked throughout. After a
    /// refused growth the marks are to be given up.
    pub fn follow(&mut self, papers: &FlatPapers, stances: &[Stance]) -> Result<(), AllocError>
        requires one_each { length self.old.flags ≡ length papers.now.schools }
        requires known { (s : ℕ) → IsNamed stances.now s → Contains (schools_of papers.now) s }
        ensures follows { OnOk result (MarksFollow papers.now stances.now self.old self.new) }
    {
        self.clear();
        self.mark_always()?;
        self.mark_all(papers, stances)
    }

    /// Whether an entry names a marked school.
    pub fn have_any(&self, papers: &FlatPapers, segment: &[Rejection]) -> bool
        ensures { result ≡ false → All (λ e. marked_in papers.now self.now.flags e.school ≡ false) segment.now }
    {
        for entry in segment {
            if self.have(papers, Some(entry.school)) {
                return true;
            }
        }
        false
    }

    /// Whether a school is marked, if there is one.
    pub fn have(&self, papers: &FlatPapers, school: Option<SchoolNo>) -> bool
        ensures { IfSome school (λ s. result ≡ marked_in papers.now self.now.flags s) }
    {
        match school {
            Some(number) => match papers.school_position(number) {
                Some(place) => self.has(place),
                None => false,
            },
            None => false,
        }
    }
}
