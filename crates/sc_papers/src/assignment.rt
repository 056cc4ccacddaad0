ghost use Rattle.std.specs.Prelude.{◌≡◌, ℕ, ◌+◌, ◌==◌, ◌&&◌, List, [], None, Some, length, take, is_some, slice_get, nat_eq, if◌then◌else◌, IfOk, OnOk, OnErr};
ghost use Rattle.std.specs.List.{IsDistinct};
ghost use Rattle.std.specs.Map.{keys_of};
ghost use Rattle.sc_papers.specs.Assignment.{assigned, holders, holding, with_place};

use crate::school_no::SchoolNo;
use crate::seeded_hash::SeededHash;
use indexmap::IndexMap;
use sc_lottery::{Seed, StudentNumber};
use std::alloc::{AllocError, Global};
use std::marker::Model;

/// Which students have which schools: a finite map. Each student who is put comes last in its order; where
/// `move_to` takes a school away, the last pair takes that place.
pub struct Assignment {
    places: IndexMap<StudentNumber, SchoolNo, SeededHash>,
}

impl Drop for Assignment {
    fn drop(self) {
        let Assignment { places: _ } = self;
    }
}

impl Model for Assignment {
    ghost Value = { List (ℕ × ℕ) };

    ghost view = { λ a. a.places.entries };
}

impl Assignment {
    /// Nobody has a school. It takes no memory.
    pub fn new(alloc: Global) -> Self
        ensures { result ≡ [] }
    {
        Assignment {
            places: IndexMap::with_hasher(alloc, SeededHash::unseeded()),
        }
    }

    /// Nobody has a school, and there is room for so many students, who are found under a seed. The only
    /// error is want of memory.
    ///
    /// Whoever chooses the students' numbers before the seed is drawn cannot make their look-ups slow.
    pub fn with_room(alloc: Global, seed: Seed, students: usize) -> Result<Self, AllocError>
        ensures { IfOk result (λ assignment. assignment ≡ []) }
    {
        let hash = SeededHash::new(seed);
        Ok(Assignment {
            places: IndexMap::with_capacity_and_hasher(alloc, students, hash)?,
        })
    }

    /// Gives the student the school, in the place of any other. A refused growth changes nothing.
    pub fn put(&mut self, student: StudentNumber, school: SchoolNo) -> Result<(), AllocError>
        ensures put { OnOk result (self.new ≡ with_place self.old student school) }
        ensures unchanged { OnErr result (self.new ≡ self.old) }
    {
        let _ = self.places.insert(student, school)?;
        Ok(())
    }

    /// Gives a student who has none the school, if there is one. A refused growth changes nothing.
    pub fn give(
        &mut self,
        student: StudentNumber,
        school: Option<SchoolNo>,
    ) -> Result<(), AllocError>
        requires { assigned self.old student ≡ None }
        ensures given { OnOk result ((j : ℕ)
            → assigned self.new j ≡ (if nat_eq j student then school else assigned self.old j)) }
        ensures unchanged { OnErr result (self.new ≡ self.old) }
    {
        if let Some(school) = school {
            self.put(student, school)?;
        }
        Ok(())
    }

    /// Gives a student who has a school another one, or none; one who has none stays without. It takes no
    /// memory. In constant time. Where the student is to have none, the last pair takes the place of theirs.
    pub fn move_to(&mut self, student: StudentNumber, school: Option<SchoolNo>)
        ensures moved { (j : ℕ) → assigned self.new j
            ≡ (if nat_eq j student && is_some (assigned self.old j) then school else assigned self.old j) }
        ensures counted { (s : ℕ) → holders self.new s + holding (assigned self.old) s student
            ≡ holders self.old s + holding (assigned self.new) s student }
    {
        match school {
            Some(school) => self.replace(student, school),
            None => self.remove(student),
        }
    }

    /// Gives a student who has a school this one instead.
    fn replace(&mut self, student: StudentNumber, school: SchoolNo)
        ensures moved { (j : ℕ) → assigned self.new j
            ≡ (if nat_eq j student && is_some (assigned self.old j) then Some school else assigned self.old j) }
        ensures counted { (s : ℕ) → holders self.new s + holding (assigned self.old) s student
            ≡ holders self.old s + holding (assigned self.new) s student }
    {
        if let Some(place) = self.places.get_mut(&student) {
            *place = school;
        }
    }

    /// Takes a student's school away, if there is one.
    fn remove(&mut self, student: StudentNumber)
        ensures moved { (j : ℕ) → assigned self.new j
            ≡ (if nat_eq j student && is_some (assigned self.old j) then None else assigned self.old j) }
        ensures counted { (s : ℕ) → holders self.new s + holding (assigned self.old) s student
            ≡ holders self.old s + holding (assigned self.new) s student }
    {
        let _ = self.places.swap_remove(&student);
    }

    /// Keeps the first pairs of the order, so many of them, and takes the others away: so a growth that is refused
    /// later can leave what was there before. It takes no memory.
    pub fn truncate(&mut self, count: usize)
        ensures { self.new ≡ take count self.old }
    {
        self.places.truncate(count);
    }

    /// The school that the student has, if any. In constant time.
    pub fn get(&self, student: StudentNumber) -> Option<SchoolNo>
        ensures { result ≡ assigned self.now student }
    {
        self.places.get(&student).copied()
    }

    /// What `get` says. A student whose pair stands at the guessed position of the order is not looked up by
    /// number. In constant time.
    pub fn get_near(&self, student: StudentNumber, guess: usize) -> Option<SchoolNo>
        ensures { result ≡ assigned self.now student }
    {
        // This call tells that no student stands twice.
        prove!(self.len() <= usize::MAX);
        let Some(pair) = self.at(guess) else {
            return self.get(student);
        };
        if pair.0 != student {
            return self.get(student);
        }
        Some(pair.1)
    }

    /// The pair at a position of the order, from 0. In constant time.
    pub fn at(&self, position: usize) -> Option<(StudentNumber, SchoolNo)>
        ensures { result ≡ slice_get self.now position }
    {
        self.places
            .get_index(position)
            .map(|(student, school)| (*student, *school))
    }

    /// How many students have a school.
    pub fn len(&self) -> usize
        ensures count { result ≡ length self.now }
        ensures students_differ { IsDistinct nat_eq (keys_of self.now) }
    {
        self.places.len()
    }

    /// Whether nobody has a school.
    pub fn is_empty(&self) -> bool
        ensures { result ≡ (length self.now == 0) }
    {
        self.places.is_empty()
    }

    /// An equal assignment, or the error of a refused growth. The cost is its length.
    pub fn copy(&self) -> Result<Self, AllocError>
        ensures { IfOk result (λ copy. copy ≡ self.now) }
    {
        Ok(Assignment {
            places: self.places.clone()?,
        })
    }
}
