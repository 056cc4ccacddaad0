//! The students who stand elsewhere in the new run than in the old one.

ghost use Rattle.std.specs.Prelude.{◌≡◌, ◌<◌, IfSome, None, Some, length, get_or};
ghost use Rattle.sc_ledgers.specs.Elsewhere.{in_other, in_run, is_kept, IsAbsent};

use sc_papers::{Rejection, SchoolNo, StudentNo};
use std::alloc::{AllocError, Global};
use std::marker::Model;

/// Which of two runs.
#[derive(Clone, Copy, Debug, PartialEq, Eq)]
pub enum Run {
    Old,
    New,
}

/// Where a student stands in either run, after as many turns.
#[derive(Clone, Copy, Debug, PartialEq, Eq)]
pub struct Stance {
    pub student: StudentNo,
    pub old: Option<SchoolNo>,
    pub new: Option<SchoolNo>,
}

impl Stance {
    /// One who stands at a school in both runs.
    fn alike(student: StudentNo, school: SchoolNo) -> Self
        ensures student { result.student ≡ student }
        ensures old { result.old ≡ Some school }
        ensures new { result.new ≡ Some school }
    {
        let old = Some(school);
        let new = Some(school);
        Stance { student, old, new }
    }

    /// The same, but that the student has gone on to the next school in a run, if there is one.
    fn moved(self, run: Run, next: Option<SchoolNo>) -> Self
        ensures student { result.student ≡ self.student }
        ensures moved { in_run run result ≡ next }
        ensures stays { in_other run result ≡ in_other run self }
    {
        match run {
            Run::Old => Stance { old: next, ..self },
            Run::New => Stance { new: next, ..self },
        }
    }
}

/// Where the stance of a student is in a list.
fn place_of(list: &[Stance], student: StudentNo) -> Option<usize>
    ensures there { IfSome result (λ at. at < length list.now) }
    ensures theirs { IfSome result (λ at. (d : Stance) → (get_or list.now at d).student ≡ student) }
    ensures absent { result ≡ None → IsAbsent list.now student }
{
    for (at, stance) in list.iter().enumerate() {
        if stance.student == student {
            return Some(at);
        }
    }
    None
}

/// Whether a student stands elsewhere in one run than in the other, or is this one.
fn is_kept(stance: &Stance, but: Option<StudentNo>) -> bool
    ensures { result ≡ is_kept but stance.now }
{
    stance.old != stance.new || but == Some(stance.student)
}

/// The stances of some students, no two of one student.
#[derive(Drop)]
pub struct Stances {
    list: Vec<Stance>,
}

impl Model for Stances {
    ghost use Rattle.std.specs.Prelude.{List};
    ghost use Rattle.sc_ledgers.specs.Elsewhere.{AreApart};
    ghost use Rattle.sc_ledgers.specs.declared.elsewhere.Stance.{Stance};

    ghost Value = { List Stance };

    ghost view = { λ s. s.list.items };

    ghost invariant = { λ s. AreApart s.list.items };
}

impl Stances {
    ghost use Rattle.std.specs.Prelude.{◌≡◌, [], IfOk, OnErr, OnOk};
    ghost use Rattle.sc_ledgers.specs.Elsewhere.{AreApart, HasDropped, HasMoved, HasPut};
    ghost use Rattle.sc_ledgers.specs.Sweep.{first_stances};

    /// Nobody's. It takes no memory.
    pub fn new(alloc: Global) -> Self
        ensures { result ≡ [] }
    {
        Stances {
            list: Vec::new(alloc),
        }
    }

    /// That of one who is amended, if somebody is, and who stands nowhere yet in either run. The only error is a refused growth.
    pub fn of(alloc: Global, amended: Option<StudentNo>) -> Result<Self, AllocError>
        ensures { IfOk result (λ stances. stances ≡ first_stances amended) }
    {
        let mut list = Vec::new(alloc);
        if let Some(student) = amended {
            let old = None;
            let new = None;
            list.push(Stance { student, old, new })?;
        }
        Ok(Stances { list })
    }

    /// The stances, lent.
    pub fn as_slice(&self) -> &[Stance]
        ensures value { result.now ≡ self.now }
        ensures apart { AreApart result.now }
    {
        self.list.as_slice()
    }

    /// Notes that a run rejects a student, who goes on to the next school there, if there is one. In the other run they stay; one who
    /// has no stance yet stood at the school that rejects them in both. A refused growth changes nothing.
    pub fn move_on(
        &mut self,
        run: Run,
        entry: &Rejection,
        next: Option<SchoolNo>,
    ) -> Result<(), AllocError>
        ensures moved { OnOk result (HasMoved self.old self.new run entry.now next) }
        ensures unchanged { OnErr result (self.new ≡ self.old) }
    {
        match place_of(self.list.as_slice(), entry.student) {
            Some(at) => self.list[at] = self.list[at].moved(run, next),
            None => {
                let stance = Stance::alike(entry.student, entry.school);
                self.list.push(stance.moved(run, next))?;
            }
        }
        Ok(())
    }

    /// Notes where a student stands in both runs. A refused growth changes nothing.
    pub fn put(&mut self, stance: Stance) -> Result<(), AllocError>
        ensures put { OnOk result (HasPut self.old self.new stance) }
        ensures unchanged { OnErr result (self.new ≡ self.old) }
    {
        match place_of(self.list.as_slice(), stance.student) {
            Some(at) => self.list[at] = stance,
            None => self.list.push(stance)?,
        }
        Ok(())
    }

    /// Takes out whoever stands alike in both runs, but for one student.
    pub fn drop_alike(&mut self, but: Option<StudentNo>)
        ensures { HasDropped self.old self.new but }
    {
        self.list.retain(|stance| is_kept(stance, but));
    }
}
