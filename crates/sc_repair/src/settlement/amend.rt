//! Amendments taking effect on the standing assignment.

ghost use Rattle.std.specs.Prelude.{◌≡◌, None, IfOk};
ghost use Rattle.sc_papers.specs.Verdict.{verdict};
ghost use Rattle.sc_papers.specs.declared.amendment.Amendment.TheVariants.{Withdraw};
ghost use Rattle.sc_repair.specs.Changed.{ChangesInPlace};
ghost use Rattle.sc_repair.specs.Standing.{IsAmended};

use super::Settlement;
use sc_papers::{Amendment, FlatPapers, StudentNo};
use std::alloc::{AllocError, Global};

/// How many amendments are settled from scratch once a sweep was given up, before ledgers are opened again.
const REST: u32 = 16;

/// Where there are more students for each school, papers are settled from scratch after an amendment: a question to a ledger would
/// count too many labels.
const STUDENTS: usize = 1_500;

/// Whether there are so many students for each school. No clause says anything of it: either way of settling is right.
fn are_many(papers: &FlatPapers) -> bool {
    papers.students_len() / STUDENTS > papers.schools_len()
}

/// An amendment once more. The only error is want of memory.
fn copied(alloc: Global, amendment: &Amendment) -> Result<Amendment, AllocError>
    ensures { IfOk result (λ copy. copy ≡ amendment.now) }
{
    Ok(match amendment {
        Amendment::Enter {
            student,
            zone,
            siblings,
            choices,
            continuing,
        } => Amendment::Enter {
            student: *student,
            zone: *zone,
            siblings: siblings.copy(alloc)?,
            choices: choices.copy(alloc)?,
            continuing: *continuing,
        },
        Amendment::Withdraw { student } => Amendment::Withdraw { student: *student },
        Amendment::Rerank { student, choices } => Amendment::Rerank {
            student: *student,
            choices: choices.copy(alloc)?,
        },
        Amendment::Add { school, count } => Amendment::Add {
            school: *school,
            count: *count,
        },
        Amendment::Close { school, count } => Amendment::Close {
            school: *school,
            count: *count,
        },
        Amendment::Correct {
            student,
            zone,
            siblings,
            continuing,
        } => Amendment::Correct {
            student: *student,
            zone: *zone,
            siblings: siblings.copy(alloc)?,
            continuing: *continuing,
        },
    })
}

impl Settlement {
    /// Whether the next amendment is to be settled from scratch, since a sweep by the ledgers would take longer, or was given up not
    /// long ago. No clause says anything of the answer.
    fn takes_scratch(&mut self) -> bool
        ensures { self.new ≡ self.old }
    {
        if self.rest > 0 {
            self.rest -= 1;
            return true;
        }
        are_many(&self.papers)
    }

    /// Makes an amendment that nothing is said against, and settles its region anew from its rewind point on, as `Clearing::amend_allowed`
    /// says. What is changed is changed in place, growths first; where one is refused later, it is taken back.
    pub(crate) fn amend(&mut self, amendment: Amendment) -> Result<(), AllocError>
        requires { verdict self.old.papers amendment ≡ None }
        ensures { IsAmended result self.old amendment self.new }
    {
        match amendment {
            Amendment::Enter { student, .. } => self.admit(amendment, student),
            Amendment::Withdraw { student } => self.withdraw(student),
            Amendment::Rerank { .. }
            | Amendment::Add { .. }
            | Amendment::Close { .. }
            | Amendment::Correct { .. } => self.change(amendment),
        }
    }

    /// Makes an amendment by which nobody enters or withdraws: by the ledgers, and where their sweep is given up, or one was not long
    /// ago, from scratch. The only error is want of memory, which changes nothing.
    fn change(&mut self, amendment: Amendment) -> Result<(), AllocError>
        requires { ChangesInPlace self.old.papers amendment }
        ensures { IsAmended result self.old amendment self.new }
    {
        if self.takes_scratch() {
            return self.change_afresh(amendment);
        }
        let again = copied(self.alloc, &amendment)?;
        if self.change_by_ledgers(again).is_ok() {
            return Ok(());
        }
        self.rest = REST;
        self.change_afresh(amendment)
    }

    /// Lets a student withdraw: by the ledgers, and where their sweep is given up, or one was not long ago, from scratch. The only error
    /// is want of memory, which changes nothing.
    fn withdraw(&mut self, student: StudentNo) -> Result<(), AllocError>
        requires { verdict self.old.papers (Withdraw student) ≡ None }
        ensures { IsAmended result self.old (Withdraw student) self.new }
    {
        if self.takes_scratch() {
            return self.withdraw_afresh(student);
        }
        if self.withdraw_by_ledgers(student).is_ok() {
            return Ok(());
        }
        self.rest = REST;
        self.withdraw_afresh(student)
    }
}
