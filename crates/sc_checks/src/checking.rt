//! Every fault of the files of an opening and of a script, from their texts.
ghost use Rattle.std.specs.Prelude.{◌≡◌, ◌∷◌, [], ℕ, List, IfNone, IfOk, MatchOption, OnOk};
ghost use Rattle.sc_intake.specs.Checking.{known_schools};
ghost use Rattle.sc_checks.specs.Checks.{every_fault, faults_of_good};
ghost use Rattle.sc_checks.specs.Left.{left_alone, left_found, left_of, AreJudged, AreSameGood};

use sc_intake::{
    IntakeFault, ListRow, RosterRow, SchoolRow, ScriptFaults, Sheet, judge_lists, judge_papers,
    judge_roster, judge_schools, judge_script, known_schools,
};
use sc_papers::Seed;
use std::alloc::{AllocError, Global};
use std::marker::Model;

/// The three files of an opening, each judged row by row.
struct Files<'a> {
    schools: Sheet<'a, SchoolRow>,
    roster: Sheet<'a, RosterRow>,
    lists: Sheet<'a, ListRow>,
}

impl Drop for Files<'_> {
    fn drop(self) {
        let Files {
            schools: _,
            roster: _,
            lists: _,
        } = self;
    }
}

/// Faults that were found together, and how many of them were told.
#[derive(Drop)]
struct Found {
    faults: Vec<IntakeFault>,
    told: usize,
}

/// The files while each of them alone is judged; and then the faults of what their rows say together, for which the rows
/// are of no more account and are let go.
enum OfFiles<'a> {
    Alone { files: Files<'a> },
    Together { found: Found },
}

impl Drop for OfFiles<'_> {
    fn drop(self) {
        match self {
            OfFiles::Alone { files: _ } => {}
            OfFiles::Together { found: _ } => {}
        }
    }
}

/// The faults of the texts of three files and of a script that are left to be told. They are told one after the other,
/// and found as they are told. What is kept are the rows that have no fault, as long as each file alone is judged, and then
/// the faults of what these rows say together, of which there are at most 400,000.
pub struct Faults<'a> {
    alloc: Global,
    seed: Seed,
    // It is read again for the schools that rows with a fault name.
    schools: &'a [u8],
    files: OfFiles<'a>,
    script: ScriptFaults<'a>,
}

impl Drop for Faults<'_> {
    fn drop(self) {
        let Faults {
            alloc: _,
            seed: _,
            schools: _,
            files: _,
            script: _,
        } = self;
    }
}

impl<'a> Model for Faults<'a> {
    ghost use Rattle.std.specs.Prelude.{List};
    ghost use Rattle.sc_intake.specs.declared.fault.IntakeFault.{IntakeFault as Fault};
    ghost use Rattle.sc_checks.specs.Left.{left_in};

    ghost Value = { List Fault };

    ghost view = { λ f. left_in f.seed f.schools.now f.files f.script };
}

/// The next fault of each file alone, in the order schools, roster, lists.
fn next_alone(files: &mut Files<'_>) -> Result<Option<IntakeFault>, AllocError>
    ensures next { IfOk result (λ found.
        MatchOption found (left_alone files.old ≡ []) (λ fault. left_alone files.old ≡ fault ∷ left_alone files.new)) }
    ensures end { IfOk result (λ found. IfNone found (AreJudged files.new)) }
    ensures good { OnOk result (AreSameGood files.old files.new) }
{
    if let Some(fault) = files.schools.next_fault()? {
        return Ok(Some(fault));
    }
    if let Some(fault) = files.roster.next_fault()? {
        return Ok(Some(fault));
    }
    files.lists.next_fault()
}

/// The faults of what the good rows of the three files say together.
fn judge_together(
    alloc: Global,
    seed: Seed,
    schools: &[u8],
    files: &Files<'_>,
) -> Result<Found, AllocError>
    requires { AreJudged files.now }
    ensures found { IfOk result (λ found. found.faults.items ≡ faults_of_good seed
        (known_schools schools.now) files.now.schools.good files.now.roster.good files.now.lists.good) }
    ensures told { IfOk result (λ found. found.told ≡ 0) }
{
    let (Some(known), Some(roster), Some(lists)) = (
        files.schools.rows(),
        files.roster.rows(),
        files.lists.rows(),
    ) else {
        return Ok(Found {
            faults: Vec::new(alloc),
            told: 0,
        });
    };
    let known = known_schools(alloc, schools, known)?;
    let faults = judge_papers(alloc, seed, &known, roster, lists)?;
    Ok(Found { faults, told: 0 })
}

/// The next of faults that were found.
fn next_found(found: &mut Found) -> Option<IntakeFault>
    ensures { MatchOption result ((left_found found.old ≡ []) × (left_found found.new ≡ []))
        (λ fault. left_found found.old ≡ fault ∷ left_found found.new) }
{
    let fault = *found.faults.as_slice().get(found.told)?;
    found.told += 1;
    Some(fault)
}

/// The next fault of the three files: of each alone, or else of what their good rows say together.
fn next_of_files(
    alloc: Global,
    seed: Seed,
    schools: &[u8],
    of: &mut OfFiles<'_>,
) -> Result<Option<IntakeFault>, AllocError>
    ensures { IfOk result (λ found. MatchOption found
        ((left_of seed schools.now of.old ≡ []) × (left_of seed schools.now of.new ≡ []))
        (λ fault. left_of seed schools.now of.old ≡ fault ∷ left_of seed schools.now of.new)) }
{
    match of {
        OfFiles::Alone { files } => {
            if let Some(fault) = next_alone(files)? {
                return Ok(Some(fault));
            }
            let mut found = judge_together(alloc, seed, schools, files)?;
            let next = next_found(&mut found);
            *of = OfFiles::Together { found };
            Ok(next)
        }
        OfFiles::Together { found } => Ok(next_found(found)),
    }
}

/// Every fault of the texts of three files and of a script, to be told one after the other: for each faulty row its
/// first cause, first of what each file says alone, in the order schools, roster, lists, then of what their rows
/// without a fault say together, and then of each record of the script that is no amendment. No script is an empty one,
/// which has no fault. The faults are the same under every seed. A school whose row has a fault counts as known to the
/// rows of the others where its number can be read.
///
/// The only error is want of memory. The papers are made under this seed, by which their tables hash: whoever knows it
/// can choose numbers that share a hash, and then the cost grows by the square of their count. So files from strangers
/// are judged under a seed that nobody could know.
pub fn every_fault<'a>(
    alloc: Global,
    seed: Seed,
    schools: &'a [u8],
    roster: &'a [u8],
    lists: &'a [u8],
    script: &'a [u8],
) -> Result<Faults<'a>, AllocError>
    ensures { IfOk result (λ faults. (any : List ℕ)
        → faults ≡ every_fault any schools.now roster.now lists.now script.now) }
{
    let files = Files {
        schools: judge_schools(alloc, schools)?,
        roster: judge_roster(alloc, roster)?,
        lists: judge_lists(alloc, lists)?,
    };
    Ok(Faults {
        alloc,
        seed,
        schools,
        files: OfFiles::Alone { files },
        script: judge_script(alloc, script),
    })
}

impl<'a> Faults<'a> {
    ghost use Rattle.std.specs.Prelude.{◌≡◌, ◌∷◌, [], IfOk, MatchOption};

    /// The next fault, or `None` where there is none left. The only error is want of memory, after which the faults that
    /// are left are not known.
    ///
    /// The cost of all of them is that of reading the files and making their papers, and of reading the script; the
    /// memory that of the rows that have no fault and of their papers.
    pub fn next_fault(&mut self) -> Result<Option<IntakeFault>, AllocError>
        ensures { IfOk result (λ found. MatchOption found ((self.old ≡ []) × (self.new ≡ []))
            (λ fault. self.old ≡ fault ∷ self.new)) }
    {
        let of_files = next_of_files(self.alloc, self.seed, self.schools, &mut self.files)?;
        if let Some(fault) = of_files {
            return Ok(Some(fault));
        }
        match self.script.next_fault()? {
            Some(fault) => Ok(Some(fault)),
            None => Ok(None),
        }
    }
}
