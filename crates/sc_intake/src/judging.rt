//! Every fault of what the rows of the files of an opening say together, and not the first alone.

ghost use Rattle.std.specs.Prelude.{◌≡◌, ◌≢◌, ◌++◌, [], ◌∷◌, flat_map, if◌then◌else◌, IfOk, OnOk};
ghost use Rattle.std.specs.Option.{option_copied};
ghost use Rattle.sc_intake.specs.Checking.{faults_of_list, faults_of_rows, students_judged, with_row};
ghost use Rattle.sc_intake.specs.Fault.{fault_at};
ghost use Rattle.sc_intake.specs.Papers.{entered_by, ArePositions};
ghost use Rattle.sc_intake.specs.Roster.{roster_number};
ghost use Rattle.sc_intake.specs.Seen.{AreNumbers};
ghost use Rattle.sc_intake.specs.declared.fault.Cause.TheVariants.{NotInRoster, OutOfMemory};
ghost use Rattle.sc_intake.specs.declared.fault.Source.TheVariants as source;

use crate::fault::{Cause, IntakeFault, Source};
use crate::lists::{ListRow, ListRows};
use crate::papers::{enter_copied, find_list, list_positions, open_papers};
use crate::roster::{RosterRow, RosterRows};
use crate::rows::numbers_of;
use crate::schools::SchoolRows;
use crate::seen::SeenNumbers;
use sc_papers::{FlatPapers, Refusal, Seed, StudentNo};
use std::alloc::{AllocError, Global};
use std::collections::BTreeMap;

/// Notes the fault of a row; want of memory is no fault of a row, but an error.
fn note(
    source: Source,
    row: u64,
    cause: Cause,
    faults: &mut Vec<IntakeFault>,
) -> Result<(), AllocError>
    ensures noted { OnOk result (faults.new.items ≡ faults.old.items ++ fault_at source row cause ∷ []) }
    ensures cause { OnOk result (cause ≢ OutOfMemory) }
{
    match cause {
        Cause::OutOfMemory | Cause::Refused(Refusal::OutOfMemory) => Err(AllocError),
        cause => {
            faults.push(IntakeFault::at(source, row, cause))?;
            Ok(())
        }
    }
}

/// Judges a student of the roster, who enters or has a fault.
fn judge_student(
    alloc: Global,
    papers: &mut FlatPapers,
    row: &RosterRow,
    list: Option<&ListRow>,
    faults: &mut Vec<IntakeFault>,
) -> Result<(), AllocError>
    ensures { OnOk result (record { good = papers.new; faults = faults.new.items }
        ≡ with_row source.Roster row.now.row (record { good = papers.old; faults = faults.old.items })
        (entered_by papers.old row.now (option_copied list.entry))) }
{
    match enter_copied(alloc, papers, row, list) {
        Ok(()) => Ok(()),
        Err(cause) => note(Source::Roster, row.row, cause, faults),
    }
}

/// Judges the students of the roster, in the order of its rows.
fn judge_students(
    alloc: Global,
    papers: &mut FlatPapers,
    roster: &[RosterRow],
    positions: &BTreeMap<StudentNo, usize>,
    lists: &[ListRow],
    faults: &mut Vec<IntakeFault>,
) -> Result<(), AllocError>
    requires { ArePositions positions.now lists.now lists.now }
    ensures { OnOk result (record { good = papers.new; faults = faults.new.items }
        ≡ students_judged lists.now (record { good = papers.old; faults = faults.old.items }) roster.now) }
{
    for row in roster {
        let list = find_list(positions, lists, row.student);
        judge_student(alloc, papers, row, list, faults)?;
    }
    Ok(())
}

/// Judges a list, whose student is in the roster or not.
fn judge_list(
    list: &ListRow,
    in_roster: bool,
    faults: &mut Vec<IntakeFault>,
) -> Result<(), AllocError>
    ensures { OnOk result (faults.new.items ≡ faults.old.items
        ++ (if in_roster then [] else fault_at source.Lists list.now.row NotInRoster ∷ [])) }
{
    if in_roster {
        return Ok(());
    }
    note(Source::Lists, list.row, Cause::NotInRoster, faults)
}

/// Judges the lists by the numbers of the students in the roster.
fn judge_students_of_lists(
    roster: &[RosterRow],
    numbers: &SeenNumbers,
    lists: &[ListRow],
    faults: &mut Vec<IntakeFault>,
) -> Result<(), AllocError>
    requires { AreNumbers roster_number roster.now numbers.now }
    ensures { OnOk result (faults.new.items ≡ faults.old.items ++ flat_map (faults_of_list roster.now) lists.now) }
{
    for list in lists {
        judge_list(list, numbers.contains(list.student.get()), faults)?;
    }
    Ok(())
}

/// Judges the students of the roster and then the lists, by papers in which none of them is yet.
fn judge_rows(
    alloc: Global,
    papers: &mut FlatPapers,
    roster: &RosterRows,
    lists: &ListRows,
) -> Result<Vec<IntakeFault>, AllocError>
    ensures { IfOk result (λ faults. faults.items
        ≡ (students_judged lists.now (record { good = papers.old; faults = [] }) roster.now).faults
        ++ flat_map (faults_of_list roster.now) lists.now) }
{
    let rows = roster.as_slice();
    let lists = lists.as_slice();
    let positions = list_positions(alloc, lists)?;
    let numbers = numbers_of(alloc, rows)?;
    let mut faults = Vec::new(alloc);
    judge_students(alloc, papers, rows, &positions, lists, &mut faults)?;
    judge_students_of_lists(rows, &numbers, lists, &mut faults)?;
    Ok(faults)
}

/// The faults of what the rows of the three files say together: each student of the roster is judged by those before
/// them whom the papers do not refuse, and then each list by whether its student is in the roster. A student without a
/// list is `NoList`, and a refusal is `Refused`, both of the row of the roster; a list whose student is not in the
/// roster is `NotInRoster`, of the row of the lists. The only error is want of memory.
///
/// The cost is that of `papers_of` without its records, and for each list a look-up among the roster's numbers.
pub fn judge_papers(
    alloc: Global,
    seed: Seed,
    schools: &SchoolRows,
    roster: &RosterRows,
    lists: &ListRows,
) -> Result<Vec<IntakeFault>, AllocError>
    ensures { IfOk result (λ faults. faults.items ≡ faults_of_rows seed schools.now roster.now lists.now) }
{
    let Ok(mut papers) = open_papers(alloc, seed, schools.as_slice(), roster.len()) else {
        return Err(AllocError);
    };
    let judged = judge_rows(alloc, &mut papers, roster, lists);
    drop(papers);
    judged
}
