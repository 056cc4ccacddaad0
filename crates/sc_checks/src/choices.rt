//! Refusals of a student's choices: these stand in the lists, and are told there.
ghost use Rattle.std.specs.Prelude.{◌≡◌, ◌<◌, ℕ, true, nat_eq, List, [], length, map, option_and_then, option_map, slice_get, unwrap_or, IfOk, MatchBool, OnOk};
ghost use Rattle.std.specs.BTreeMap.{get};
ghost use Rattle.std.specs.List.{count_by};
ghost use Rattle.std.specs.Ordering.{nat_cmp};
ghost use Rattle.std.specs.Option.{option_copied};
ghost use Rattle.sc_papers.specs.declared.limits.TheConstants.{MOST_STUDENTS};
ghost use Rattle.sc_intake.specs.Checking.{IsJudged};
ghost use Rattle.sc_intake.specs.Lists.{list_number};
ghost use Rattle.sc_intake.specs.Papers.{list_of, ArePositions};
ghost use Rattle.sc_intake.specs.Rows.{AreRows};
ghost use Rattle.sc_intake.specs.declared.lists.ListRow.{ListRow as Listed};
ghost use Rattle.sc_checks.specs.Choices.{good_lists, is_refused, refusal_of, student_of_row};
ghost use Rattle.sc_checks.specs.Lines.{row_at};
ghost use Rattle.sc_checks.specs.Representation.{row_view, IsTableOf};

use crate::fields::field_text;
use crate::lines::{RowFinder, RowLine};
use sc_decimal::read_number;
use sc_intake::{Cause, IntakeFault, ListRow, Sheet, Source, judge_lists};
use sc_papers::{LONGEST_LIST, Refusal, SchoolNo, StudentNo};
use std::alloc::{AllocError, Global};
use std::collections::BTreeMap;

/// The rows of the lists that have no fault: each student's, by number, and the lines at which they stand.
pub(crate) struct ListTable<'a> {
    sheet: Sheet<'a, ListRow>,
    positions: BTreeMap<StudentNo, usize>,
    lines: Vec<Option<RowLine<'a>>>,
}

impl Drop for ListTable<'_> {
    fn drop(self) {
        let ListTable {
            sheet: _,
            positions: _,
            lines: _,
        } = self;
    }
}

/// A student's list of which the papers refuse the choices: the number of its row, whose it is, and the line at which it
/// stands, if it is told by that.
#[derive(Clone, Copy)]
pub(crate) struct RefusedList<'a> {
    pub(crate) row: u64,
    pub(crate) student: StudentNo,
    pub(crate) line: Option<RowLine<'a>>,
}

/// The refusal of a student of the roster, where a fault is one.
pub(crate) fn refusal_of(fault: &IntakeFault) -> Option<Refusal>
    ensures { result ≡ refusal_of fault.now.source fault.now.cause }
{
    match (fault.source, fault.cause) {
        (Source::Roster, Cause::Refused(refusal)) => Some(refusal),
        _ => None,
    }
}

/// How often a school stands in a list.
fn times_in(school: SchoolNo, schools: &[SchoolNo]) -> usize
    ensures { result ≡ count_by (nat_eq school) schools.now }
{
    let mut count = 0;
    for other in schools {
        if school == *other {
            count += 1;
        }
    }
    count
}

/// Whether a list has what the papers refuse.
fn is_refused(refusal: &Refusal, schools: &[SchoolNo]) -> bool
    ensures { result ≡ is_refused refusal.now schools.now }
{
    match refusal {
        Refusal::EmptyList => schools.is_empty(),
        Refusal::ListTooLong => schools.len() > LONGEST_LIST,
        Refusal::UnknownSchool { school } => times_in(*school, schools) > 0,
        Refusal::SchoolTwice { school } => times_in(*school, schools) > 1,
        _ => false,
    }
}

/// The student whom a row of the roster is of.
#[tactic(auto, unfolding(sc_intake::specs::Field::number_of))]
fn student_of(row: Option<RowLine<'_>>) -> Option<StudentNo>
    ensures { result ≡ student_of_row (option_map row_view row.entry) }
{
    match row {
        Some(row) => match read_number(field_text(row.bytes, 0)) {
            Some(number) => StudentNo::new(number),
            None => None,
        },
        None => None,
    }
}

/// Where each student's list stands, by number: in a tree, since whoever chooses the numbers could slow a hashed table
/// down.
fn list_positions(
    alloc: Global,
    lists: &[ListRow],
) -> Result<BTreeMap<StudentNo, usize>, AllocError>
    requires { AreRows list_number MOST_STUDENTS lists.now }
    ensures { IfOk result (λ positions. ArePositions positions lists.now lists.now) }
{
    let mut positions = BTreeMap::new(alloc);
    for (position, list) in lists.iter().enumerate() {
        positions.insert(list.student, position)?;
    }
    Ok(positions)
}

/// The lines at which lists stand.
fn lines_of<'a>(
    alloc: Global,
    text: &'a [u8],
    lists: &[ListRow],
) -> Result<Vec<Option<RowLine<'a>>>, AllocError>
    ensures { IfOk result (λ lines. map (option_map row_view) lines.items
        ≡ map (λ list. row_at text.now list.row) lists.now) }
{
    let mut finder = RowFinder::new(text);
    let mut lines = Vec::new(alloc);
    for list in lists {
        lines.push(finder.find(text, list.row))?;
    }
    Ok(lines)
}

/// What stands at the position of a student's list.
fn find_line<'t, 'a>(
    positions: &BTreeMap<StudentNo, usize>,
    lines: &'t [Option<RowLine<'a>>],
    student: StudentNo,
) -> Option<&'t Option<RowLine<'a>>>
    ensures { option_copied result ≡ option_and_then (slice_get lines.now) (get nat_cmp positions.now student) }
{
    let position = positions.get(&student)?;
    lines.get(*position)
}

/// The line at which a student's list stands.
fn line_of<'a>(
    positions: &BTreeMap<StudentNo, usize>,
    lines: &[Option<RowLine<'a>>],
    student: StudentNo,
) -> Option<RowLine<'a>>
    ensures { (text : List ℕ) (lists : List Listed) → ArePositions positions.now lists lists
        → map (option_map row_view) lines.now ≡ map (λ list. row_at text list.row) lists
        → option_map row_view result ≡ option_and_then (λ list. row_at text list.row) (list_of lists student) }
{
    match find_line(positions, lines, student) {
        Some(line) => *line,
        None => None,
    }
}

/// Judges a file up to its next fault, which is not told, and says whether there was one.
fn pass_fault(sheet: &mut Sheet<'_, ListRow>) -> Result<bool, AllocError>
    ensures passed { IfOk result (λ passed. MatchBool passed (length sheet.new.faults < length sheet.old.faults)
        (IsJudged sheet.new)) }
    ensures good { OnOk result (sheet.new.good ≡ sheet.old.good) }
{
    match sheet.next_fault() {
        Ok(Some(_)) => Ok(true),
        Ok(None) => Ok(false),
        Err(refused) => Err(refused),
    }
}

/// Judges a file to its end, and tells none of its faults.
fn pass_faults(sheet: &mut Sheet<'_, ListRow>) -> Result<(), AllocError>
    ensures judged { OnOk result (IsJudged sheet.new) }
    ensures good { OnOk result (sheet.new.good ≡ sheet.old.good) }
{
    'faults: while pass_fault(sheet)? {}
    Ok(())
}

/// The rows of a file that have no fault, where it was judged.
fn good_rows<'t>(sheet: &'t Sheet<'_, ListRow>) -> &'t [ListRow]
    requires { IsJudged sheet.now }
    ensures rows { result.now ≡ unwrap_or sheet.now.good [] }
    ensures differ { AreRows list_number MOST_STUDENTS result.now }
{
    match sheet.rows() {
        Some(rows) => rows.as_slice(),
        None => &[],
    }
}

/// The table of the rows of a file that was judged.
fn table_of<'a>(
    alloc: Global,
    text: &'a [u8],
    sheet: Sheet<'a, ListRow>,
) -> Result<ListTable<'a>, AllocError>
    requires { IsJudged sheet }
    ensures { IfOk result (λ table. IsTableOf text.now (unwrap_or sheet.entry.good []) table) }
{
    let rows = good_rows(&sheet);
    let positions = list_positions(alloc, rows)?;
    let lines = lines_of(alloc, text, rows)?;
    Ok(ListTable {
        sheet,
        positions,
        lines,
    })
}

impl<'a> ListTable<'a> {
    ghost use Rattle.std.specs.Prelude.{◌≡◌, ℕ, List, [], IfOk, option_map, unwrap_or};
    ghost use Rattle.sc_intake.specs.Papers.{ArePositions};
    ghost use Rattle.sc_checks.specs.Choices.{good_lists, refused_told};
    ghost use Rattle.sc_checks.specs.Representation.{refused_view, row_view, IsTableOf};

    /// The table of the lists in a text.
    pub(crate) fn of(alloc: Global, text: &'a [u8]) -> Result<Self, AllocError>
        ensures { IfOk result (λ table. IsTableOf text.now (good_lists text.now) table) }
    {
        let mut sheet = judge_lists(alloc, text)?;
        pass_faults(&mut sheet)?;
        table_of(alloc, text, sheet)
    }

    /// The list of the student of a row of the roster, where it has what the papers refuse.
    pub(crate) fn refused_list(
        &self,
        refusal: &Refusal,
        row: Option<RowLine<'_>>,
    ) -> Option<RefusedList<'a>>
        requires judged { IsJudged self.now.sheet }
        requires positions { ArePositions self.now.positions (unwrap_or self.now.sheet.good [])
            (unwrap_or self.now.sheet.good []) }
        ensures { (text : List ℕ) → IsTableOf text (good_lists text) self.now
            → option_map refused_view result ≡ refused_told text refusal.now (option_map row_view row.entry) }
    {
        let student = student_of(row)?;
        let list = good_rows(&self.sheet).get(*self.positions.get(&student)?)?;
        if !is_refused(refusal, list.choices.as_slice()) {
            return None;
        }
        Some(RefusedList {
            row: list.row,
            student: list.student,
            line: line_of(&self.positions, self.lines.as_slice(), student),
        })
    }
}
