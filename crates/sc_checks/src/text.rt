//! Faults as text.
ghost use Rattle.std.specs.Prelude.{◌≡◌, ◌≤◌, ◌++◌, [], length, IfOk, IfSome, OnOk, codes, option_map, Some};
ghost use Rattle.sc_intake.specs.FaultText.{fault_text};
ghost use Rattle.sc_checks.specs.Choices.{good_lists, refusal_of};
ghost use Rattle.sc_checks.specs.FaultLines.{choices_line, choices_text, end_text, faults_text, line_by, line_if, line_of, list_text, row_of};
ghost use Rattle.sc_checks.specs.Representation.{file_view, files_view, refused_view, row_view, FindsIn, IsTableOf, Tells};

use crate::checking::Faults;
use crate::choices::{ListTable, RefusedList, refusal_of};
use crate::columns::Column;
use crate::fields::field_text;
use crate::files::{InputFile, InputFiles, file_of};
use crate::lines::{RowFinder, RowLine};
use crate::telling::{push_place, push_row, push_shown};
use crate::words::push_refusal_words;
use sc_decimal::push_number;
use sc_intake::{Cause, IntakeFault, Source};
use sc_papers::Refusal;
use std::alloc::{AllocError, Global};
use std::marker::Model;

/// How many bytes of lines are made before they are handed on: 64 KiB.
const PIECE: usize = 65_536;

/// A place in each of the inputs.
#[derive(Clone, Copy)]
struct Finders<'a> {
    schools: RowFinder<'a>,
    roster: RowFinder<'a>,
    lists: RowFinder<'a>,
    script: RowFinder<'a>,
}

/// The start of each of the inputs.
fn finders_of<'a>(files: &InputFiles<'a>) -> Finders<'a>
    ensures { FindsIn (files_view files.now) result }
{
    Finders {
        schools: RowFinder::new(files.schools.text),
        roster: RowFinder::new(files.roster.text),
        lists: RowFinder::new(files.lists.text),
        script: RowFinder::new(files.script.text),
    }
}

/// The row that a fault is of.
fn find_row<'a>(
    finders: &mut Finders<'a>,
    files: &InputFiles<'a>,
    source: Source,
    row: u64,
) -> Option<RowLine<'a>>
    requires { FindsIn (files_view files.now) finders.old }
    ensures row { option_map row_view result ≡ row_of (files_view files.now) source row }
    ensures finds { FindsIn (files_view files.now) finders.new }
{
    match source {
        Source::Schools => finders.schools.find(files.schools.text, row),
        Source::Roster => finders.roster.find(files.roster.text, row),
        Source::Lists => finders.lists.find(files.lists.text, row),
        Source::Script => finders.script.find(files.script.text, row),
        Source::Log | Source::Journal | Source::Bundle | Source::Report => None,
    }
}

/// Adds the end of a line: the cause by its name.
fn push_end(text: &mut Vec<u8>, alloc: Global, cause: &Cause) -> Result<(), AllocError>
    ensures { OnOk result (text.new.items ≡ text.old.items ++ end_text cause.now) }
{
    let end = format!(in alloc; ". {cause}\n")?;
    text.extend_from_slice(end.as_bytes())
}

/// Adds the line of a fault of an input that has no name.
fn push_unnamed(text: &mut Vec<u8>, alloc: Global, fault: &IntakeFault) -> Result<(), AllocError>
    ensures { OnOk result (text.new.items ≡ text.old.items ++ (fault_text fault.now ++ codes "\n")) }
{
    let line = format!(in alloc; "{fault}\n")?;
    text.extend_from_slice(line.as_bytes())
}

/// Adds the line of a fault of this input, where the row that it is of was looked for.
fn push_fault(
    text: &mut Vec<u8>,
    alloc: Global,
    file: Option<InputFile<'_>>,
    row: Option<RowLine<'_>>,
    fault: &IntakeFault,
) -> Result<(), AllocError>
    ensures { OnOk result (text.new.items ≡ text.old.items
        ++ line_by (option_map file_view file.entry) (option_map row_view row.entry) fault.now) }
{
    let Some(file) = file else {
        return push_unnamed(text, alloc, fault);
    };
    push_place(text, file.name, fault.row, row)?;
    push_row(text, fault.source, &fault.cause, row)?;
    push_end(text, alloc, &fault.cause)
}

/// Adds the choices in a line of the lists.
fn push_choices(text: &mut Vec<u8>, line: Option<RowLine<'_>>) -> Result<(), AllocError>
    ensures { OnOk result (text.new.items ≡ text.old.items ++ choices_text (option_map row_view line.entry)) }
{
    match line {
        Some(line) => push_shown(text, Column::Choices, field_text(line.bytes, 1)),
        None => Ok(()),
    }
}

/// Adds where a student's list stands, whose it is, and what stands there.
fn push_list(text: &mut Vec<u8>, name: &str, list: &RefusedList<'_>) -> Result<(), AllocError>
    ensures { OnOk result (text.new.items ≡ text.old.items ++ list_text name.now (refused_view list.now)) }
{
    push_place(text, name, list.row, list.line)?;
    text.extend_from_slice(b", student ")?;
    push_number(text, u64::from(list.student.get()))?;
    push_choices(text, list.line)
}

/// A student of the roster whom the papers refuse: why they do, the row of the roster, if it is told by its line, and the
/// fault.
#[derive(Clone, Copy)]
struct RefusedRow<'a> {
    refusal: Refusal,
    row: Option<RowLine<'a>>,
    fault: &'a IntakeFault,
}

/// Adds the line of a student's choices that the papers refuse.
fn push_choices_line(
    text: &mut Vec<u8>,
    alloc: Global,
    files: &InputFiles<'_>,
    refused: &RefusedRow<'_>,
    list: &RefusedList<'_>,
) -> Result<(), AllocError>
    ensures { OnOk result (text.new.items ≡ text.old.items ++ choices_line (files_view files.now)
        refused.now.refusal (option_map row_view refused.now.row) (refused_view list.now) refused.now.fault.now) }
{
    push_list(text, files.lists.name, list)?;
    text.extend_from_slice(b" (")?;
    push_place(text, files.roster.name, refused.fault.row, refused.row)?;
    text.extend_from_slice(b"): ")?;
    push_refusal_words(text, &refused.refusal)?;
    push_end(text, alloc, &refused.fault.cause)
}

/// Adds the line of a student whom the papers refuse.
fn push_refusal(
    text: &mut Vec<u8>,
    alloc: Global,
    files: &InputFiles<'_>,
    table: &ListTable<'_>,
    refused: &RefusedRow<'_>,
) -> Result<(), AllocError>
    requires { IsTableOf files.now.lists.text.now (good_lists files.now.lists.text.now) table.now }
    ensures { OnOk result (text.new.items ≡ text.old.items ++ line_if (Some refused.now.refusal)
        (files_view files.now) (option_map row_view refused.now.row) refused.now.fault.now) }
{
    match table.refused_list(&refused.refusal, refused.row) {
        Some(list) => push_choices_line(text, alloc, files, refused, &list),
        None => push_fault(text, alloc, Some(files.roster), refused.row, refused.fault),
    }
}

/// What the lines of faults are made from: the inputs, a place in each of them, and where the students' lists stand, once
/// the choices of a student were refused.
struct Teller<'a> {
    files: InputFiles<'a>,
    finders: Finders<'a>,
    table: Option<ListTable<'a>>,
}

impl Drop for Teller<'_> {
    fn drop(self) {
        let Teller {
            files: _,
            finders: _,
            table: _,
        } = self;
    }
}

/// A teller's table, or where there is none yet, that of the lists in this text.
fn table_in<'a>(
    alloc: Global,
    text: &'a [u8],
    table: Option<ListTable<'a>>,
) -> Result<ListTable<'a>, AllocError>
    requires { IfSome table (IsTableOf text.now (good_lists text.now)) }
    ensures { IfOk result (IsTableOf text.now (good_lists text.now)) }
{
    match table {
        Some(table) => Ok(table),
        None => ListTable::of(alloc, text),
    }
}

/// Adds the line of the refusal of a student of the roster, whose row was looked for.
fn push_refused(
    text: &mut Vec<u8>,
    alloc: Global,
    teller: &mut Teller<'_>,
    refused: &RefusedRow<'_>,
) -> Result<(), AllocError>
    requires { Tells teller.old }
    ensures line { OnOk result (text.new.items ≡ text.old.items ++ line_if (Some refused.now.refusal)
        (files_view teller.old.files) (option_map row_view refused.now.row) refused.now.fault.now) }
    ensures files { teller.new.files ≡ teller.old.files }
    ensures tells { Tells teller.new }
{
    let table = table_in(alloc, teller.files.lists.text, teller.table.take())?;
    let pushed = push_refusal(text, alloc, &teller.files, &table, refused);
    teller.table = Some(table);
    pushed
}

/// Adds the line of a fault whose row was looked for.
fn push_found(
    text: &mut Vec<u8>,
    alloc: Global,
    teller: &mut Teller<'_>,
    row: Option<RowLine<'_>>,
    fault: &IntakeFault,
) -> Result<(), AllocError>
    requires { Tells teller.old }
    ensures line { OnOk result (text.new.items ≡ text.old.items ++ line_if (refusal_of fault.now.source fault.now.cause)
        (files_view teller.old.files) (option_map row_view row.entry) fault.now) }
    ensures files { teller.new.files ≡ teller.old.files }
    ensures tells { Tells teller.new }
{
    match refusal_of(fault) {
        Some(refusal) => {
            let refused = RefusedRow {
                refusal,
                row,
                fault,
            };
            push_refused(text, alloc, teller, &refused)
        }
        None => push_fault(
            text,
            alloc,
            file_of(&teller.files, fault.source),
            row,
            fault,
        ),
    }
}

/// Adds the line of a fault.
#[tactic(auto, unfolding(crate::specs::FaultLines::line_of))]
fn push_line(
    text: &mut Vec<u8>,
    alloc: Global,
    teller: &mut Teller<'_>,
    fault: &IntakeFault,
) -> Result<(), AllocError>
    requires { Tells teller.old }
    ensures line { OnOk result (text.new.items ≡ text.old.items ++ line_of (files_view teller.old.files) fault.now) }
    ensures files { teller.new.files ≡ teller.old.files }
    ensures tells { Tells teller.new }
{
    let row = find_row(&mut teller.finders, &teller.files, fault.source, fault.row);
    push_found(text, alloc, teller, row, fault)
}

/// The faults of inputs that are left to be told, each by its line.
pub struct FaultLines<'a> {
    alloc: Global,
    teller: Teller<'a>,
    faults: Faults<'a>,
}

impl Drop for FaultLines<'_> {
    fn drop(self) {
        let FaultLines {
            alloc: _,
            teller: _,
            faults: _,
        } = self;
    }
}

impl<'a> Model for FaultLines<'a> {
    ghost use Rattle.sc_checks.specs.FaultLines.{ToTell};
    ghost use Rattle.sc_checks.specs.Representation.{files_view, Tells};

    ghost Value = { ToTell };

    ghost view = { λ l. record { files = files_view l.teller.files; left = l.faults } };

    ghost invariant = { λ l. Tells l.teller };
}

impl<'a> FaultLines<'a> {
    ghost use Rattle.std.specs.Prelude.{◌≡◌, ◌<◌, ◌≤◌, ◌++◌, [], length, IfOk, MatchBool, OnOk};
    ghost use Rattle.sc_checks.specs.FaultLines.{faults_text};
    ghost use Rattle.sc_checks.specs.Representation.{files_view};

    /// The lines of these faults, which are of these inputs.
    pub fn new(alloc: Global, files: InputFiles<'a>, faults: Faults<'a>) -> Self
        ensures files { result.files ≡ files_view files.entry }
        ensures faults { result.left ≡ faults.entry }
    {
        FaultLines {
            alloc,
            teller: Teller {
                files,
                finders: finders_of(&files),
                table: None,
            },
            faults,
        }
    }

    /// Adds the line of the next fault to a text, and says whether there is one.
    fn push_next(&mut self, text: &mut Vec<u8>) -> Result<bool, AllocError>
        ensures lines { OnOk result (text.new.items ++ faults_text self.old.files self.new.left
            ≡ text.old.items ++ faults_text self.old.files self.old.left) }
        ensures files { self.new.files ≡ self.old.files }
        ensures found { IfOk result (λ found. MatchBool found (length self.new.left < length self.old.left)
            ((self.old.left ≡ []) × (self.new.left ≡ []))) }
    {
        match self.faults.next_fault() {
            Ok(Some(fault)) => {
                push_line(text, self.alloc, &mut self.teller, &fault)?;
                Ok(true)
            }
            Ok(None) => Ok(false),
            Err(refused) => Err(refused),
        }
    }

    /// Adds the lines of the next faults, as long as the text has less than 64 KiB.
    fn push_piece(&mut self, text: &mut Vec<u8>) -> Result<(), AllocError>
        ensures lines { OnOk result (text.new.items ++ faults_text self.old.files self.new.left
            ≡ text.old.items ++ faults_text self.old.files self.old.left) }
        ensures files { self.new.files ≡ self.old.files }
        ensures fewer { OnOk result (length self.new.left ≤ length self.old.left) }
    {
        'faults: while text.len() < PIECE {
            if !self.push_next(text)? {
                return Ok(());
            }
        }
        Ok(())
    }

    /// Puts the lines of the next faults in the place of a text, some 64 KiB or those of all that are left, and says
    /// whether there was a fault. A line tells of a fault where it is, whose row it is, what stands there, what is expected,
    /// and the cause, as `roster.csv line 5, student 17, zone "north": a number of 1 to 9 digits is expected. Number`. Choices
    /// that the papers refuse are told where they stand in the lists. There is no header, and no fault is no text. The only
    /// error is want of memory, after which the faults that are left are not known.
    ///
    /// The cost is that of finding the faults, of the bytes, and of reading the lines of each input once for each time that
    /// the rows of its faults do not rise; and of judging the lists once more, where the papers refuse a student. The
    /// memory, beside that of the faults, is that of one piece and one line, and of the table of the lists.
    pub fn next_piece(&mut self, text: &mut Vec<u8>) -> Result<bool, AllocError>
        ensures lines { OnOk result (text.new.items ++ faults_text self.old.files self.new.left
            ≡ faults_text self.old.files self.old.left) }
        ensures files { self.new.files ≡ self.old.files }
        ensures found { IfOk result (λ found. MatchBool found (length self.new.left < length self.old.left)
            (self.old.left ≡ [])) }
    {
        text.clear();
        if !self.push_next(text)? {
            return Ok(false);
        }
        self.push_piece(text)?;
        Ok(true)
    }
}
