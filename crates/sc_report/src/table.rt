//! One table of a report alone.
ghost use Rattle.std.specs.Prelude.{◌≡◌, IfNone, IfOk, IfSome};
ghost use Rattle.sc_repair.specs.Standing.{matching_of};
ghost use Rattle.sc_report.specs.Table.{table_name, table_text};
ghost use Rattle.sc_report.specs.declared.table.Table.{Table as Tabled};

use crate::cutoff_lines::cutoff_text;
use crate::reason_lines::reason_text;
use crate::text::assignment_text;
use sc_repair::Clearing;
use std::alloc::{AllocError, Global};

/// A table of a report.
#[derive(Clone, Copy, Debug, PartialEq, Eq)]
pub enum Table {
    /// The school that each student has.
    Assignment,
    /// The cutoff of each school.
    Cutoffs,
    /// Why a student has not a choice that they prefer to what they have.
    Reasons,
}

/// The table of this name, `assignment`, `cutoffs` or `reasons`; `None` for any other text.
pub fn table_named(name: &str) -> Option<Table>
    ensures named { IfSome result (λ table. name.now ≡ table_name table) }
    ensures unnamed { IfNone result ((table : Tabled) → name.now ≡ table_name table → ⊥) }
{
    match name {
        "assignment" => Some(Table::Assignment),
        "cutoffs" => Some(Table::Cutoffs),
        "reasons" => Some(Table::Reasons),
        _ => None,
    }
}

/// The text of one table of the report of the standing assignment, with its header. The only error is want of memory.
/// The cost is that of `assignment_text`, `cutoff_text` or `reason_text`.
pub fn table_text(alloc: Global, clearing: &Clearing, table: Table) -> Result<Vec<u8>, AllocError>
    ensures { IfOk result (λ text. text.items
        ≡ table_text clearing.now.standing.papers (matching_of clearing.now.standing) table) }
{
    match table {
        Table::Assignment => assignment_text(alloc, clearing),
        Table::Cutoffs => cutoff_text(alloc, clearing),
        Table::Reasons => reason_text(alloc, clearing),
    }
}
