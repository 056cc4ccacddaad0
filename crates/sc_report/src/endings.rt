//! How the lines about a school end: each ending is written once, however many lines have it.
ghost use Rattle.std.specs.Prelude.{◌≡◌, ◌<◌, nat_lt, length, slice_get, if◌then◌else◌, List, Some, IfOk};
ghost use Rattle.sc_papers.specs.declared.key.Key.{Key};
ghost use Rattle.sc_reasons.specs.Reason.{reason_by};
ghost use Rattle.sc_reasons.specs.declared.cutoff.CutoffRow.{CutoffRow};
ghost use Rattle.sc_report.specs.Endings.{line_ending, piece_text, place_ending, HasEndings, HaveEndings};

use crate::piece::Piece;
use crate::reason_lines::push_reason;
use sc_decimal::push_number;
use sc_papers::SchoolNo;
use sc_reasons::{Cutoff, CutoffRow, Reason};
use std::alloc::{AllocError, Global};

/// How the lines about a school end, after the student's number and the comma.
#[derive(Clone, Copy)]
struct SchoolEndings {
    last: u8,
    /// How many bytes the endings have of who misses it, and their blocks, as in a piece: where their class there is at most
    /// the last one, and where it is greater. Blocks alone have a power of two as their size, and then the compiler finds
    /// the one of a class without a branch.
    counts: [u8; 2],
    blocks: [[u8; 16]; 2],
    /// The ending of who has it.
    place: Piece,
}

/// For each school how the lines about it end.
pub(crate) struct Endings {
    schools: Vec<SchoolEndings>,
}

impl Drop for Endings {
    fn drop(self) {
        let Endings { schools: _ } = self;
    }
}

/// Makes the ending of a school's lines with a reason, in the place of what the text held.
fn ending_of(text: &mut Vec<u8>, school: SchoolNo, reason: Reason) -> Result<Piece, AllocError>
    ensures { IfOk result (λ piece. piece_text piece ≡ line_ending school reason) }
{
    text.clear();
    push_number(text, u64::from(school.get()))?;
    push_reason(text, reason)?;
    Ok(Piece::of(text.as_slice()))
}

/// A class, why a key does not get past a cutoff whose class is at most that one, and why where it is greater.
fn reasons_by_class(cutoff: Cutoff) -> (u8, Reason, Reason)
    ensures { (key : Key) → (if nat_lt result.0 key.class then result.2 else result.1) ≡ reason_by cutoff key }
{
    match cutoff {
        Cutoff::Closed => (0, Reason::Seats, Reason::Seats),
        Cutoff::Free => (0, Reason::Lottery, Reason::Lottery),
        Cutoff::Full { key } => (key.class, Reason::Lottery, Reason::Class),
    }
}

/// Makes the endings of the lines about the school of a row.
fn endings_of(text: &mut Vec<u8>, row: &CutoffRow) -> Result<SchoolEndings, AllocError>
    ensures { IfOk result (HasEndings row.now) }
{
    let (last, within, beyond) = reasons_by_class(row.cutoff);
    let within = ending_of(text, row.school, within)?;
    let beyond = ending_of(text, row.school, beyond)?;
    let block_within = within.bytes;
    let block_beyond = beyond.bytes;
    Ok(SchoolEndings {
        last,
        counts: [within.count, beyond.count],
        blocks: [block_within, block_beyond],
        place: Piece::number_then(row.school.get(), b'\n'),
    })
}

impl Endings {
    /// The endings of the lines about the schools of these rows, in their order. Memory is taken in proportion to the
    /// schools, and the only error is want of it. One pass.
    pub(crate) fn new(alloc: Global, rows: &[CutoffRow]) -> Result<Endings, AllocError>
        ensures { IfOk result (HaveEndings rows.now) }
    {
        let mut text = Vec::new(alloc);
        let mut schools = Vec::with_capacity(alloc, rows.len())?;
        for row in rows {
            schools.push(endings_of(&mut text, row)?)?;
        }
        Ok(Endings { schools })
    }

    /// How the line ends of a student who has the school at a position.
    pub(crate) fn place(&self, position: usize) -> Piece
        requires { position < length self.now.schools.items }
        ensures { (rows : List CutoffRow) (row : CutoffRow) → HaveEndings rows self.now
            → slice_get rows position ≡ Some row → piece_text result ≡ place_ending row.school }
    {
        self.schools[position].place
    }

    /// How a line ends about the school at a position and a student who misses it and has this class there. In constant
    /// time: no branch is taken on the class, since nobody can guess it.
    pub(crate) fn ending(&self, position: usize, class: u8) -> Piece
        requires { position < length self.now.schools.items }
        ensures { (rows : List CutoffRow) (row : CutoffRow) (key : Key) → HaveEndings rows self.now
            → slice_get rows position ≡ Some row → key.class ≡ class
            → piece_text result ≡ line_ending row.school (reason_by row.cutoff key) }
    {
        let school = &self.schools[position];
        let place = if school.last < class { 1 } else { 0 };
        Piece {
            bytes: school.blocks[place],
            count: school.counts[place],
        }
    }
}
