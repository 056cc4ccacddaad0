//! Segments as spans of one list of entries.

ghost use Rattle.std.specs.Prelude.{◌≡◌, ℕ, ◌+◌, ◌≤◌, ◌<◌, ◌^◌, List, [], drop, length, map, slice_get, take, Some};
ghost use Rattle.std.specs.Prelude.{IfOk, OnErr, OnOk};
ghost use Rattle.sc_checkpoint.specs.Chains.{replaced, with_chain};
ghost use Rattle.sc_checkpoint.specs.Positions.{LieBelow};
ghost use Rattle.sc_checkpoint.specs.declared.span.Span.{Span};
ghost use Rattle.sc_checkpoint.specs.Spans.{chains_in, shifted, AreWithin};

use sc_papers::{Rejection, StudentNo};
use std::alloc::{AllocError, Global};
use std::collections::VecDeque;
use std::marker::Model;

/// Whose segment it is, and between which of the entries it stands.
#[derive(Clone, Copy)]
pub struct Span {
    pub(crate) student: StudentNo,
    pub(crate) start: usize,
    pub(crate) end: usize,
}

impl Span {
    /// The span, so many entries further on.
    fn shifted(self, by: usize) -> Self
        requires ordered { self.start ≤ self.end }
        requires fits { by + self.end < 2 ^ 64 }
        ensures { result ≡ shifted by self }
    {
        Span {
            student: self.student,
            start: by + self.start,
            end: by + self.end,
        }
    }

    /// How many entries there are between its ends.
    pub(crate) fn len(self) -> usize {
        self.end.saturating_sub(self.start)
    }
}

/// Puts a student's rejections at the end of the entries, and their span at the end of the spans. A refused growth
/// changes no chain.
#[tactic(auto, using(crate::proofs::Spanned::chains_pushed))]
pub(crate) fn push_span(
    spans: &mut VecDeque<Span>,
    entries: &mut Vec<Rejection>,
    student: StudentNo,
    rejections: &[Rejection],
) -> Result<(), AllocError>
    requires { AreWithin entries.old.items spans.old.items }
    ensures within { AreWithin entries.new.items spans.new.items }
    ensures pushed { OnOk result (chains_in entries.new.items spans.new.items
        ≡ with_chain (chains_in entries.old.items spans.old.items) student rejections.now) }
    ensures unchanged { OnErr result (chains_in entries.new.items spans.new.items
        ≡ chains_in entries.old.items spans.old.items) }
{
    let start = entries.len();
    spans.reserve(1)?;
    entries.extend_from_slice(rejections)?;
    let end = entries.len();
    spans.push_back_reserved(Span {
        student,
        start,
        end,
    });
    Ok(())
}

/// Segments whose entries are those of a log that somebody else keeps: which of them are whose.
#[derive(Drop)]
pub struct Spans {
    spans: Vec<Span>,
}

impl Model for Spans {
    ghost Value = { List Span };

    ghost view = { λ s. s.spans.items };
}

impl Spans {
    /// No segments, and room for so many. The only error is a refused growth.
    pub fn with_room(alloc: Global, count: usize) -> Result<Self, AllocError>
        ensures { IfOk result (λ spans. spans ≡ []) }
    {
        Ok(Spans {
            spans: Vec::with_capacity(alloc, count)?,
        })
    }

    /// Puts the segment of a student at the end, to whom the entries of the log belong from a place on. The others' come
    /// before that. A refused growth changes nothing. In constant time.
    #[tactic(auto, using(crate::proofs::Spanned::chains_ended))]
    pub fn push(
        &mut self,
        student: StudentNo,
        log: &[Rejection],
        start: usize,
    ) -> Result<(), AllocError>
        requires start { start ≤ length log.now }
        requires before { AreWithin (take start log.now) self.old }
        ensures within { OnOk result (AreWithin log.now self.new) }
        ensures pushed { OnOk result (chains_in log.now self.new
            ≡ with_chain (chains_in (take start log.now) self.old) student (drop start log.now)) }
        ensures unchanged { OnErr result (self.new ≡ self.old) }
    {
        self.spans.push(Span {
            student,
            start,
            end: log.len(),
        })?;
        Ok(())
    }
}

/// Gives the spans at some positions up for renewed ones, in turn, each so many entries further on. The answer is how
/// many entries those had that are given up.
fn replace_at(spans: &mut VecDeque<Span>, positions: &[usize], renewed: &[Span], by: usize) -> usize
    requires within { LieBelow (length spans.old.items) positions.now }
    requires one_each { length renewed.now ≡ length positions.now }
    requires ordered { (k : ℕ) (span : Span) → slice_get renewed.now k ≡ Some span → span.start ≤ span.end }
    requires fits { (k : ℕ) (span : Span) → slice_get renewed.now k ≡ Some span → by + span.end < 2 ^ 64 }
    ensures { spans.new.items ≡ replaced spans.old.items positions.now (map (shifted by) renewed.now) }
{
    let mut gone = 0_usize;
    for (turn, position) in positions.iter().enumerate() {
        gone = gone.saturating_add(spans[*position].len());
        spans[*position] = renewed[turn].shifted(by);
    }
    gone
}

/// Gives the spans at some positions up for renewed ones, in turn, whose entries come to the end of the entries. The
/// answer is how many entries have no span any more that had one. A refused growth changes no chain.
#[tactic(auto, using(crate::proofs::Spanned::chains_replaced, crate::proofs::Spanned::spans_replaced))]
pub(crate) fn replace_spans(
    spans: &mut VecDeque<Span>,
    entries: &mut Vec<Rejection>,
    positions: &[usize],
    renewed: &Spans,
    more: &[Rejection],
) -> Result<usize, AllocError>
    requires within { LieBelow (length spans.old.items) positions.now }
    requires one_each { length renewed.now ≡ length positions.now }
    requires own { AreWithin entries.old.items spans.old.items }
    requires theirs { AreWithin more.now renewed.now }
    ensures within { AreWithin entries.new.items spans.new.items }
    ensures replaced { OnOk result (chains_in entries.new.items spans.new.items
        ≡ replaced (chains_in entries.old.items spans.old.items) positions.now (chains_in more.now renewed.now)) }
    ensures unchanged { OnErr result (chains_in entries.new.items spans.new.items
        ≡ chains_in entries.old.items spans.old.items) }
{
    let by = entries.len();
    entries.extend_from_slice(more)?;
    // This call tells that the entries can be counted.
    prove!(entries.len() <= usize::MAX);
    Ok(replace_at(spans, positions, renewed.spans.as_slice(), by))
}
