ghost use Rattle.std.specs.Prelude.{◌≡◌, ◌<◌, ◌≤◌, List, [], length, map, min, remove, take, slice_get, Some};
ghost use Rattle.std.specs.Prelude.{IfOk, IfSome, OnOk, OnErr};
ghost use Rattle.sc_papers.specs.Restriction.{joined};
ghost use Rattle.sc_papers.specs.Market.{students_of};
ghost use Rattle.sc_checkpoint.specs.Chains.{Chain, students_in, logs_in, replaced, with_chain};
ghost use Rattle.sc_checkpoint.specs.Spans.{chains_in, AreWithin};
ghost use Rattle.sc_checkpoint.specs.NextChoices.{next_choices_after};
ghost use Rattle.sc_checkpoint.specs.Positions.{LieBelow};

use crate::next_choices::rejected_ranks;
use crate::span::{Span, Spans, push_span, replace_spans};
use crate::standing::Standing;
use sc_papers::{FlatPapers, MOST_STUDENTS, Rejection, StudentNo};
use std::alloc::{AllocError, Global};
use std::collections::VecDeque;
use std::marker::Model;

/// The log of rejections cut into segments, one for each student in order of entry: the rejections of
/// the student's chain. A checkpoint is a position from 0 to their number, and nothing is stored for
/// it: the log after the first k students entered is the first k segments, joined.
///
/// All entries lie in one piece of memory, and a renewed segment is put at its end, so that the others stay where
/// they are. Once the entries of segments that have gone are twice as many as all others and the segments, these are put
/// together, so that each amendment bears its part of that.
pub struct Segments {
    alloc: Global,
    spans: VecDeque<Span>,
    entries: Vec<Rejection>,
    // How many entries belong to no segment any more. Nothing but the cost depends on it.
    gone: usize,
}

impl Drop for Segments {
    fn drop(self) {
        let Segments {
            alloc: _,
            spans: _,
            entries: _,
            gone: _,
        } = self;
    }
}

impl Model for Segments {
    ghost Value = { List Chain };

    ghost view = { λ s. chains_in s.entries.items s.spans.items };

    ghost invariant = { λ s. AreWithin s.entries.items s.spans.items };
}

impl Segments {
    /// No segments. It takes no memory.
    pub fn new(alloc: Global) -> Self
        ensures { result ≡ [] }
    {
        Segments {
            alloc,
            spans: VecDeque::new(alloc),
            entries: Vec::new(alloc),
            gone: 0,
        }
    }

    /// How many entries belong to segments.
    fn entries_kept(&self) -> usize {
        self.entries.len().saturating_sub(self.gone)
    }

    /// Puts the student's segment at the end. A refused growth changes nothing. The cost is the
    /// segment's length.
    pub fn push(&mut self, student: StudentNo, rejections: &[Rejection]) -> Result<(), AllocError>
        ensures pushed { OnOk result (self.new ≡ with_chain self.old student rejections.now) }
        ensures unchanged { OnErr result (self.new ≡ self.old) }
    {
        push_span(&mut self.spans, &mut self.entries, student, rejections)?;
        Ok(())
    }

    /// How many segments there are.
    pub fn len(&self) -> usize
        ensures { result ≡ length self.now }
    {
        self.spans.len()
    }

    /// How many rejections the segments have, all together, or the greatest number where they have more. One
    /// pass over the segments.
    pub fn log_len(&self) -> usize
        ensures { result ≡ min (length (joined (logs_in self.now))) usize.MAX }
    {
        let mut count = 0_usize;
        for position in 0..self.len() {
            count = count.saturating_add(self.segment(position).len());
        }
        count
    }

    /// The segment at a position, from 0, lent: the rejections of one student's chain. In constant
    /// time.
    pub fn segment(&self, k: usize) -> &[Rejection]
        requires { k < length self.now }
        ensures { slice_get (logs_in self.now) k ≡ Some result.now }
    {
        let span = self.spans[k];
        &self.entries[span.start..span.end]
    }

    /// The student whose segment stands at a position, from 0. In constant time.
    pub fn student(&self, k: usize) -> StudentNo
        requires { k < length self.now }
        ensures { slice_get (students_in self.now) k ≡ Some result }
    {
        self.spans[k].student
    }

    /// The whole log as a value of its own: the segments joined. The only error is a refused growth. The cost
    /// is a look at each segment and the log's length.
    pub fn flat(&self) -> Result<Vec<Rejection>, AllocError>
        ensures { IfOk result (λ log. log.items ≡ joined (logs_in self.now)) }
    {
        let log = self.prefix(self.len())?;
        Ok(log)
    }

    /// The log of the first `k` students as a value of its own: the first `k` segments joined. The only error is
    /// a refused growth. The cost is `k` and the log's length.
    #[tactic(auto, using(crate::proofs::Marking::joined_next))]
    pub fn prefix(&self, k: usize) -> Result<Vec<Rejection>, AllocError>
        requires { k ≤ length self.now }
        ensures { IfOk result (λ log. log.items ≡ joined (take k (logs_in self.now))) }
    {
        let mut log = Vec::new(self.alloc);
        for position in 0..k {
            log.extend_from_slice(self.segment(position))?;
        }
        Ok(log)
    }

    /// The first `k` segments, or the error of a refused growth. The cost is `k` and the length of
    /// their log, which are copied.
    #[tactic(auto, using(crate::proofs::Marking::chain_next))]
    pub fn copy_prefix(&self, k: usize) -> Result<Self, AllocError>
        requires { k ≤ length self.now }
        ensures { IfOk result (λ segments. segments ≡ take k self.now) }
    {
        let mut copy = Segments {
            alloc: self.alloc,
            spans: VecDeque::with_capacity(self.alloc, k)?,
            entries: Vec::with_capacity(self.alloc, self.entries_kept())?,
            gone: 0,
        };
        for position in 0..k {
            copy.push(self.student(position), self.segment(position))?;
        }
        Ok(copy)
    }

    /// Where the first `k` students of the papers stand after the log of their segments: each one's
    /// next choice, the first that has not rejected them, whatever the log says. The only error is a
    /// refused growth.
    ///
    /// The cost is that of copying their log, and for each of its entries a look-up of the student by number and a pass over
    /// the student's row.
    pub fn next_choices_at(
        &self,
        papers: &FlatPapers,
        k: usize,
    ) -> Result<Vec<Standing>, AllocError>
        requires within { k ≤ length self.now }
        requires students { take k (students_in self.now) ≡ take k (students_of papers.now) }
        ensures { IfOk result (λ next_choices. next_choices.items
            ≡ next_choices_after papers.now (joined (take k (logs_in self.now))) (take k (students_of papers.now))) }
    {
        // This call tells that the papers are within their limits, and so are their lists.
        prove!(papers.students_len() <= MOST_STUDENTS);
        let log = self.prefix(k)?;
        let rejected = rejected_ranks(self.alloc, papers, log.as_slice(), k)?;
        let mut next_choices = Vec::with_capacity(self.alloc, k)?;
        for position in 0..k {
            let Some(student) = papers.student_at(position) else {
                unreachable!()
            };
            let next = papers.choice_at(position, rejected[position].first_outside());
            next_choices.push(Standing { student, next })?;
        }
        Ok(next_choices)
    }

    /// Gives the segments at some positions up for renewed ones, in turn: one at each position. Their entries are those of
    /// the log. A refused growth changes nothing.
    ///
    /// The cost is that of the positions and of the log. The entries of the segments that are given up keep their room
    /// until they are twice as many as the segments and all other entries; then these are copied, which takes a look at
    /// each segment, and where there is no room for a copy they stay where they are.
    pub fn replace(
        &mut self,
        positions: &[usize],
        renewed: &Spans,
        log: &[Rejection],
    ) -> Result<(), AllocError>
        requires within { LieBelow (length self.old) positions.now }
        requires one_each { length renewed.now ≡ length positions.now }
        requires log { AreWithin log.now renewed.now }
        ensures replaced { OnOk result (self.new ≡ replaced self.old positions.now (chains_in log.now renewed.now)) }
        ensures unchanged { OnErr result (self.new ≡ self.old) }
    {
        let gone = replace_spans(&mut self.spans, &mut self.entries, positions, renewed, log)?;
        self.gone = self.gone.saturating_add(gone);
        if let Some(copy) = self.tidy_copy() {
            *self = copy;
        }
        Ok(())
    }

    /// A copy of the entries that belong to segments alone, where so many have gone that it costs less than what made
    /// them go, and where there is room for it.
    fn tidy_copy(&self) -> Option<Self>
        ensures { IfSome result (λ copy. copy ≡ self.now) }
    {
        if self.gone / 2 <= self.entries_kept().saturating_add(self.spans.len()) {
            return None;
        }
        self.copy_prefix(self.len()).ok()
    }

    /// Takes out the segment at a position. It takes no memory. The cost is that of moving the fewer of the spans before
    /// and behind it.
    #[tactic(auto, using(crate::proofs::Spanned::chains_without))]
    pub fn remove(&mut self, position: usize)
        requires { position < length self.old }
        ensures { self.new ≡ remove self.old position }
    {
        let Some(span) = self.spans.remove(position) else {
            unreachable!()
        };
        self.gone = self.gone.saturating_add(span.len());
    }
}
