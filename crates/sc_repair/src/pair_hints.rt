//! Guesses at where the pairs of an assignment stand.

use sc_papers::{Assignment, FlatPapers, StudentNo};
use std::alloc::{AllocError, Global};

/// By a student's position in the order of entry: where their pair may stand in the order of an assignment.
///
/// No call here promises anything of what it answers, and none has a clause: a hint is a guess, which its reader tests
/// before it is used. Where it is right, it spares a look-up by number; nothing else depends on it.
#[derive(Drop)]
pub(crate) struct PairHints {
    pairs: Vec<u32>,
}

/// Where the next student's pair stands, if their pairs stand in order of entry and this is where the student's own
/// would.
fn next_pair(assignment: &Assignment, pair: usize, student: Option<StudentNo>) -> usize {
    let Some(found) = assignment.at(pair) else {
        return pair;
    };
    if student == Some(found.0) {
        return pair.saturating_add(1);
    }
    pair
}

/// A position as a hint is kept.
fn hint_of(pair: usize) -> u32 {
    u32::try_from(pair).unwrap_or(0)
}

impl PairHints {
    /// Hints that are right where the pairs of the assignment stand in order of entry. One pass over the students. The
    /// only error is want of memory.
    pub(crate) fn of(
        alloc: Global,
        papers: &FlatPapers,
        assignment: &Assignment,
    ) -> Result<Self, AllocError> {
        let mut pairs = Vec::with_capacity(alloc, papers.students_len())?;
        let mut pair = 0;
        for position in 0..papers.students_len() {
            pairs.push(hint_of(pair))?;
            pair = next_pair(assignment, pair, papers.student_at(position));
        }
        Ok(PairHints { pairs })
    }

    /// Where the pair of the student at the position may stand: any number, which its reader tests.
    pub(crate) fn guess(&self, position: usize) -> usize {
        self.pairs.get(position).map_or(0, |pair| *pair as usize)
    }

    /// Keeps where the pair of the student at the position stands; where there is no room for it, it is forgotten.
    pub(crate) fn note(&mut self, position: usize, pair: usize) {
        if self.pairs.len() <= position {
            let _ = self.pairs.resize(position.saturating_add(1), 0);
        }
        if let Some(hint) = self.pairs.get_mut(position) {
            *hint = hint_of(pair);
        }
    }

    /// The student at the position leaves the order of entry: whoever stands behind moves up by one.
    pub(crate) fn leave(&mut self, position: usize) {
        if position < self.pairs.len() {
            let _ = self.pairs.remove(position);
        }
    }
}
