//! Where a turn ended, and how many proposals the turns of some students made.

ghost use Rattle.std.specs.Prelude.{◌≡◌, ◌<◌, ◌≤◌, ◌+◌, ◌-◌, IfSome, None, get_or, is_some, length, map, if◌then◌else◌};
ghost use Rattle.sc_papers.specs.Market.{student_at};
ghost use Rattle.sc_papers.specs.Restriction.{IsSegmented};
ghost use Rattle.sc_checkpoint.specs.Chains.{logs_in};
ghost use Rattle.sc_checkpoint.specs.Positions.{LieBelow};
ghost use Rattle.sc_ledgers.specs.Ends.{place_of, AreEnds};
ghost use Rattle.sc_ledgers.specs.Proposals.{choice_after, end_of, made_at};
ghost use Rattle.sc_ledgers.specs.declared.ends.TheConstants.{NOWHERE};

use crate::ends::Ends;
use sc_checkpoint::Segments;
use sc_papers::{FlatPapers, MOST_STUDENTS, Rejection, SchoolNo};

/// The choice of a student after the school that rejected them, if there is one. The guess is where they may stand in the order of entry:
/// if they do, no student is looked up by number, and the answer is the same with any.
pub(crate) fn choice_after(papers: &FlatPapers, guess: usize, entry: &Rejection) -> Option<SchoolNo>
    ensures { result ≡ choice_after papers.now entry.now }
{
    let Some(position) = papers.student_position_near(entry.student, guess) else {
        return None;
    };
    let Some(rank) = papers.choice_rank_at(position, entry.school) else {
        return None;
    };
    // This call tells that the papers are within their limits, so that a rank can be counted.
    prove!(papers.students_len() <= MOST_STUDENTS);
    papers.choice_at(position, rank + 1)
}

/// The choice at which the chain of a turn ended, in which the student at a position entered and of which these rejections came: that
/// after the last of them, or the student's first where there is none.
fn end_of(papers: &FlatPapers, position: usize, segment: &[Rejection]) -> Option<SchoolNo>
    requires { position < length papers.now.students }
    ensures { result ≡ end_of papers.now (student_at papers.now position) segment.now }
{
    match segment.last() {
        Some(entry) => choice_after(papers, position, entry),
        None => papers.choice_at(position, 0),
    }
}

/// The position of the school at which the chain of a turn ended, if it ended at one.
pub(crate) fn end_place(
    papers: &FlatPapers,
    position: usize,
    segment: &[Rejection],
) -> Option<usize>
    requires { position < length papers.now.students }
    ensures place { result ≡ place_of papers.now (end_of papers.now (student_at papers.now position) segment.now) }
    ensures few { IfSome result (λ place. place < NOWHERE) }
{
    // This call tells that the papers are within their limits, so that no position is as great as that of no school.
    prove!(papers.students_len() <= MOST_STUDENTS);
    let school = end_of(papers, position, segment)?;
    papers.school_position(school)
}

/// How many proposals a turn made, of which these rejections came and which ended there: each came to a rejection, or to the place in which
/// the turn ended.
fn made_in(segment: &[Rejection], end: Option<usize>) -> u64
    ensures { result ≡ length segment.now + (if is_some end then 1 else 0) }
{
    segment.len() as u64 + u64::from(end.is_some())
}

/// Where the turn at a position ended, of which these rejections came: that is kept, or looked up.
fn end_at(
    papers: &FlatPapers,
    ends: Option<&Ends>,
    at: usize,
    segment: &[Rejection],
) -> Option<usize>
    requires within { at < length papers.now.students }
    requires low { IfSome ends (λ kept. at < length kept.now) }
    requires kept { IfSome ends (λ kept. get_or kept.now at None
        ≡ place_of papers.now (end_of papers.now (student_at papers.now at) segment.now)) }
    ensures { result ≡ place_of papers.now (end_of papers.now (student_at papers.now at) segment.now) }
{
    match ends {
        Some(kept) => kept.get(at),
        None => end_place(papers, at, segment),
    }
}

/// What `proposals_at` says, and by the segments alone where no ends are kept.
fn count_made(
    papers: &FlatPapers,
    segments: &Segments,
    ends: Option<&Ends>,
    positions: &[usize],
    gap: usize,
) -> u64
    requires within { LieBelow (length segments.now) (map (λ p. p - gap) positions.now) }
    requires few { length positions.now ≤ length papers.now.students }
    requires run { IsSegmented papers.now (logs_in segments.now) }
    requires ends { IfSome ends (λ kept. AreEnds papers.now (logs_in segments.now) kept.now) }
    ensures { result ≡ made_at papers.now (logs_in segments.now) (map (λ p. p - gap) positions.now) }
{
    // This call tells that the papers are well-formed and within their limits, so that a log is not too long to be counted.
    prove!(papers.students_len() <= MOST_STUDENTS);
    let mut count = 0_u64;
    for position in positions {
        let at = position.saturating_sub(gap);
        let segment = segments.segment(at);
        count += made_in(segment, end_at(papers, ends, at, segment));
    }
    count
}

/// How many proposals the turns at these positions made, of all whose segments these are. Where a student has left, whoever stood behind
/// stands one position further on: the turns counted are those at each position less the gap.
///
/// The cost is that of the positions. No rejection is looked at.
pub fn proposals_at(
    papers: &FlatPapers,
    segments: &Segments,
    ends: &Ends,
    positions: &[usize],
    gap: usize,
) -> u64
    requires within { LieBelow (length segments.now) (map (λ p. p - gap) positions.now) }
    requires few { length positions.now ≤ length papers.now.students }
    requires run { IsSegmented papers.now (logs_in segments.now) }
    requires ends { AreEnds papers.now (logs_in segments.now) ends.now }
    ensures { result ≡ made_at papers.now (logs_in segments.now) (map (λ p. p - gap) positions.now) }
{
    count_made(papers, segments, Some(ends), positions, gap)
}

/// What `proposals_at` says, where it is not kept where each turn ended: it is looked up for the turns at these positions.
pub fn proposals_of(
    papers: &FlatPapers,
    segments: &Segments,
    positions: &[usize],
    gap: usize,
) -> u64
    requires within { LieBelow (length segments.now) (map (λ p. p - gap) positions.now) }
    requires few { length positions.now ≤ length papers.now.students }
    requires run { IsSegmented papers.now (logs_in segments.now) }
    ensures { result ≡ made_at papers.now (logs_in segments.now) (map (λ p. p - gap) positions.now) }
{
    count_made(papers, segments, None, positions, gap)
}
