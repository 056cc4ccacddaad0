//! The journal replayed over the papers that it was kept for.
ghost use Rattle.std.specs.Prelude.{◌≡◌, ◌+◌, ◌≤◌, drop, length, IfOk, MatchOption, MatchResult};
ghost use Rattle.sc_journal.specs.Journal.{tail_of, IsReplay, IsReplayFault, IsUnbroken, LeavesClearing};
ghost use Rattle.sc_journal.specs.Replaying.{IsBeforeLast, IsCauseOrMemory, IsEnd, IsLineEnd, IsReadCause, IsSettledLine, IsTaken};
ghost use Rattle.sc_lines.specs.Spelling.{IsLineOf};
ghost use Rattle.sc_stamps.specs.Verdict.{unamended};
ghost use Rattle.sc_repair.specs.Standing.{IsCertified};

use crate::fault::{JournalCause, JournalFault};
use memchr::memchr;
use sc_lines::{LineNo, read_line};
use sc_papers::{Amendment, Papers, Refusal};
use sc_repair::{Clearing, Unsettled};
use std::alloc::Global;

/// How a journal ends.
#[derive(Clone, Copy, Debug, PartialEq, Eq)]
pub enum Tail {
    /// With a newline, or without a byte.
    Whole,
    /// With bytes after the last newline: a line that was not written whole. They are left unread.
    Torn,
}

/// Where the line that begins at an index ends: at the next newline, if there is one.
fn line_end(bytes: &[u8], start: usize) -> Option<usize>
    requires { start ≤ length bytes.now }
    ensures { MatchOption result (IsUnbroken (drop start bytes.now)) (IsLineEnd bytes.now start) }
{
    let index = memchr(b'\n', &bytes[start..])?;
    Some(start + index)
}

/// The amendment of the line of this number.
fn amendment_of(alloc: Global, number: u64, text: &[u8]) -> Result<Amendment, JournalCause>
    ensures { MatchResult result (IsLineOf text.now number) (IsReadCause number text.now) }
{
    let Ok(line) = read_line(alloc, text) else {
        return Err(JournalCause::OutOfMemory);
    };
    let Some(line) = line else {
        return Err(JournalCause::Shape);
    };
    if number > u64::from(LineNo::GREATEST) {
        return Err(JournalCause::JournalFull);
    }
    if u64::from(line.number.get()) != number {
        return Err(JournalCause::Number);
    }
    Ok(line.amendment)
}

/// Makes the amendment of the line of this number, which is the next.
fn apply_line(
    alloc: Global,
    amended: &mut Unsettled,
    number: u64,
    text: &[u8],
) -> Result<(), JournalCause>
    requires next { number ≡ amended.old.stamps.accepted + 1 }
    ensures { MatchResult result (λ done. IsTaken amended.old amended.new number text.now)
        (IsCauseOrMemory amended.old.papers number text.now) }
{
    let amendment = match amendment_of(alloc, number, text) {
        Ok(amendment) => amendment,
        Err(cause) => return Err(cause),
    };
    match amended.apply(amendment) {
        Ok(()) => Ok(()),
        Err(Refusal::OutOfMemory) => Err(JournalCause::OutOfMemory),
        Err(refusal) => Err(JournalCause::Refused(refusal)),
    }
}

/// The last whole line of a journal: its number, where it begins, and where its newline stands.
#[derive(Clone, Copy)]
struct LastLine {
    number: u64,
    start: usize,
    end: usize,
}

/// Makes the amendments of the whole lines but the last in turn, and says where that one stands.
fn apply_before_last(
    alloc: Global,
    amended: &mut Unsettled,
    bytes: &[u8],
) -> Result<Option<LastLine>, JournalFault>
    requires unamended { amended.old.stamps.accepted ≡ 0 }
    ensures { MatchResult result (IsBeforeLast amended.old amended.new bytes.now) (IsReplayFault amended.old bytes.now) }
{
    let mut start = 0;
    let mut number = 0;
    let mut line = line_end(bytes, 0);
    'lines: while let Some(end) = line {
        number += 1;
        // Where the next line begins can be counted.
        prove!(end < bytes.len());
        line = line_end(bytes, end + 1);
        if line.is_none() {
            return Ok(Some(LastLine { number, start, end }));
        }
        if let Err(cause) = apply_line(alloc, amended, number, &bytes[start..end]) {
            return Err(JournalFault::at(number, cause));
        }
        start = end + 1;
    }
    Ok(None)
}

/// Makes the amendments of the whole lines in turn, and says where the last of them ends.
fn apply_lines(alloc: Global, amended: &mut Unsettled, bytes: &[u8]) -> Result<usize, JournalFault>
    requires unamended { amended.old.stamps.accepted ≡ 0 }
    ensures { MatchResult result (IsEnd amended.old amended.new bytes.now) (IsReplayFault amended.old bytes.now) }
{
    let Some(last) = apply_before_last(alloc, amended, bytes)? else {
        return Ok(0);
    };
    match apply_line(alloc, amended, last.number, &bytes[last.start..last.end]) {
        Ok(()) => Ok(last.end + 1),
        Err(cause) => Err(JournalFault::at(last.number, cause)),
    }
}

/// Settles papers, and makes the amendment of the line of this number, which is the next, in the clearing of them.
fn settle_and_amend(
    alloc: Global,
    amended: Unsettled,
    number: u64,
    text: &[u8],
) -> Result<Clearing, JournalCause>
    requires next { number ≡ amended.stamps.accepted + 1 }
    ensures { MatchResult result (λ clearing. IsSettledLine amended clearing number text.now)
        (IsCauseOrMemory amended.papers number text.now) }
{
    let amendment = match amendment_of(alloc, number, text) {
        Ok(amendment) => amendment,
        Err(cause) => return Err(cause),
    };
    let mut clearing = match amended.settle(alloc) {
        Ok(clearing) => clearing,
        Err(_) => return Err(JournalCause::OutOfMemory),
    };
    match clearing.papers().check(&amendment) {
        Ok(()) => (),
        Err(refusal) => return Err(JournalCause::Refused(refusal)),
    }
    match clearing.amend_allowed(amendment) {
        Ok(()) => Ok(clearing),
        Err(_) => Err(JournalCause::OutOfMemory),
    }
}

/// How a journal ends whose last newline stands before an index.
fn tail_after(bytes: &[u8], end: usize) -> Tail
    ensures { result ≡ tail_of (drop end bytes.now) }
{
    if end < bytes.len() {
        Tail::Torn
    } else {
        Tail::Whole
    }
}

/// Makes the amendments of a journal in turn, and gives the papers as they then stand, not settled: those of
/// the run whose journal it is, order of entry and stamps included. Bytes after the last newline are left
/// unread, and the tail says whether there are any.
///
/// The papers are those of an opening, whose stamps are 0. A line has no stamp, so no line is ever stale:
/// the amendment of the line of number k gives its record the stamp k.
///
/// The fault names the first line that is not taken, with the first cause that applies. After a fault
/// the papers are given up; who needs them keeps a copy.
///
/// The cost is one pass over the bytes, and that of `Unsettled::apply` for each amendment, which is a few look-ups.
pub fn replay_papers(
    alloc: Global,
    papers: Papers,
    bytes: &[u8],
) -> Result<(Unsettled, Tail), JournalFault>
    ensures { MatchResult result (λ done. IsReplay (unamended papers) done.0 bytes.now done.1)
        (IsReplayFault (unamended papers) bytes.now) }
{
    let mut amended = match Unsettled::new(alloc, papers) {
        Ok(amended) => amended,
        Err(_) => return Err(JournalFault::no_memory()),
    };
    let end = apply_lines(alloc, &mut amended, bytes)?;
    let tail = tail_after(bytes, end);
    Ok((amended, tail))
}

/// Does what `replay_papers` does, and answers a clearing of the papers as they then stand, with their stamps: as
/// `Clearing::open` and `amend` by each line leave it, so that its last count of proposals is that of the last line,
/// or of the opening where there is no line.
///
/// The cost is that of `replay_papers`, of one settling, and of one `Clearing::amend`: all lines but the last are amended
/// unsettled.
pub fn replay(alloc: Global, papers: Papers, bytes: &[u8]) -> Result<(Clearing, Tail), JournalFault>
    ensures replay { MatchResult result (λ done. LeavesClearing (unamended papers) done.0 bytes.now done.1)
        (IsReplayFault (unamended papers) bytes.now) }
    ensures certified { IfOk result (λ done. IsCertified done.0.standing) }
{
    let mut amended = match Unsettled::new(alloc, papers) {
        Ok(amended) => amended,
        Err(_) => return Err(JournalFault::no_memory()),
    };
    let Some(last) = apply_before_last(alloc, &mut amended, bytes)? else {
        let Ok(clearing) = amended.settle(alloc) else {
            return Err(JournalFault::no_memory());
        };
        return Ok((clearing, tail_after(bytes, 0)));
    };
    match settle_and_amend(alloc, amended, last.number, &bytes[last.start..last.end]) {
        Ok(clearing) => Ok((clearing, tail_after(bytes, last.end + 1))),
        Err(cause) => Err(JournalFault::at(last.number, cause)),
    }
}
