//! Texts that are told in pieces.
use super::{MARKET_B_FILES, seed};
use crate::comparing::same;
use sc_papers::Seed;
use sc_report::Watched;
use sc_report::devices::{Ending, FailingWriter};
use sc_runs::{Explained, Opening, RunFault, Tail, explain_files};
use std::alloc::{AllocError, Global};
use std::io::Write;
use std::process::Abort;

/// The roster and the lists of 1,600 students who list school 10 alone. What came of their choices is more than one piece.
#[derive(Drop)]
struct Crowd {
    roster: Vec<u8>,
    lists: Vec<u8>,
}

fn make_crowd(alloc: Global) -> Result<Crowd, AllocError> {
    let mut roster = Vec::from_slice(alloc, b"student,zone,siblings\n")?;
    let mut lists = Vec::from_slice(alloc, b"student,choices\n")?;
    for student in 1..1_601 {
        let row = format!(in alloc; "{student},0,\n")?;
        roster.extend_from_slice(row.as_bytes())?;
        let list = format!(in alloc; "{student},10\n")?;
        lists.extend_from_slice(list.as_bytes())?;
    }
    Ok(Crowd { roster, lists })
}

/// Explains the choices of the crowd at Market B's schools to this writer.
fn explain_crowd<W: Write>(
    alloc: Global,
    seed: &Seed,
    crowd: &Crowd,
    out: &mut Watched<W>,
) -> Result<Explained, RunFault> {
    let (schools, _, _) = MARKET_B_FILES;
    let mut files = Opening {
        schools: Watched::new(schools.as_bytes()),
        roster: Watched::new(crowd.roster.as_slice()),
        lists: Watched::new(crowd.lists.as_slice()),
    };
    explain_files(alloc, seed, &mut files, &mut None, None, out)
}

/// What came of the choices of the crowd, written whole.
fn explained(rt: &impl Abort, alloc: Global, crowd: &Crowd) -> Vec<u8> {
    let mut out = Watched::new(Vec::new(alloc));
    let answer = explain_crowd(alloc, &seed(rt), crowd, &mut out);
    same(
        rt,
        &answer.ok(),
        &Some(Explained::Written { tail: Tail::Whole }),
    );
    Vec::from_slice(alloc, out.inner().as_slice()).expect(rt, "memory")
}

/// A writer that fails in the second piece has the text up to there.
fn expect_beginning(rt: &impl Abort, alloc: Global, crowd: &Crowd, whole: &[u8]) {
    let room = Vec::with_capacity(alloc, 70_000).expect(rt, "memory");
    let mut out = Watched::new(FailingWriter::new(room, 66_000, 999, Ending::Fails));
    let answer = explain_crowd(alloc, &seed(rt), crowd, &mut out);
    same(rt, &answer.err(), &Some(RunFault::WriteOut));
    let taken = out.inner().taken();
    same(rt, &taken.len(), &66_000);
    assert!(rt; whole.starts_with(taken));
}

#[test]
fn an_explanation_of_more_than_one_piece(rt: HostRuntime) {
    let crowd = make_crowd(rt.alloc()).expect(&rt, "memory");
    let whole = explained(&rt, rt.alloc(), &crowd);
    let lines = whole.iter().filter(|byte| **byte == b'\n').count();
    same(&rt, &lines, &1_601);
    expect_beginning(&rt, rt.alloc(), &crowd, whole.as_slice());
}
