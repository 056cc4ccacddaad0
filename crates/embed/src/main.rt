//! School choice in a program of one's own: papers that are made in code, what stands, an amendment, another one
//! that comes too late, and the report. `docs/EMBED.md` goes through it.
#![tactic(auto)]

use sc_papers::{
    Amendment, Papers, SchoolList, SchoolNo, Seats, Seed, Stamp, Stamped, StudentNo, Zone,
};
use sc_repair::Clearing;
use sc_report::report_text;
use std::alloc::Global;
use std::io::Write;
use std::process::ExitCode;

/// Why the example ended early.
#[derive(Clone, Copy, Debug, PartialEq, Eq)]
enum EmbedError {
    /// A number is out of its range.
    Range,
    /// The papers refuse a school or an amendment, for want of memory or another reason.
    Refused,
    /// There is no memory, or the output cannot be written.
    Device,
}

/// The seed of zeros. A district draws its own, in public.
const SEED: &[u8; 64] = b"0000000000000000000000000000000000000000000000000000000000000000";

fn school(number: u32) -> Result<SchoolNo, EmbedError> {
    SchoolNo::new(number).ok_or(EmbedError::Range)
}

fn student(number: u32) -> Result<StudentNo, EmbedError> {
    StudentNo::new(number).ok_or(EmbedError::Range)
}

/// A rank-order list of two schools, best first.
fn two_choices(alloc: Global, best: u32, other: u32) -> Result<SchoolList, EmbedError> {
    let schools = [school(best)?, school(other)?];
    match Vec::from_slice(alloc, &schools) {
        Ok(schools) => Ok(SchoolList::from_vec(schools)),
        Err(_) => Err(EmbedError::Device),
    }
}

/// The amendment by which a student enters who lives in no zone and has no siblings at a school.
fn enter(alloc: Global, number: u32, best: u32, other: u32) -> Result<Amendment, EmbedError> {
    Ok(Amendment::Enter {
        student: student(number)?,
        zone: Zone::new(0).ok_or(EmbedError::Range)?,
        siblings: SchoolList::from_vec(Vec::new(alloc)),
        choices: two_choices(alloc, best, other)?,
        continuing: None,
    })
}

/// Adds a school of one seat that is in no zone.
fn add_school(papers: &mut Papers, number: u32) -> Result<(), EmbedError> {
    let zone = Zone::new(0).ok_or(EmbedError::Range)?;
    let seats = Seats::new(1).ok_or(EmbedError::Range)?;
    match papers.add_school(school(number)?, zone, seats) {
        Ok(()) => Ok(()),
        Err(_) => Err(EmbedError::Refused),
    }
}

/// Enters a student.
fn add_student(
    alloc: Global,
    papers: &mut Papers,
    number: u32,
    best: u32,
    other: u32,
) -> Result<(), EmbedError> {
    match papers.apply(enter(alloc, number, best, other)?) {
        Ok(()) => Ok(()),
        Err(_) => Err(EmbedError::Refused),
    }
}

/// Adds two schools of one seat each, and two students who would each have another one.
fn fill(alloc: Global, papers: &mut Papers) -> Result<(), EmbedError> {
    add_school(papers, 10)?;
    add_school(papers, 20)?;
    add_student(alloc, papers, 1, 10, 20)?;
    add_student(alloc, papers, 2, 20, 10)
}

/// The papers of the example, settled.
fn opened(alloc: Global) -> Result<Clearing, EmbedError> {
    let Ok(seed) = Seed::from_hex(SEED) else {
        return Err(EmbedError::Range);
    };
    let mut papers = Papers::new(alloc, seed);
    match fill(alloc, &mut papers) {
        Ok(()) => match Clearing::open(alloc, papers) {
            Ok(clearing) => Ok(clearing),
            Err(_) => Err(EmbedError::Device),
        },
        Err(error) => Err(error),
    }
}

/// Student 2 would have school 10 first, says a desk that has seen no amendment of theirs.
fn rerank(alloc: Global) -> Result<Stamped, EmbedError> {
    Ok(Stamped {
        stamp: Stamp::ZERO,
        amendment: Amendment::Rerank {
            student: student(2)?,
            choices: two_choices(alloc, 10, 20)?,
        },
    })
}

/// Makes the amendment of a desk, and tells where it is refused: its code, its name, and the stamp that stands.
fn amend(rt: &HostRuntime, clearing: &mut Clearing) -> Result<(), EmbedError> {
    let told = match clearing.amend(rerank(rt.alloc())?) {
        Ok(()) => writeln!(rt.stdout(), "accepted"),
        Err(refusal) => writeln!(rt.stdout(), "refused: {refusal}"),
    };
    match told {
        Ok(()) => Ok(()),
        Err(_) => Err(EmbedError::Device),
    }
}

/// Writes the report of what stands.
fn report(rt: &HostRuntime, clearing: &Clearing) -> Result<(), EmbedError> {
    let Ok(text) = report_text(rt.alloc(), clearing) else {
        return Err(EmbedError::Device);
    };
    match rt.stdout().write_all(text.as_slice()) {
        Ok(()) => Ok(()),
        Err(_) => Err(EmbedError::Device),
    }
}

/// Two desks amend the same student, the second without having seen what the first did; and then the report.
fn go_on(rt: &HostRuntime, clearing: &mut Clearing) -> Result<(), EmbedError> {
    amend(rt, clearing)?;
    amend(rt, clearing)?;
    report(rt, clearing)
}

fn run(rt: &HostRuntime) -> Result<(), EmbedError> {
    let mut clearing = opened(rt.alloc())?;
    let done = go_on(rt, &mut clearing);
    drop(clearing);
    done
}

fn main(rt: HostRuntime) -> ExitCode {
    match run(&rt) {
        Ok(()) => ExitCode::SUCCESS,
        Err(_) => ExitCode::FAILURE,
    }
}
