//! Runs whose devices fail: a script cut short, slow and failing outputs, bundles cut at each byte.
use super::{run_told, seed, told};
use crate::comparing::same;
use sc_papers::Seed;
use sc_report::Watched;
use sc_report::devices::{Ending, FailingReader, FailingWriter};
use sc_runs::{
    Ending as RunEnding, Inputs, Opening, RunFault, Settling, replay_files, run, run_bundle,
};
use std::alloc::{AllocError, Global};
use std::io::ErrorKind;
use std::process::Abort;

/// The script of the whole run over Market B.
const SCRIPT: &[u8] = b"0,enter,3,1,10,10\nnonsense\n0,withdraw,99\n0,add,77,1\n1,withdraw,3\n";

/// What the whole run writes to its output.
const OUTPUT: &str =
    "1,ok\n2,refused,1,Shape\n3,refused,2,UnknownStudent\n4,refused,6,UnknownSchool,77\n5,ok\nstudent,school\n1,10\n2,20\nschool,seats,held,class,draw,student\n10,1,1,4,e56a5d4028bd8653,1\n20,1,1,4,b819d2bd1aed8da0,2\nstudent,school,reason\n";

/// What the whole run writes to its journal.
const JOURNAL: &str = "1,enter,3,1,10,10\n2,withdraw,3\n";

/// How a writer takes what it is given: so many bytes, in pieces of this size, and then it ends so.
#[derive(Clone, Copy)]
struct Taking {
    passes: usize,
    piece: usize,
    ending: Ending,
}

/// A writer that takes all that it is given.
const WHOLE: Taking = Taking {
    passes: 999,
    piece: 999,
    ending: Ending::Fails,
};

/// A writer of which one call fails with an error of this kind, after so many bytes, and the later ones do not.
fn once(kind: ErrorKind, passes: usize) -> Taking {
    Taking {
        passes,
        piece: 999,
        ending: Ending::FailsOnce(kind),
    }
}

/// A writer over memory, whose room is made beforehand.
fn writer(alloc: Global, taking: Taking) -> Result<Watched<FailingWriter>, AllocError> {
    let room = Vec::with_capacity(alloc, 999)?;
    let device = FailingWriter::new(room, taking.passes, taking.piece, taking.ending);
    Ok(Watched::new(device))
}

/// A reader that gives all.
fn whole(bytes: &[u8]) -> Watched<FailingReader<'_>> {
    Watched::new(FailingReader::new(bytes, bytes.len() + 1, 999, ErrorKind::Other))
}

/// Market B.
fn opening() -> Opening<FailingReader<'static>> {
    Opening {
        schools: whole(b"school,zone,seats\n10,1,1\n20,0,1\n"),
        roster: whole(b"student,zone,siblings\n1,0,20\n2,0,10\n"),
        lists: whole(b"student,choices\n1,10 20\n2,20 10\n"),
    }
}

/// What a run of a script over Market B leaves: its output, its journal and its answer.
fn left(
    alloc: Global,
    seed: &Seed,
    script: FailingReader<'static>,
    settling: Settling,
    (output, journal): (Taking, Taking),
) -> Result<String, AllocError> {
    let mut inputs = Inputs {
        opening: opening(),
        script: Watched::new(script),
    };
    let mut out = writer(alloc, output)?;
    let mut journal = writer(alloc, journal)?;
    let answer = run(alloc, seed, &mut inputs, settling, &mut out, &mut journal);
    run_told(alloc, out.inner().taken(), journal.inner().taken(), &answer)
}

/// A run leaves this output, this journal and this answer.
fn expect(
    rt: &impl Abort,
    alloc: Global,
    script: FailingReader<'static>,
    settling: Settling,
    takings: (Taking, Taking),
    want: (&str, &str, &str),
) {
    let seed = seed(rt);
    let left = left(alloc, &seed, script, settling, takings).expect(rt, "memory");
    let (output, journal, answer) = want;
    let want = format!(in alloc; "{output}|{journal}|{answer}").expect(rt, "memory");
    same(rt, &left.as_str(), &want.as_str());
}

/// The whole run, with these writers, whenever the papers are settled.
fn expect_run(
    rt: &impl Abort,
    alloc: Global,
    output: Taking,
    journal: Taking,
    want: (&str, &str, &str),
) {
    for settling in &[Settling::EachTime, Settling::AtTheEnd] {
        let script = FailingReader::new(SCRIPT, SCRIPT.len() + 1, 999, ErrorKind::Other);
        expect(rt, alloc, script, *settling, (output, journal), want);
    }
}

#[test]
fn a_script_cut_short(rt: HostRuntime) {
    let cut = b"0,enter,3,1,10,1";
    let script = FailingReader::new(cut, 99, 99, ErrorKind::Other);
    let report =
        "1,refused,6,UnknownSchool,1\nstudent,school\n1,10\n2,20\nschool,seats,held,class,draw,student\n10,1,1,4,e56a5d4028bd8653,1\n20,1,1,4,b819d2bd1aed8da0,2\nstudent,school,reason\n";
    expect(
        &rt,
        rt.alloc(),
        script,
        Settling::EachTime,
        (WHOLE, WHOLE),
        (report, "", "Ok(())"),
    );
    let failing = FailingReader::after_calls(cut, 1, 4, ErrorKind::Interrupted);
    let want = ("", "", "Err(Read { source: Script })");
    expect(
        &rt,
        rt.alloc(),
        failing,
        Settling::AtTheEnd,
        (WHOLE, WHOLE),
        want,
    );
}

// No read is tried again: the fault is told, and nothing is written.
#[test]
fn a_script_that_fails_once(rt: HostRuntime) {
    for kind in [ErrorKind::Other, ErrorKind::Interrupted] {
        for passes in [0, 5, SCRIPT.len()] {
            let script = FailingReader::new(SCRIPT, passes, 999, kind).once();
            let takings = (WHOLE, WHOLE);
            let want = ("", "", "Err(Read { source: Script })");
            expect(&rt, rt.alloc(), script, Settling::EachTime, takings, want);
            expect(&rt, rt.alloc(), script, Settling::AtTheEnd, takings, want);
        }
    }
}

// Nor is a write or a flush: what was written before it is a prefix, and the fault is told.
#[test]
fn outputs_and_journals_that_fail_once(rt: HostRuntime) {
    let alloc = rt.alloc();
    for kind in [ErrorKind::Other, ErrorKind::Interrupted] {
        let first = ("1,ok\n", "1,enter,3,1,10,10\n", "Err(WriteOut)");
        expect_run(&rt, alloc, once(kind, 5), WHOLE, first);
        let flush = (OUTPUT, JOURNAL, "Err(WriteOut)");
        expect_run(&rt, alloc, once(kind, OUTPUT.len()), WHOLE, flush);
        let none = ("", "1,ent", "Err(WriteJournal)");
        expect_run(&rt, alloc, WHOLE, once(kind, 5), none);
        let flush = (OUTPUT, JOURNAL, "Err(WriteJournal)");
        expect_run(&rt, alloc, WHOLE, once(kind, JOURNAL.len()), flush);
    }
}

#[test]
fn slow_and_failing_outputs(rt: HostRuntime) {
    let alloc = rt.alloc();
    let slow = Taking { piece: 1, ..WHOLE };
    expect_run(&rt, alloc, slow, WHOLE, (OUTPUT, JOURNAL, "Ok(())"));
    let five_bytes = Taking { passes: 5, ..WHOLE };
    let first = ("1,ok\n", "1,enter,3,1,10,10\n", "Err(WriteOut)");
    expect_run(&rt, alloc, five_bytes, WHOLE, first);
    let takes_none = Taking {
        passes: 0,
        piece: 999,
        ending: Ending::TakesNone,
    };
    let none = ("", "1,enter,3,1,10,10\n", "Err(WriteOut)");
    expect_run(&rt, alloc, takes_none, WHOLE, none);
}

// A writer that has taken just what it passes fails at its flush.
#[test]
fn failing_flushes(rt: HostRuntime) {
    let journal = Taking {
        passes: JOURNAL.len(),
        ..WHOLE
    };
    let want = (OUTPUT, JOURNAL, "Err(WriteJournal)");
    expect_run(&rt, rt.alloc(), WHOLE, journal, want);
    let output = Taking {
        passes: OUTPUT.len(),
        ..WHOLE
    };
    let want = (OUTPUT, JOURNAL, "Err(WriteOut)");
    expect_run(&rt, rt.alloc(), output, WHOLE, want);
    // Where both fail the journal is told.
    let want = (OUTPUT, JOURNAL, "Err(WriteJournal)");
    expect_run(&rt, rt.alloc(), output, journal, want);
}

/// The report of Market B.
const REPORT: &str =
    "student,school\n1,10\n2,20\nschool,seats,held,class,draw,student\n10,1,1,4,e56a5d4028bd8653,1\n20,1,1,4,b819d2bd1aed8da0,2\nstudent,school,reason\n";

/// The report of Market B with its newcomer.
const NEWCOMER: &str =
    "student,school\n1,20\n2,-\n3,10\nschool,seats,held,class,draw,student\n10,1,1,1,ccef36a8c70d778b,3\n20,1,1,2,e56a5d4028bd8653,1\nstudent,school,reason\n1,10,class\n2,20,class\n2,10,class\n";

/// What a replay of a journal over Market B writes, and its answer.
fn replayed(alloc: Global, seed: &Seed, journal: &'static [u8]) -> Result<String, AllocError> {
    let mut out = Watched::new(Vec::new(alloc));
    let answer = match replay_files(alloc, seed, &mut opening(), &mut whole(journal), &mut out) {
        Ok(replayed) => Ok(replayed.tail),
        Err(fault) => Err(fault),
    };
    told(alloc, out.inner().as_slice(), &answer)
}

/// A replay over Market B writes this report, and answers so.
fn expect_replay(rt: &impl Abort, alloc: Global, journal: &'static [u8], want: (&str, &str)) {
    let seed = seed(rt);
    let left = replayed(alloc, &seed, journal).expect(rt, "memory");
    let want = format!(in alloc; "{}|Ok({})", want.0, want.1).expect(rt, "memory");
    same(rt, &left.as_str(), &want.as_str());
}

#[test]
fn a_journal_cut_short(rt: HostRuntime) {
    let journal = JOURNAL.as_bytes();
    for end in 0..journal.len() + 1 {
        let want = match end {
            0 | 31 => (REPORT, "Whole"),
            1..=17 => (REPORT, "Torn"),
            18 => (NEWCOMER, "Whole"),
            _ => (NEWCOMER, "Torn"),
        };
        expect_replay(&rt, rt.alloc(), &journal[..end], want);
    }
}

/// A bundle cut anywhere is no bundle, or has a faulty file, or is run: nothing else comes of it.
fn expect_cuts(rt: &impl Abort, alloc: Global, bundle: &[u8]) {
    for end in 0..bundle.len() + 1 {
        let mut out = Watched::new(Vec::new(alloc));
        let ending = run_bundle(alloc, &mut Watched::new(&bundle[..end]), &mut out);
        let foreseen = matches!(
            ending,
            RunEnding::BadBundle | RunEnding::Done | RunEnding::Fault(RunFault::Intake(_))
        );
        assert!(rt; foreseen, "after {end} bytes: {ending:?}");
        assert!(rt; ending == RunEnding::Done || out.inner().is_empty());
    }
}

#[test]
fn the_stored_bundle_cut_at_each_byte(rt: HostRuntime) {
    let bundle =
        b"%seed\n0000000000000000000000000000000000000000000000000000000000000000\n%schools\nschool,zone,seats\n10,0,1\n20,0,1\n%roster\nstudent,zone,siblings\n1,0,20\n2,0,10\n%lists\nstudent,choices\n1,10 20\n2,20 10\n";
    expect_cuts(&rt, rt.alloc(), bundle);
}

#[test]
fn the_second_bundle_cut_at_each_byte(rt: HostRuntime) {
    let bundle =
        b"%seed\n0000000000000000000000000000000000000000000000000000000000000000\n%schools\nschool,zone,seats\n10,1,1\n20,0,1\n%roster\nstudent,zone,siblings\n1,0,20\n2,0,10\n%lists\nstudent,choices\n1,10 20\n2,20 10\n%script\n0,enter,3,1,10,10\nnonsense\n0,withdraw,99\n0,add,77,1\n1,withdraw,3\n";
    expect_cuts(&rt, rt.alloc(), bundle);
}
