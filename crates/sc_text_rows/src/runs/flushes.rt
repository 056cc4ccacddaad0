//! That each text is flushed, and in which order: no clause can say it, since `Write` says nothing of a flush.
use super::{MARKET_B_FILES, NAMES, opening, seed};
use sc_papers::{SchoolNo, Seed, StudentNo};
use sc_report::Watched;
use sc_runs::{
    Ending, FileNames, Inputs, RunFault, Settling, Table, admissions_files, audit_files,
    audit_report_files, changes_files, check_files, explain_files, match_files, replay_files, run,
    run_bundle, summary_files, table_files,
};
use std::alloc::Global;
use std::cell::Cell;
use std::io::{self, ErrorKind, Write};
use std::process::Abort;

/// A writer that takes all, and notes when it last wrote and first flushed, by a clock that writers share.
#[derive(Drop)]
struct Timed<'a> {
    clock: &'a Cell<u32>,
    wrote: u32,
    flushed: Option<u32>,
}

impl<'a> Timed<'a> {
    fn new(clock: &'a Cell<u32>) -> Timed<'a> {
        Timed {
            clock,
            wrote: 0,
            flushed: None,
        }
    }

    // One tick later.
    fn tick(&self) -> u32 {
        self.clock.set(self.clock.get().wrapping_add(1));
        self.clock.get()
    }
}

impl Write for Timed<'_> {
    ghost use Rattle.std.specs.Prelude.{None};

    ghost contents = { λ _. None };

    fn write(&mut self, bytes: &[u8]) -> io::Result<usize> {
        self.wrote = self.tick();
        Ok(bytes.len())
    }

    fn flush(&mut self) -> io::Result<()> {
        if self.flushed.is_none() {
            self.flushed = Some(self.tick());
        }
        Ok(())
    }
}

/// A run flushes its journal after its last line, and then the output after its last byte.
fn expect_order(rt: &impl Abort, alloc: Global, settling: Settling) {
    let seed = seed(rt);
    let script = b"0,enter,3,1,10,10\n1,withdraw,3\n".as_slice();
    let mut inputs = Inputs {
        opening: opening(MARKET_B_FILES),
        script: Watched::new(script),
    };
    let clock = Cell::new(0);
    let mut out = Watched::new(Timed::new(&clock));
    let mut journal = Watched::new(Timed::new(&clock));
    let answer = run(alloc, &seed, &mut inputs, settling, &mut out, &mut journal);
    assert!(rt; answer.is_ok());
    let first = journal
        .inner()
        .flushed
        .expect(rt, "a journal that is flushed");
    let second = out.inner().flushed.expect(rt, "an output that is flushed");
    assert!(rt; 0 < journal.inner().wrote && journal.inner().wrote < first);
    assert!(rt; 0 < out.inner().wrote && out.inner().wrote < second);
    assert!(rt; first < second, "{settling:?}");
}

#[test]
fn the_journal_before_the_output(rt: HostRuntime) {
    expect_order(&rt, rt.alloc(), Settling::EachTime);
    expect_order(&rt, rt.alloc(), Settling::AtTheEnd);
}

/// A writer that takes all and cannot be flushed.
#[derive(Drop)]
struct Unflushed;

impl Write for Unflushed {
    ghost use Rattle.std.specs.Prelude.{None};

    ghost contents = { λ _. None };

    fn write(&mut self, bytes: &[u8]) -> io::Result<usize> {
        Ok(bytes.len())
    }

    fn flush(&mut self) -> io::Result<()> {
        Err(ErrorKind::Other.into())
    }
}

/// A call that writes a text.
#[derive(Clone, Copy, Debug)]
enum Call {
    Report,
    Log,
    Audit,
    AuditOfReport,
    Replay,
    Table,
    Summary,
    Explanation,
    ExplanationOfOne,
    Admissions,
    AdmissionsOfOne,
    Changes,
    Check,
    CheckOfFaults,
}

/// The fault that a call over Market B ends with, where its output cannot be flushed.
fn fault_of(alloc: Global, seed: &Seed, call: Call) -> Option<RunFault> {
    let mut out = Watched::new(Unflushed);
    let out = &mut out;
    let mut files = opening(MARKET_B_FILES);
    let files = &mut files;
    match call {
        Call::Report => match_files(alloc, seed, files, false, out).err(),
        Call::Log => match_files(alloc, seed, files, true, out).err(),
        Call::Audit => {
            let mut log = Watched::new(b"".as_slice());
            audit_files(alloc, seed, files, &mut log, out).err()
        }
        Call::AuditOfReport => {
            let mut log = Watched::new(b"".as_slice());
            let mut report = Watched::new(b"".as_slice());
            audit_report_files(alloc, seed, files, &mut log, &mut report, out).err()
        }
        Call::Replay => {
            let mut journal = Watched::new(b"".as_slice());
            replay_files(alloc, seed, files, &mut journal, out).err()
        }
        Call::Table => table_files(alloc, seed, files, &mut None, Table::Cutoffs, out).err(),
        Call::Summary => summary_files(alloc, seed, files, &mut None, out).err(),
        Call::Explanation => explain_files(alloc, seed, files, &mut None, None, out).err(),
        Call::ExplanationOfOne => {
            explain_files(alloc, seed, files, &mut None, StudentNo::new(1), out).err()
        }
        Call::Admissions => admissions_files(alloc, seed, files, &mut None, None, out).err(),
        Call::AdmissionsOfOne => {
            admissions_files(alloc, seed, files, &mut None, SchoolNo::new(10), out).err()
        }
        Call::Changes => {
            let mut journal = Watched::new(b"".as_slice());
            changes_files(alloc, seed, files, &mut journal, 0, out).err()
        }
        Call::Check => check_files(alloc, seed, &NAMES, files, &mut None, out).err(),
        Call::CheckOfFaults => {
            let files = &mut opening(("", "", ""));
            check_files(alloc, seed, &NAMES, files, &mut None, out).err()
        }
    }
}

#[test]
fn each_text_is_flushed(rt: HostRuntime) {
    let seed = seed(&rt);
    for call in &[
        Call::Report,
        Call::Log,
        Call::Audit,
        Call::AuditOfReport,
        Call::Replay,
        Call::Table,
        Call::Summary,
        Call::Explanation,
        Call::ExplanationOfOne,
        Call::Admissions,
        Call::AdmissionsOfOne,
        Call::Changes,
        Call::Check,
        Call::CheckOfFaults,
    ] {
        let fault = fault_of(rt.alloc(), &seed, *call);
        assert!(rt; fault == Some(RunFault::WriteOut), "{call:?}: {fault:?}");
    }
}

#[test]
fn a_bundle_is_flushed(rt: HostRuntime) {
    for bundle in &[
        "%seed\n0000000000000000000000000000000000000000000000000000000000000000\n%schools\nschool,zone,seats\n10,0,1\n%roster\nstudent,zone,siblings\n1,0,\n%lists\nstudent,choices\n1,10\n",
        "%seed\n0000000000000000000000000000000000000000000000000000000000000000\n%schools\nschool,zone,seats\n10,0,1\n%roster\nstudent,zone,siblings\n1,0,\n%lists\nstudent,choices\n1,10\n%script\n0,withdraw,1\n",
    ] {
        let mut input = Watched::new(bundle.as_bytes());
        let ending = run_bundle(rt.alloc(), &mut input, &mut Watched::new(Unflushed));
        assert!(rt; ending == Ending::Fault(RunFault::WriteOut), "{ending:?}");
    }
}
