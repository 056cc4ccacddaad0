//! What becomes of the file of a journal.
use super::{REPORT, expect, ordering, performed, remove, write, write_files};
use sc_program::empty_journal;
use sc_report::Watched;
use sc_runs::{Inputs, Opening, RunFault};
use std::fs::{File, OpenOptions};
use std::process::Abort;
use std::rt::Files;
use std::{fs, io};

/// What a run tells whose schools and journal are these files, and then the journal.
fn run_over(rt: &HostRuntime, schools: &str, journal: &str) -> io::Result<String> {
    run_with(
        rt,
        schools,
        journal,
        &["--script", "script", "--journal", journal],
    )
}

/// The same with these options.
fn run_with(
    rt: &HostRuntime,
    schools: &str,
    journal: &str,
    options: &[&str],
) -> io::Result<String> {
    let words = ordering(rt.alloc(), "run", schools, options)?;
    let told = performed(rt, words.as_slice(), "")?;
    let kept = fs::read(rt, journal)?;
    let kept = String::from_utf8_lossy(rt.alloc(), kept.as_slice())?;
    Ok(format!(in rt.alloc(); "{told}|{kept}")?)
}

#[test]
fn a_journal_outlives_an_input_that_is_not_there(rt: HostRuntime) {
    write_files(&rt);
    write(&rt, "script", "");
    write(&rt, "journal", "1,withdraw,1\n");
    let want = "clearinghouse: cannot read schools\n4|1,withdraw,1\n";
    expect(&rt, run_over(&rt, "absent", "journal"), "", want);
}

/// The inputs of a run, with what each holds.
const HELD: &[(&str, &str)] = &[
    ("schools", "school,zone,seats\n10,1,1\n20,0,1\n"),
    ("roster", "student,zone,siblings\n1,0,20\n2,0,10\n"),
    ("lists", "student,choices\n1,10 20\n2,20 10\n"),
    ("script", "0,add,10,1\n"),
];

#[test]
fn no_input_is_the_journal(rt: HostRuntime) {
    write_files(&rt);
    write(&rt, "script", "0,add,10,1\n");
    let refused = "clearinghouse: cannot write journal\n4|";
    for (input, held) in HELD {
        expect(&rt, run_over(&rt, "schools", *input), refused, *held);
        remove(&rt, "linked");
        fs::hard_link(&rt, *input, "linked").expect(&rt, "a link");
        expect(&rt, run_over(&rt, "schools", "linked"), refused, *held);
    }
    remove(&rt, "linked");
}

/// A file of the test's own folder, as an input.
fn input<R: Files + Abort>(rt: &R, name: &str) -> Watched<R::File> {
    Watched::new(File::open(rt, name).expect(rt, "a file that can be read"))
}

/// The inputs of a run over Market B.
fn inputs<R: Files + Abort>(rt: &R) -> Inputs<R::File> {
    Inputs {
        opening: Opening {
            schools: input(rt, "schools"),
            roster: input(rt, "roster"),
            lists: input(rt, "lists"),
        },
        script: input(rt, "script"),
    }
}

/// The journal holds this text.
fn expect_journal<R: Files + Abort + AllocGlobal>(rt: &R, want: &str) {
    let kept = fs::read(rt, "journal").expect(rt, "a file that can be read");
    assert!(rt; kept.as_slice() == want.as_bytes());
}

// The output of a test is no file, so the journal itself is handed in as the file where it goes.
#[test]
fn no_output_is_the_journal(rt: HostRuntime) {
    write_files(&rt);
    write(&rt, "script", "");
    write(&rt, "journal", "1,withdraw,1\n");
    let journal = OpenOptions::new().write(true).open(&rt, "journal");
    let journal = journal.expect(&rt, "a file that can be written");
    let output = fs::metadata(&rt, "journal").expect(&rt, "what the file is");
    let inputs = inputs(&rt);
    let refused = empty_journal(&journal, false, &inputs, Some(&output));
    assert!(rt; refused == Err(RunFault::WriteJournal));
    expect_journal(&rt, "1,withdraw,1\n");
    assert!(rt; empty_journal(&journal, false, &inputs, None) == Ok(()));
    expect_journal(&rt, "");
}

/// What a run without a record tells that is to keep an old journal, and then the journal.
fn run_that_keeps(rt: &HostRuntime) -> io::Result<String> {
    let options = &["--no-clobber", "--script", "script", "--journal", "journal"];
    run_with(rt, "schools", "journal", options)
}

#[test]
fn no_journal_is_clobbered(rt: HostRuntime) {
    write_files(&rt);
    write(&rt, "script", "");
    write(&rt, "journal", "1,withdraw,1\n");
    let refused = "clearinghouse: cannot write journal\n4|1,withdraw,1\n";
    expect(&rt, run_that_keeps(&rt), "", refused);
    expect(&rt, run_over(&rt, "schools", "journal"), REPORT, "0|");
    // It is an empty file now.
    expect(&rt, run_that_keeps(&rt), REPORT, "0|");
    remove(&rt, "journal");
    expect(&rt, run_that_keeps(&rt), REPORT, "0|");
    let null = &[
        "--no-clobber",
        "--script",
        "script",
        "--journal",
        "/dev/null",
    ];
    let device = "clearinghouse: cannot write journal\n4|";
    expect(&rt, run_with(&rt, "schools", "journal", null), "", device);
}
