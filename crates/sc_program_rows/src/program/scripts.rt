//! Runs of scripts, what a terminal shows of one, and replays.
use super::{NEWCOMER, REPORT, expect, ordered_after, ordering, write_files};
use sc_program::perform;
use sc_report::devices::{Ending, FailingWriter};
use std::fs::OpenOptions;
use std::{fs, io};

/// Journals over Market B, and the report and the end of the replay of each.
const REPLAYS: &[(&str, &str, &str)] = &[
    ("1,enter,3,1,10,10\n2,withdraw,3\n", REPORT, "0"),
    (
        "1,enter,3,1,10,10\n2,withdraw,3",
        NEWCOMER,
        "clearinghouse: journal torn\n0",
    ),
    ("", REPORT, "0"),
    (
        "1,enter,3,1,10,10\n3,withdraw,3\n",
        "",
        "clearinghouse: journal line 2: Number\n3",
    ),
    (
        "1,enter,3,1,10,10\nnonsense\n",
        "",
        "clearinghouse: journal line 2: Shape\n3",
    ),
    (
        "1,enter,3,1,10,10\n2,withdraw,3\r\n",
        "",
        "clearinghouse: journal line 2: Shape\n3",
    ),
    (
        "1,enter,3,1,10,10\n2,withdraw,9\n",
        "",
        "clearinghouse: journal line 2: Refused 2 UnknownStudent\n3",
    ),
];

const RUN: &[&str] = &["--script", "script", "--journal", "journal"];

const RUN_SETTLED_EACH_TIME: &[&str] = &[
    "--settle-each",
    "--script",
    "script",
    "--journal",
    "journal",
];

const RUN_SETTLED_AT_END: &[&str] = &[
    "--settle-at-end",
    "--script",
    "script",
    "--journal",
    "journal",
];

/// What a run of a script gives, and then the journal.
fn journaled(rt: &HostRuntime, script: &str, options: &[&str]) -> io::Result<String> {
    let told = ordered_after(rt, ("script", script), "run", options)?;
    let journal = fs::read(rt, "journal")?;
    let journal = String::from_utf8_lossy(rt.alloc(), journal.as_slice())?;
    Ok(format!(in rt.alloc(); "{told}|{journal}")?)
}

#[test]
fn a_run_and_its_replay(rt: HostRuntime) {
    write_files(&rt);
    let script = "0,enter,3,1,10,10\nnonsense\n1,withdraw,3\n";
    let want =
        "1,ok\n2,refused,1,Shape\n3,ok\nstudent,school\n1,10\n2,20\nschool,seats,held,class,draw,student\n10,1,1,4,e56a5d4028bd8653,1\n20,1,1,4,b819d2bd1aed8da0,2\nstudent,school,reason\n0|1,enter,3,1,10,10\n2,withdraw,3\n";
    for options in &[RUN, RUN_SETTLED_EACH_TIME, RUN_SETTLED_AT_END] {
        expect(&rt, journaled(&rt, script, options), "", want);
    }
    for (journal, report, end) in REPLAYS {
        let told = ordered_after(
            &rt,
            ("journal", journal),
            "replay",
            &["--journal", "journal"],
        );
        expect(&rt, told, report, end);
    }
}

/// What a terminal is given while a script is run with these options.
fn shown(rt: &HostRuntime, options: &[&str]) -> io::Result<String> {
    let alloc = rt.alloc();
    fs::write(rt, "script", "0,enter,3,1,10,10\nnonsense\n")?;
    let words = ordering(alloc, "run", "schools", options)?;
    let mut terminal = Vec::new(alloc);
    let (output, errors): (Vec<u8>, Vec<u8>) = (Vec::new(alloc), Vec::new(alloc));
    let input = b"".as_slice();
    perform(
        rt,
        words.as_slice(),
        input,
        output,
        errors,
        Some(&mut terminal),
    );
    Ok(String::from_utf8_lossy(alloc, terminal.as_slice())?)
}

#[test]
fn a_terminal_shows_how_many_records_are_answered(rt: HostRuntime) {
    write_files(&rt);
    let want =
        "\rrecords answered: 1\rrecords answered: 2\r                                        \r";
    expect(&rt, shown(&rt, RUN_SETTLED_EACH_TIME), want, "");
    expect(&rt, shown(&rt, RUN), "", "");
}

/// What a screen shows to which both the output and the terminal of a run go that settles each time.
fn on_one_screen(rt: &HostRuntime) -> io::Result<String> {
    let alloc = rt.alloc();
    fs::write(rt, "script", "0,enter,3,1,10,10\n")?;
    fs::write(rt, "screen", "")?;
    let words = ordering(alloc, "run", "schools", RUN_SETTLED_EACH_TIME)?;
    let output = OpenOptions::new().append(true).open(rt, "screen")?;
    let terminal = OpenOptions::new().append(true).open(rt, "screen")?;
    let errors: Vec<u8> = Vec::new(alloc);
    let input = b"".as_slice();
    perform(rt, words.as_slice(), input, output, errors, Some(terminal));
    let screen = fs::read(rt, "screen")?;
    Ok(String::from_utf8_lossy(alloc, screen.as_slice())?)
}

#[test]
fn the_count_is_wiped_before_the_report(rt: HostRuntime) {
    write_files(&rt);
    let counted = "1,ok\n\rrecords answered: 1";
    let wiped = "\r                                        \r";
    let want = format!(in rt.alloc(); "{counted}{wiped}{NEWCOMER}").expect(&rt, "memory");
    expect(&rt, on_one_screen(&rt), "", want.as_str());
}

/// Three amendments that are alike, so that one made twice would show.
const THREE_SEATS: &str = "0,add,10,1\n1,add,10,1\n2,add,10,1\n";

/// What a whole run of them gives, and its journal.
const SEATS_ADDED: &str =
    "1,ok\n2,ok\n3,ok\nstudent,school\n1,10\n2,20\nschool,seats,held,class,draw,student\n10,4,1,free,-,-\n20,1,1,4,b819d2bd1aed8da0,2\nstudent,school,reason\n0|1,add,10,1\n2,add,10,1\n3,add,10,1\n";

/// The status of a run of them whose output takes so many bytes and then fails, and the journal that it
/// leaves.
fn stopped(rt: &HostRuntime, room: usize) -> io::Result<String> {
    let alloc = rt.alloc();
    fs::write(rt, "script", THREE_SEATS)?;
    let words = ordering(alloc, "run", "schools", RUN)?;
    let output = FailingWriter::new(Vec::with_capacity(alloc, room)?, room, 99, Ending::Fails);
    let mut errors = Vec::new(alloc);
    let terminal: Option<Vec<u8>> = None;
    let status = perform(
        rt,
        words.as_slice(),
        b"".as_slice(),
        output,
        &mut errors,
        terminal,
    );
    let journal = fs::read(rt, "journal")?;
    let journal = String::from_utf8_lossy(alloc, journal.as_slice())?;
    Ok(format!(in alloc; "{status}|{journal}")?)
}

/// How many bytes the output takes, and what the run then leaves: a line more than the output has replies.
const STOPS: &[(usize, &str)] = &[
    (0, "4|1,add,10,1\n"),
    (5, "4|1,add,10,1\n2,add,10,1\n"),
    (10, "4|1,add,10,1\n2,add,10,1\n3,add,10,1\n"),
];

// The old journal is a prefix of the new one, whatever became of the old output.
#[test]
fn a_stopped_run_is_run_again(rt: HostRuntime) {
    write_files(&rt);
    for (room, left) in STOPS {
        expect(&rt, stopped(&rt, *room), "", left);
        expect(&rt, journaled(&rt, THREE_SEATS, RUN), "", SEATS_ADDED);
    }
}
