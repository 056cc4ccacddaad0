mod command_line;
mod exports;
mod flushes;
mod journals;
mod notices;
mod reports;
mod scripts;

use crate::comparing::same;
use sc_program::perform;
use sc_report::devices::{Ending, FailingWriter};
use sc_words::Word;
use std::alloc::{AllocError, Global};
use std::process::Abort;
use std::rt::Files;
use std::{fs, io};

const ZEROS: &str = "0000000000000000000000000000000000000000000000000000000000000000";

/// The words of a command line.
fn words(alloc: Global, texts: &[&str]) -> Result<Vec<Word>, AllocError> {
    let mut words = Vec::new(alloc);
    for text in texts {
        words.push(Word::from_text(String::from_str(alloc, *text)?))?;
    }
    Ok(words)
}

/// The words of a subcommand, the seed of zeros, the files of an opening and other options.
fn ordering(
    alloc: Global,
    subcommand: &str,
    schools: &str,
    options: &[&str],
) -> Result<Vec<Word>, AllocError> {
    let mut words = words(
        alloc,
        &[
            subcommand,
            "--seed",
            ZEROS,
            "--schools",
            schools,
            "--roster",
            "roster",
            "--lists",
            "lists",
        ],
    )?;
    for option in options {
        words.push(Word::from_text(String::from_str(alloc, *option)?))?;
    }
    Ok(words)
}

/// The words of a line, with a space between two of them.
fn words_of(alloc: Global, line: &str) -> Result<Vec<Word>, AllocError> {
    let mut words = Vec::new(alloc);
    for word in line.split(' ') {
        words.push(Word::from_text(String::from_str(alloc, word)?))?;
    }
    Ok(words)
}

/// What the program does on words and this input: the whole output, the errors and the status.
fn performed(rt: &HostRuntime, words: &[Word], input: &str) -> io::Result<String> {
    let alloc = rt.alloc();
    let mut output = Vec::new(alloc);
    let mut errors = Vec::new(alloc);
    let terminal: Option<Vec<u8>> = None;
    let status = perform(
        rt,
        words,
        input.as_bytes(),
        &mut output,
        &mut errors,
        terminal,
    );
    let output = String::from_utf8_lossy(alloc, output.as_slice())?;
    let errors = String::from_utf8_lossy(alloc, errors.as_slice())?;
    Ok(format!(in alloc; "{output}{errors}{status}")?)
}

/// What it does under a subcommand, the files of an opening and other options.
fn ordered(rt: &HostRuntime, subcommand: &str, options: &[&str]) -> io::Result<String> {
    let words = ordering(rt.alloc(), subcommand, "schools", options)?;
    performed(rt, words.as_slice(), "")
}

/// The same after a file was written.
fn ordered_after(
    rt: &HostRuntime,
    (file, text): (&str, &str),
    subcommand: &str,
    options: &[&str],
) -> io::Result<String> {
    fs::write(rt, file, text)?;
    ordered(rt, subcommand, options)
}

/// The program wrote the report, or nothing of it, and then what is wanted.
fn expect(rt: &impl Abort, told: io::Result<String>, report: &str, want: &str) {
    match told {
        Ok(told) => same(rt, &told.as_str().strip_prefix(report), &Some(want)),
        Err(error) => panic!(rt; "{error}"),
    }
}

/// Writes a file into the test's own folder.
fn write<R: Files + Abort>(rt: &R, name: &str, text: &str) {
    fs::write(rt, name, text).expect(rt, "a file that can be written");
}

/// Takes a file away, if an earlier test or run left it.
fn remove<R: Files + Abort>(rt: &R, name: &str) {
    if let Ok(true) = fs::exists(rt, name) {
        fs::remove_file(rt, name).expect(rt, "a file that can be taken away");
    }
}

/// Writes Market B's files into the test's own folder.
fn write_files<R: Files + Abort>(rt: &R) {
    write(rt, "schools", "school,zone,seats\n10,1,1\n20,0,1\n");
    write(rt, "roster", "student,zone,siblings\n1,0,20\n2,0,10\n");
    write(rt, "lists", "student,choices\n1,10 20\n2,20 10\n");
}

const REPORT: &str =
    "student,school\n1,10\n2,20\nschool,seats,held,class,draw,student\n10,1,1,4,e56a5d4028bd8653,1\n20,1,1,4,b819d2bd1aed8da0,2\nstudent,school,reason\n";

const NEWCOMER: &str =
    "student,school\n1,20\n2,-\n3,10\nschool,seats,held,class,draw,student\n10,1,1,1,ccef36a8c70d778b,3\n20,1,1,2,e56a5d4028bd8653,1\nstudent,school,reason\n1,10,class\n2,20,class\n2,10,class\n";

/// The same as `ordered` for a match of another file of schools.
fn matched(rt: &HostRuntime, schools: &str) -> io::Result<String> {
    let words = ordering(rt.alloc(), "match", schools, &[])?;
    performed(rt, words.as_slice(), "")
}

#[test]
fn files_that_are_not_there(rt: HostRuntime) {
    write_files(&rt);
    let told = matched(&rt, "absent");
    expect(&rt, told, "", "clearinghouse: cannot read schools\n4");
    let told = ordered(&rt, "audit", &["--log", "absent"]);
    expect(&rt, told, "", "clearinghouse: cannot read log\n4");
    let told = ordered(&rt, "replay", &["--journal", "absent"]);
    expect(&rt, told, "", "clearinghouse: cannot read journal\n4");
    let told = ordered(&rt, "match", &["--seed", "00"]);
    let told = told.expect(&rt, "what is told");
    assert!(rt; told.ends_with("2"), "{told}");
}

#[test]
fn the_seed_is_read_before_a_file_is_opened(rt: HostRuntime) {
    let line = "match --seed=00 --schools=absent --roster=absent --lists=absent";
    let words = words_of(rt.alloc(), line).expect(&rt, "memory");
    let told = performed(&rt, words.as_slice(), "");
    expect(&rt, told, "", "clearinghouse: seed: Length\n2");
}

#[test]
fn a_bundle(rt: HostRuntime) {
    let input =
        "%seed\n0000000000000000000000000000000000000000000000000000000000000000\n%schools\nschool,zone,seats\n%roster\nstudent,zone,siblings\n%lists\nstudent,choices\n";
    let want = "student,school\nschool,seats,held,class,draw,student\nstudent,school,reason\n0";
    expect(&rt, performed(&rt, &[], input), "", want);
}

/// What the program does on the words of a line, with an output that takes the first `room` bytes and is well until then.
fn performed_within(rt: &HostRuntime, line: &str, room: usize) -> io::Result<String> {
    let alloc = rt.alloc();
    let words = words_of(alloc, line)?;
    let output = FailingWriter::new(Vec::with_capacity(alloc, room)?, room, 99, Ending::Fails);
    let mut errors = Vec::new(alloc);
    let terminal: Option<Vec<u8>> = None;
    let status = perform(
        rt,
        words.as_slice(),
        b"".as_slice(),
        output,
        &mut errors,
        terminal,
    );
    let errors = String::from_utf8_lossy(alloc, errors.as_slice())?;
    Ok(format!(in alloc; "{errors}{status}")?)
}

/// Lines that ask for help or the version.
const ASKED: &[&str] = &["--help", "--version", "help", "run --help"];

#[test]
fn help_that_cannot_be_written(rt: HostRuntime) {
    for line in ASKED {
        let told = performed_within(&rt, *line, 10);
        expect(&rt, told, "clearinghouse: cannot write output\n", "4");
    }
    // The version's line is whole, and the flush fails.
    let told = performed_within(&rt, "--version", 20);
    expect(&rt, told, "clearinghouse: cannot write output\n", "4");
    expect(&rt, performed_within(&rt, "--version", 21), "", "0");
}

/// What checking Market B with other lists does, and a script if there is one.
fn checked(rt: &HostRuntime, lists: &str, script: Option<&str>) -> io::Result<String> {
    let mut options = words(
        rt.alloc(),
        &["check", "--schools=schools", "--roster=roster", "--lists"],
    )?;
    options.push(Word::from_text(String::from_str(rt.alloc(), lists)?))?;
    if let Some(script) = script {
        options.push(Word::from_text(String::from_str(rt.alloc(), "--script")?))?;
        options.push(Word::from_text(String::from_str(rt.alloc(), script)?))?;
    }
    performed(rt, options.as_slice(), "")
}

#[test]
fn a_check(rt: HostRuntime) {
    write_files(&rt);
    expect(&rt, checked(&rt, "lists", None), "", "0");
    write(&rt, "faulty", "student,choices\n1,10 30\n2,ten\n3,10\n");
    let lines =
        "faulty line 3, student 2, choices \"ten\": numbers of 1 to 9 digits with spaces between them are expected. Number\nfaulty line 2, student 1, choices \"10 30\" (roster line 2): a row with school 30 is expected in the schools. Refused 6 UnknownSchool 30\nroster line 3, student 2: a row without a fault is expected for this student in the lists. NoList\nfaulty line 4, student 3: a row without a fault is expected for this student in the roster. NotInRoster\n";
    expect(&rt, checked(&rt, "faulty", None), lines, "3");
    write(&rt, "script", "0,enter,3,1,10,10\n0,leave,3\n");
    expect(
        &rt,
        checked(&rt, "lists", Some("script")),
        "script line 2, word \"leave\": one of the words enter, withdraw, rerank, add, close and correct is expected. Fields\n",
        "3",
    );
    let line = "no such file: a file that can be read is expected; there is none. Unread\n";
    let unread = "clearinghouse: cannot read lists\n4";
    expect(
        &rt,
        checked(&rt, "no such file", Some("script")),
        line,
        unread,
    );
    let unread = "clearinghouse: cannot read script\n4";
    expect(
        &rt,
        checked(&rt, "faulty", Some("no such file")),
        line,
        unread,
    );
    let line = ".: a file that can be read is expected; it cannot be read to its end. Unread\n";
    let unread = "clearinghouse: cannot read lists\n4";
    expect(&rt, checked(&rt, ".", None), line, unread);
    let unread = "clearinghouse: cannot read script\n4";
    expect(&rt, checked(&rt, "lists", Some(".")), line, unread);
}
