//! What runs write, over inputs in memory.
mod admissions;
mod bundles;
mod changes;
mod checks;
mod faults;
mod flushes;
mod notices;
mod pieces;
mod published;
mod sections;

use crate::comparing::{expect_text, same};
use sc_papers::Seed;
use sc_report::Watched;
use sc_report::devices::{Ending, FailingWriter};
use sc_runs::{FileNames, Inputs, Opening, RunFault, Settling, match_files, run};
use std::alloc::{AllocError, Global};
use std::fmt::Debug;
use std::process::Abort;

const ZEROS: &str = "0000000000000000000000000000000000000000000000000000000000000000";

/// The files of schools, roster and lists, each with its header.
type Files = (&'static str, &'static str, &'static str);

/// The files of an opening in memory.
fn opening((schools, roster, lists): Files) -> Opening<&'static [u8]> {
    Opening {
        schools: Watched::new(schools.as_bytes()),
        roster: Watched::new(roster.as_bytes()),
        lists: Watched::new(lists.as_bytes()),
    }
}

/// The seed of zeros.
fn seed(rt: &impl Abort) -> Seed {
    Seed::from_hex(ZEROS.as_bytes()).expect(rt, "a seed")
}

/// A file in memory, if there is one.
fn watched(text: Option<&'static str>) -> Option<Watched<&'static [u8]>> {
    Some(Watched::new(text?.as_bytes()))
}

/// What a call wrote, and its answer.
fn told<T: Debug>(alloc: Global, output: &[u8], answer: &T) -> Result<String, AllocError> {
    let output = String::from_utf8_lossy(alloc, output)?;
    format!(in alloc; "{output}|{answer:?}")
}

/// What a run wrote to its output and its journal, and its answer.
fn run_told(
    alloc: Global,
    output: &[u8],
    journal: &[u8],
    answer: &Result<(), RunFault>,
) -> Result<String, AllocError> {
    let journal = told(alloc, journal, answer)?;
    let output = String::from_utf8_lossy(alloc, output)?;
    format!(in alloc; "{output}|{journal}")
}

/// The names of files that are checked.
const NAMES: FileNames<'static> = FileNames {
    schools: "schools.csv",
    roster: "roster.csv",
    lists: "lists.csv",
    script: "script.csv",
};

/// Market B as files.
const MARKET_B_FILES: Files = (
    "school,zone,seats\n10,1,1\n20,0,1\n",
    "student,zone,siblings\n1,0,20\n2,0,10\n",
    "student,choices\n1,10 20\n2,20 10\n",
);

/// The same with student 2 continuing at school 10.
const MARKET_B_CONTINUING_FILES: Files = (
    "school,zone,seats\n10,1,1\n20,0,1\n",
    "student,zone,siblings,continuing\n1,0,20,\n2,0,10,10\n",
    "student,choices\n1,10 20\n2,20 10\n",
);

/// What a run of a script over an opening leaves whose journal takes so many bytes and then fails: the output,
/// the journal and the answer.
fn ran(
    alloc: Global,
    seed: &Seed,
    files: Files,
    settling: Settling,
    (room, script): (usize, &'static str),
) -> Result<String, AllocError> {
    let mut inputs = Inputs {
        opening: opening(files),
        script: Watched::new(script.as_bytes()),
    };
    let taken = Vec::with_capacity(alloc, room)?;
    let mut out = Watched::new(Vec::new(alloc));
    let mut journal = Watched::new(FailingWriter::new(taken, room, 99, Ending::Fails));
    let answer = run(alloc, seed, &mut inputs, settling, &mut out, &mut journal);
    let (output, journal) = (out.inner().as_slice(), journal.inner().taken());
    run_told(alloc, output, journal, &answer)
}

/// What was left is what is wanted.
fn expect_left(rt: &impl Abort, left: Result<String, AllocError>, want: &str) {
    expect_text(rt, left, want, "what was left");
}

/// What was left is what is wanted, below a header.
fn expect_below(rt: &impl Abort, left: Result<String, AllocError>, header: &str, want: &str) {
    let left = left.expect(rt, "memory");
    same(rt, &left.as_str().strip_prefix(header), &Some(want));
}

/// Each script over the opening leaves what is wanted, where the journal takes so many bytes.
fn expect_settled(
    rt: &impl Abort,
    alloc: Global,
    files: Files,
    settling: Settling,
    table: &[(usize, &'static str, &str)],
) {
    let seed = seed(rt);
    for (room, script, want) in table {
        let left = ran(alloc, &seed, files, settling, (*room, script)).expect(rt, "memory");
        assert!(rt; left.as_str() == *want, "{settling:?}: {left}");
    }
}

/// The same whenever the papers are settled.
fn expect_runs(
    rt: &impl Abort,
    alloc: Global,
    files: Files,
    table: &[(usize, &'static str, &str)],
) {
    expect_settled(rt, alloc, files, Settling::EachTime, table);
    expect_settled(rt, alloc, files, Settling::AtTheEnd, table);
}

#[test]
fn the_whole_run(rt: HostRuntime) {
    expect_runs(
        &rt,
        rt.alloc(),
        MARKET_B_FILES,
        &[(
            999,
            "0,enter,3,1,10,10\nnonsense\n0,withdraw,99\n0,add,77,1\n1,withdraw,3\n",
            "1,ok\n2,refused,1,Shape\n3,refused,2,UnknownStudent\n4,refused,6,UnknownSchool,77\n5,ok\nstudent,school\n1,10\n2,20\nschool,seats,held,class,draw,student\n10,1,1,4,e56a5d4028bd8653,1\n20,1,1,4,b819d2bd1aed8da0,2\nstudent,school,reason\n|1,enter,3,1,10,10\n2,withdraw,3\n|Ok(())",
        )],
    );
}

#[test]
fn the_first_script(rt: HostRuntime) {
    expect_runs(
        &rt,
        rt.alloc(),
        MARKET_B_FILES,
        &[(
            999,
            "0,enter,3,1,10,10\n0,enter,3,0,,10\n",
            "1,ok\n2,refused,3,StudentExists\nstudent,school\n1,20\n2,-\n3,10\nschool,seats,held,class,draw,student\n10,1,1,1,ccef36a8c70d778b,3\n20,1,1,2,e56a5d4028bd8653,1\nstudent,school,reason\n1,10,class\n2,20,class\n2,10,class\n|1,enter,3,1,10,10\n|Ok(())",
        )],
    );
}

#[test]
fn continuing_against_a_newcomer(rt: HostRuntime) {
    expect_runs(
        &rt,
        rt.alloc(),
        MARKET_B_CONTINUING_FILES,
        &[(
            999,
            "0,enter,3,1,10,10\n0,correct,2,0,10\n2,correct,2,0,10,77\n0,enter,4,0,77,10,78\n2,correct,2,0,10,10\n",
            "1,ok\n2,ok\n3,refused,6,UnknownSchool,77\n4,refused,6,UnknownSchool,77\n5,ok\nstudent,school\n1,20\n2,10\n3,-\nschool,seats,held,class,draw,student\n10,1,1,0,b819d2bd1aed8da0,2\n20,1,1,2,e56a5d4028bd8653,1\nstudent,school,reason\n1,10,class\n2,20,class\n3,10,class\n|1,enter,3,1,10,10\n2,correct,2,0,10\n3,correct,2,0,10,10\n|Ok(())",
        )],
    );
}

// A journal that fails at its first write leaves no reply, and one that fails at its second line leaves the reply to the
// first.
#[test]
fn failing_writers(rt: HostRuntime) {
    let script = "0,enter,3,1,10,10\nnonsense\n0,withdraw,99\n0,add,77,1\n1,withdraw,3\n";
    let refused = "2,refused,1,Shape\n3,refused,2,UnknownStudent\n4,refused,6,UnknownSchool,77\n";
    let second = format!(in rt.alloc();
        "1,ok\n{refused}|1,enter,3,1,10,10\n2,|Err(WriteJournal)"
    ).expect(&rt, "memory");
    expect_runs(
        &rt,
        rt.alloc(),
        MARKET_B_FILES,
        &[
            (0, script, "||Err(WriteJournal)"),
            (20, script, second.as_str()),
        ],
    );
}

/// What the call on three files writes, the report or the log, and its answer.
fn matched(alloc: Global, seed: &Seed, files: Files, show_log: bool) -> Result<String, AllocError> {
    let mut opening = opening(files);
    let mut out = Watched::new(Vec::new(alloc));
    let answer = match match_files(alloc, seed, &mut opening, show_log, &mut out) {
        Ok(papers) => {
            drop(papers);
            Ok(())
        }
        Err(fault) => Err(fault),
    };
    told(alloc, out.inner().as_slice(), &answer)
}

/// The call on three files writes and answers what is wanted.
fn expect_match(rt: &impl Abort, alloc: Global, files: Files, show_log: bool, want: &str) {
    let seed = seed(rt);
    expect_left(rt, matched(alloc, &seed, files, show_log), want);
}

#[test]
fn three_files(rt: HostRuntime) {
    let files = (
        "school,zone,seats\n1,0,1\n",
        "student,zone,siblings\n1,0,\n2,0,\n",
        "student,choices\n1,1\n2,1\n",
    );
    let want =
        "student,school\n1,-\n2,1\nschool,seats,held,class,draw,student\n1,1,1,4,b819d2bd1aed8da0,2\nstudent,school,reason\n1,1,lottery\n|Ok(())";
    expect_match(&rt, rt.alloc(), files, false, want);
}

#[test]
fn the_log_of_an_opening(rt: HostRuntime) {
    let files = (
        "school,zone,seats\n10,1,1\n20,0,1\n",
        "student,zone,siblings\n1,0,20\n2,0,10\n3,1,10\n",
        "student,choices\n1,10 20\n2,20 10\n3,10\n",
    );
    expect_match(&rt, rt.alloc(), files, true, "1,10\n2,20\n2,10\n|Ok(())");
}
