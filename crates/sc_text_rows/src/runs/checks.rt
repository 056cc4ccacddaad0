//! Every fault of files and scripts.
use super::{Files, MARKET_B_FILES, NAMES, expect_left, opening, seed, told, watched};
use crate::comparing::same;
use sc_papers::Seed;
use sc_report::Watched;
use sc_report::devices::{Ending, FailingWriter};
use sc_runs::{Checked, Opening, RunFault, check_files};
use std::alloc::{AllocError, Global};
use std::io::Write;
use std::process::Abort;

/// What checking files and a script, if there is one, writes, and its answer.
fn checked(
    alloc: Global,
    seed: &Seed,
    files: Files,
    script: Option<&'static str>,
) -> Result<String, AllocError> {
    let mut out = Watched::new(Vec::new(alloc));
    let mut script = watched(script);
    let files = &mut opening(files);
    let answer = check_files(alloc, seed, &NAMES, files, &mut script, &mut out);
    told(alloc, out.inner().as_slice(), &answer)
}

/// Files and a script, if there is one, and what is written and answered.
type CheckedRow = (Files, Option<&'static str>, &'static str);

/// The files and the scripts have these faults and answers.
fn expect_checks(rt: &impl Abort, alloc: Global, table: &[CheckedRow]) {
    let seed = seed(rt);
    for (files, script, want) in table {
        expect_left(rt, checked(alloc, &seed, *files, *script), want);
    }
}

/// Rows with each cause that a row alone can have, in each file, and rows that have a fault together.
const EACH_CAUSE: Files = (
    "school,zone,seats\n10,1,1\n20,0,1\n20,0,2\n30,0\nx,0,1\n40,0,10001\n",
    "student,zone,siblings\n1,0,20\n2,0,10\n2,1,\n3,0\n4,zone,\n0,0,\n5,0,\n6,0,50\n7,0,\n8,0,\n",
    "student,choices\n1,10 20\n2,20 10\n2,10\n9\n9,ten\n9,0\n6,10\n3,10\n7,\n8,10 20 10\n",
);

/// A school's row is passed over, so that the student who lists it is refused, and the later rows stand.
const PASSED_OVER: Files = (
    "school,zone,seats\n10,0,1\n20,0,none\n20,0,1\n",
    "student,zone,siblings\n1,0,\n2,0,20\n",
    "student,choices\n1,20\n2,10\n",
);

/// A roster without its header, and lists of which one row is faulty alone.
const NO_ROSTER: Files = (
    "school,zone,seats\n10,0,1\n10,0,1\n",
    "student,zone\n1,0\n",
    "student,choices\n1,99\n1,10\n",
);

/// A school whose row is faulty, and two students who name it, one in the list and one for a sibling: the school counts
/// as known, and so its row alone is told.
const SCHOOL_OF_NO_ROW: Files = (
    "school,zone,seats\n10,0,1\n20,0,none\n",
    "student,zone,siblings\n1,0,\n2,0,20\n3,0,\n",
    "student,choices\n1,20\n2,10\n3,10\n",
);

/// Rows of the schools with each cause: of four the number can be read, twice the same one, and two name no school.
/// Who lists another school, or one of these twice, is refused.
const SCHOOLS_BY_FIRST_FIELDS: Files = (
    "school,zone,seats\n10,0,1\n20\n20,none,1\n30,0,10001\n4 0,0\n100000,0,1\n",
    "student,zone,siblings\n1,0,30\n2,0,\n3,0,\n4,0,\n",
    "student,choices\n1,10 20 30\n2,30\n3,40\n4,20 10 20\n",
);

const CHECKS: &[CheckedRow] = &[
    (MARKET_B_FILES, None, "|Ok(Clean)"),
    (MARKET_B_FILES, Some(""), "|Ok(Clean)"),
    (
        EACH_CAUSE,
        None,
        "schools.csv line 4, school 20: an earlier row has this school. Twice\nschools.csv line 5, school 30: 3 fields are expected, not 2. Fields\nschools.csv line 6, school \"x\": a number of 1 to 9 digits is expected. Number\nschools.csv line 7, school 40, seats \"10001\": a number from 0 to 10000 is expected. Range\nroster.csv line 4, student 2: an earlier row has this student. Twice\nroster.csv line 5, student 3: as many fields as in the header are expected, not 2. Fields\nroster.csv line 6, student 4, zone \"zone\": a number of 1 to 9 digits is expected. Number\nroster.csv line 7, student \"0\": a number from 1 to 999999999 is expected. Range\nlists.csv line 4, student 2: an earlier row has this student. Twice\nlists.csv line 5, student 9: 2 fields are expected, not 1. Fields\nlists.csv line 6, student 9, choices \"ten\": numbers of 1 to 9 digits with spaces between them are expected. Number\nlists.csv line 7, student 9, choices \"0\": numbers from 1 to 99999 are expected. Range\nroster.csv line 8, student 5: a row without a fault is expected for this student in the lists. NoList\nroster.csv line 9, student 6, siblings \"50\": a row with school 50 is expected in the schools. Refused 6 UnknownSchool 50\nlists.csv line 10, student 7, choices \"\" (roster.csv line 10): a list of 1 to 20 schools is expected. Refused 4 EmptyList\nlists.csv line 11, student 8, choices \"10 20 10\" (roster.csv line 11): the list names school 10 twice. Refused 7 SchoolTwice 10\nlists.csv line 9, student 3: a row without a fault is expected for this student in the roster. NotInRoster\n|Ok(Faulty)",
    ),
    (
        PASSED_OVER,
        None,
        "schools.csv line 3, school 20, seats \"none\": a number of 1 to 9 digits is expected. Number\n|Ok(Faulty)",
    ),
    (
        SCHOOL_OF_NO_ROW,
        None,
        "schools.csv line 3, school 20, seats \"none\": a number of 1 to 9 digits is expected. Number\n|Ok(Faulty)",
    ),
    (
        SCHOOLS_BY_FIRST_FIELDS,
        None,
        "schools.csv line 3, school 20: 3 fields are expected, not 1. Fields\nschools.csv line 4, school 20, zone \"none\": a number of 1 to 9 digits is expected. Number\nschools.csv line 5, school 30, seats \"10001\": a number from 0 to 10000 is expected. Range\nschools.csv line 6: 3 fields are expected, not 2. Fields\nschools.csv line 7, school \"100000\": a number from 1 to 99999 is expected. Range\nlists.csv line 4, student 3, choices \"40\" (roster.csv line 4): a row with school 40 is expected in the schools. Refused 6 UnknownSchool 40\nlists.csv line 5, student 4, choices \"20 10 20\" (roster.csv line 5): the list names school 20 twice. Refused 7 SchoolTwice 20\n|Ok(Faulty)",
    ),
    (
        NO_ROSTER,
        None,
        "schools.csv line 3, school 10: an earlier row has this school. Twice\nroster.csv line 1 \"student,zone\": the header student,zone,siblings is expected, or student,zone,siblings,continuing. Header\nlists.csv line 3, student 1: an earlier row has this student. Twice\n|Ok(Faulty)",
    ),
    (
        ("", "", ""),
        None,
        "schools.csv row 1: the header school,zone,seats is expected. Header\nroster.csv row 1: the header student,zone,siblings is expected, or student,zone,siblings,continuing. Header\nlists.csv row 1: the header student,choices is expected. Header\n|Ok(Faulty)",
    ),
];

#[test]
fn every_fault_of_files(rt: HostRuntime) {
    expect_checks(&rt, rt.alloc(), CHECKS);
}

/// Texts of other ends of lines, with blank lines, quotes, bytes that are no printable ASCII, and headers as programs write
/// them.
const LINES: &[CheckedRow] = &[
    (
        (
            "\u{FEFF}\r\nschool,zone,seats\r\n\r\n10,0,1\r\n\r\n20,0,\\\u{e9}\t\u{7}1\r\n",
            "\rstudent,zone,siblings\r\r1,0,\r1,0,\r",
            "student,choices\n\n\n1,123456789012345678901234567890123456789012\n",
        ),
        None,
        "schools.csv line 6, school 20, seats \"\\\\\\xC3\\xA9\\x09\\x071\": a number of 1 to 9 digits is expected. Number\nroster.csv line 5, student 1: an earlier row has this student. Twice\nlists.csv line 4, student 1, choices \"1234567890123456789012345678901234567890\"...: numbers of 1 to 9 digits with spaces between them are expected. Number\nroster.csv line 4, student 1: a row without a fault is expected for this student in the lists. NoList\n|Ok(Faulty)",
    ),
    (
        (
            "school,zone,seats\n\"10\",0,1\n\"20\",0,x\n30,0\n40,0,10001\n",
            "Student;Zone;Siblings\n",
            "student\tchoices\n",
        ),
        None,
        "schools.csv row 3: numbers of 1 to 9 digits are expected. Number\nschools.csv row 4: as many fields as its form has are expected. Fields\nschools.csv row 5: numbers within their ranges are expected. Range\nroster.csv line 1 \"Student;Zone;Siblings\": the header student,zone,siblings is expected, or student,zone,siblings,continuing; the fields stand between semicolons. Header\nlists.csv line 1 \"student\\x09choices\": the header student,choices is expected; the fields stand between tabs. Header\n|Ok(Faulty)",
    ),
    (
        (
            "School,Zone,Seats\n",
            "s\0t\0u\0\n",
            "\u{FEFF}\u{FEFF}student,choices\n",
        ),
        Some("\u{FEFF}\u{FEFF}0,withdraw,1\n"),
        "schools.csv line 1 \"School,Zone,Seats\": the header school,zone,seats is expected; it has capital letters. Header\nroster.csv line 1 \"s\\x00t\\x00u\\x00\": the header student,zone,siblings is expected, or student,zone,siblings,continuing; this is UTF-16, and UTF-8 is expected. Header\nlists.csv line 1 \"\\xEF\\xBB\\xBFstudent,choices\": the header student,choices is expected; a byte order mark stands here. Header\nscript.csv line 1 \"\\xEF\\xBB\\xBF0,withdraw,1\": one byte order mark at most is expected; a byte order mark stands here. Header\n|Ok(Faulty)",
    ),
    (
        (
            " \tschool,zone,seat \n",
            "\n\u{FEFF}student,zone,siblings\n",
            " \n",
        ),
        None,
        "schools.csv line 1 \"school,zone,seat\": the header school,zone,seats is expected. Header\nroster.csv line 2 \"\\xEF\\xBB\\xBFstudent,zone,siblings\": the header student,zone,siblings is expected, or student,zone,siblings,continuing; a byte order mark stands here. Header\nlists.csv line 1 \"\": the header student,choices is expected. Header\n|Ok(Faulty)",
    ),
];

/// Choices that the papers refuse stand in the lists, in another order than the roster; siblings' schools and the school at
/// which a student continues stand in the roster.
const REFUSALS: &[CheckedRow] = &[
    (
        (
            "school,zone,seats\n10,0,1\n20,0,1\n",
            "student,zone,siblings,continuing\n1,0,,\n2,0,20 20,\n3,0,,30\n4,0,20 30,\n5,0,,\n6,0,30,30\n",
            "student,choices\n5,20 20\n4,10\n3,10\n2,10\n1,x\n1,10 40\n1,50\n6,10\n",
        ),
        None,
        "lists.csv line 6, student 1, choices \"x\": numbers of 1 to 9 digits with spaces between them are expected. Number\nlists.csv line 8, student 1: an earlier row has this student. Twice\nlists.csv line 7, student 1, choices \"10 40\" (roster.csv line 2): a row with school 40 is expected in the schools. Refused 6 UnknownSchool 40\nroster.csv line 3, student 2, siblings \"20 20\": the list names school 20 twice. Refused 7 SchoolTwice 20\nroster.csv line 4, student 3, continuing \"30\": a row with school 30 is expected in the schools. Refused 6 UnknownSchool 30\nroster.csv line 5, student 4, siblings \"20 30\": a row with school 30 is expected in the schools. Refused 6 UnknownSchool 30\nlists.csv line 2, student 5, choices \"20 20\" (roster.csv line 6): the list names school 20 twice. Refused 7 SchoolTwice 20\nroster.csv line 7, student 6, continuing \"30\": a row with school 30 is expected in the schools. Refused 6 UnknownSchool 30\n|Ok(Faulty)",
    ),
    (
        (
            "school,zone,seats\n10,0,1\n20,0,1\n",
            "student,zone,siblings\n1,0,\n2,0,1 2 3 4 5 6 7 8 9 10 11 12 13 14 15 16 17 18 19 20 21\n",
            "student,choices\n1,\"20 20\"\n2,10\n",
        ),
        None,
        "lists.csv row 2, student 1 (roster.csv line 2): the list names school 20 twice. Refused 7 SchoolTwice 20\nroster.csv line 3, student 2, siblings \"1 2 3 4 5 6 7 8 9 10 11 12 13 14 15 16 1\"...: a list of at most 20 schools is expected. Refused 5 ListTooLong\n|Ok(Faulty)",
    ),
    (
        (
            "school,zone,seats\n10,0,1\n",
            "student,zone,siblings\n\"1\",0,\n2,0,\n",
            "student,choices\n1,\n2,10 10\n",
        ),
        None,
        "roster.csv row 2: a list of 1 to 20 schools is expected. Refused 4 EmptyList\nroster.csv row 3: the list names school 10 twice. Refused 7 SchoolTwice 10\n|Ok(Faulty)",
    ),
];

#[test]
fn refusals_where_they_stand(rt: HostRuntime) {
    expect_checks(&rt, rt.alloc(), REFUSALS);
}

#[test]
fn lines_that_are_told(rt: HostRuntime) {
    expect_checks(&rt, rt.alloc(), LINES);
}

const SCRIPTS: &[CheckedRow] = &[
    (
        MARKET_B_FILES,
        Some("0,enter,3,1,10,10\n9,withdraw,99\n"),
        "|Ok(Clean)",
    ),
    (
        MARKET_B_FILES,
        Some(
            "0,enter,3,1,10\nnonsense\n0,leave,3\n0,withdraw,1000000000\n0,withdraw,0\n0,add,10,0\n",
        ),
        "script.csv line 1, student 3: 6 or 7 fields are expected, not 5. Fields\nscript.csv line 2, stamp \"nonsense\": a number of 1 to 9 digits is expected. Number\nscript.csv line 3, word \"leave\": one of the words enter, withdraw, rerank, add, close and correct is expected. Fields\nscript.csv line 4, student \"1000000000\": a number of 1 to 9 digits is expected. Number\nscript.csv line 5, student \"0\": a number from 1 to 999999999 is expected. Range\nscript.csv line 6, school 10, count \"0\": a number from 1 to 10000 is expected. Range\n|Ok(Faulty)",
    ),
    (
        SCHOOL_OF_NO_ROW,
        Some("0,withdraw,none\n"),
        "schools.csv line 3, school 20, seats \"none\": a number of 1 to 9 digits is expected. Number\nscript.csv line 1, student \"none\": a number of 1 to 9 digits is expected. Number\n|Ok(Faulty)",
    ),
];

#[test]
fn every_fault_of_scripts(rt: HostRuntime) {
    expect_checks(&rt, rt.alloc(), SCRIPTS);
}

/// A script, and the lines of its faults.
#[derive(Drop)]
struct Nonsense {
    script: Vec<u8>,
    lines: Vec<u8>,
}

/// A script of 3,000 records that are no amendments. Their lines are more than one piece.
fn make_nonsense(alloc: Global) -> Result<Nonsense, AllocError> {
    let mut script = Vec::new(alloc);
    let mut lines = Vec::new(alloc);
    for row in 1..3_001 {
        script.extend_from_slice(b"x\n")?;
        let line = format!(in alloc;
            "script.csv line {row}, stamp \"x\": a number of 1 to 9 digits is expected. Number\n"
        )?;
        lines.extend_from_slice(line.as_bytes())?;
    }
    Ok(Nonsense { script, lines })
}

/// Checks Market B and a script, whose lines go to this writer.
fn check_script<W: Write>(
    alloc: Global,
    seed: &Seed,
    script: &[u8],
    out: &mut Watched<W>,
) -> Result<Checked, RunFault> {
    let (schools, roster, lists) = MARKET_B_FILES;
    let mut files = Opening {
        schools: Watched::new(schools.as_bytes()),
        roster: Watched::new(roster.as_bytes()),
        lists: Watched::new(lists.as_bytes()),
    };
    let mut script = Some(Watched::new(script));
    check_files(alloc, seed, &NAMES, &mut files, &mut script, out)
}

/// All lines of the script are written.
fn expect_lines(rt: &impl Abort, alloc: Global, given: &Nonsense) {
    let seed = seed(rt);
    let mut out = Watched::new(Vec::new(alloc));
    let answer = check_script(alloc, &seed, given.script.as_slice(), &mut out);
    same(rt, &answer.ok(), &Some(Checked::Faulty));
    assert!(rt; out.inner().as_slice() == given.lines.as_slice());
}

/// A writer that fails in the second piece has the lines up to there.
fn expect_beginning(rt: &impl Abort, alloc: Global, given: &Nonsense) {
    let seed = seed(rt);
    let room = Vec::with_capacity(alloc, 70_000).expect(rt, "memory");
    let mut out = Watched::new(FailingWriter::new(room, 66_000, 999, Ending::Fails));
    let answer = check_script(alloc, &seed, given.script.as_slice(), &mut out);
    same(rt, &answer.err(), &Some(RunFault::WriteOut));
    let taken = out.inner().taken();
    same(rt, &taken.len(), &66_000);
    assert!(rt; given.lines.as_slice().starts_with(taken));
}

#[test]
fn lines_of_more_than_one_piece(rt: HostRuntime) {
    let given = make_nonsense(rt.alloc()).expect(&rt, "memory");
    expect_lines(&rt, rt.alloc(), &given);
}

#[test]
fn an_output_that_fails_in_a_later_piece(rt: HostRuntime) {
    let given = make_nonsense(rt.alloc()).expect(&rt, "memory");
    expect_beginning(&rt, rt.alloc(), &given);
}
