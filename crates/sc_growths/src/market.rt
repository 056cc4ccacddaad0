//! Market B, whose newcomer sets off a chain of three rejections: its files, and what the calls give.

use sc_papers::Seed;
use std::process::Abort;

pub const SCHOOLS: &[u8] = b"school,zone,seats\n10,1,1\n20,0,1\n";

pub const ROSTER: &[u8] = b"student,zone,siblings\n1,0,20\n2,0,10\n";

pub const LISTS: &[u8] = b"student,choices\n1,10 20\n2,20 10\n";

/// Lists with a row that is faulty alone, a student whom the papers refuse, and one who is not in the roster.
pub const FAULTY_LISTS: &[u8] = b"student,choices\n1,10 30\n2,ten\n3,10\n";

/// The faults of the files with these lists, and of the script.
pub const FAULTS: &str =
    "lists.csv line 3, student 2, choices \"ten\": numbers of 1 to 9 digits with spaces between them are expected. Number\nlists.csv line 2, student 1, choices \"10 30\" (roster.csv line 2): a row with school 30 is expected in the schools. Refused 6 UnknownSchool 30\nroster.csv line 3, student 2: a row without a fault is expected for this student in the lists. NoList\nlists.csv line 4, student 3: a row without a fault is expected for this student in the roster. NotInRoster\nscript.csv line 2, stamp \"nonsense\": a number of 1 to 9 digits is expected. Number\n";

pub const SCRIPT: &[u8] = b"0,enter,3,1,10,10\nnonsense\n0,withdraw,99\n0,add,77,1\n1,withdraw,3\n";

/// What the script's amendments leave in the journal.
pub const JOURNAL: &str = "1,enter,3,1,10,10\n2,withdraw,3\n";

/// A log of three entries, of which the first is not valid under Market B.
pub const LOG: &[u8] = b"1,10\n2,20\n2,10\n";

/// The files of the papers of the opening, and again after the newcomer has withdrawn, one after the other.
pub const EXPORTED: &str =
    "school,zone,seats\n10,1,1\n20,0,1\nstudent,zone,siblings\n1,0,20\n2,0,10\nstudent,choices\n1,10 20\n2,20 10\n";

/// The report of the opening, and again after the newcomer has withdrawn.
pub const REPORT: &str =
    "student,school\n1,10\n2,20\nschool,seats,held,class,draw,student\n10,1,1,4,e56a5d4028bd8653,1\n20,1,1,4,b819d2bd1aed8da0,2\nstudent,school,reason\n";

/// The summary of the opening, and again after the newcomer has withdrawn.
pub const SUMMARY: &str =
    "rank,students\n1,2\n-,0\nschool,seats,held,free,listed\n10,1,1,0,2\n20,1,1,0,2\n";

/// What came of each choice in the opening, and again after the newcomer has withdrawn.
pub const EXPLANATION: &str =
    "student,rank,school,class,draw,lottery_rank,cutoff,cutoff_draw,cutoff_student,cutoff_lottery_rank,outcome\n1,1,10,4,e56a5d4028bd8653,2,4,e56a5d4028bd8653,1,2,given\n1,2,20,2,e56a5d4028bd8653,2,4,b819d2bd1aed8da0,2,1,later\n2,1,20,4,b819d2bd1aed8da0,1,4,b819d2bd1aed8da0,2,1,given\n2,2,10,2,b819d2bd1aed8da0,1,4,e56a5d4028bd8653,1,2,later\n";

/// The part of it that is of student 2.
pub const EXPLANATION_OF_2: &str =
    "student,rank,school,class,draw,lottery_rank,cutoff,cutoff_draw,cutoff_student,cutoff_lottery_rank,outcome\n2,1,20,4,b819d2bd1aed8da0,1,4,b819d2bd1aed8da0,2,1,given\n2,2,10,2,b819d2bd1aed8da0,1,4,e56a5d4028bd8653,1,2,later\n";

/// Whom the schools admit in the opening, and again after the newcomer has withdrawn. Nobody waits.
pub const ADMISSIONS: &str =
    "school,rank,student,class,draw,status\n10,1,1,4,e56a5d4028bd8653,admitted\n20,1,2,4,b819d2bd1aed8da0,admitted\n";

/// The part of it that is of school 20.
pub const ADMISSIONS_OF_20: &str =
    "school,rank,student,class,draw,status\n20,1,2,4,b819d2bd1aed8da0,admitted\n";

/// Whose place the newcomer's leaving changes.
pub const CHANGES: &str = "student,before,after\n1,20,10\n2,-,20\n3,10,absent\n";

/// What a run of the script writes.
pub const WHOLE_RUN: &str =
    "1,ok\n2,refused,1,Shape\n3,refused,2,UnknownStudent\n4,refused,6,UnknownSchool,77\n5,ok\nstudent,school\n1,10\n2,20\nschool,seats,held,class,draw,student\n10,1,1,4,e56a5d4028bd8653,1\n20,1,1,4,b819d2bd1aed8da0,2\nstudent,school,reason\n";

/// Market B and the script in one bundle.
pub const BUNDLE: &[u8] =
    b"%seed\n0000000000000000000000000000000000000000000000000000000000000000\n%schools\nschool,zone,seats\n10,1,1\n20,0,1\n%roster\nstudent,zone,siblings\n1,0,20\n2,0,10\n%lists\nstudent,choices\n1,10 20\n2,20 10\n%script\n0,enter,3,1,10,10\nnonsense\n0,withdraw,99\n0,add,77,1\n1,withdraw,3\n";

/// The seed of 64 zeros.
pub fn seed(rt: &impl Abort) -> Seed {
    Seed::from_hex(&[b'0'; 64]).ok().expect(rt, "a seed")
}
