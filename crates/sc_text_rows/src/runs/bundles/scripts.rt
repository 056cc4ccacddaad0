//! Scripts in a bundle.
use super::{
    CONTINUING_FIRST, FIVE_STUDENTS, FREE_SEATS, MARKET_B_CONTINUING, ZONE_FIRST, bundle,
    expect_row, told, written,
};
use crate::comparing::same;
use crate::markets::{MARKET_A, MARKET_B, Rows};
use std::alloc::{AllocError, Global};
use std::process::Abort;

/// What a run of a script over an opening gives: whole, or the replies and the assignment, the fault line
/// and the status.
fn scripted(alloc: Global, is_whole: bool, rows: Rows, script: &str) -> Result<String, AllocError> {
    let opening = bundle(alloc, rows)?;
    let input = format!(in alloc; "{opening}%script\n{script}")?;
    if is_whole {
        written(alloc, input.as_str())
    } else {
        told(alloc, input.as_str())
    }
}

/// Each script over its opening gives what is wanted.
fn expect_scripts(
    rt: &impl Abort,
    alloc: Global,
    is_whole: bool,
    table: &[(&str, Rows, &str, &str)],
) {
    for (row, rows, script, want) in table {
        let text = scripted(alloc, is_whole, *rows, script);
        expect_row(rt, row, text, want);
    }
}

const SCRIPTS: &[(&str, Rows, &str, &str)] = &[
    ("no record", MARKET_B, "", "student,school\n1,10\n2,20\n0"),
    (
        "continuing against a newcomer: the opening",
        MARKET_B_CONTINUING,
        "",
        "student,school\n1,10\n2,20\n0",
    ),
    (
        "continuing against a newcomer: no more",
        MARKET_B_CONTINUING,
        "0,enter,3,1,10,10\n0,correct,2,0,10\n",
        "1,ok\n2,ok\nstudent,school\n1,20\n2,-\n3,10\n0",
    ),
    (
        "the whole run",
        MARKET_B,
        "0,enter,3,1,10,10\nnonsense\n0,withdraw,99\n0,add,77,1\n1,withdraw,3\n",
        "1,ok\n2,refused,1,Shape\n3,refused,2,UnknownStudent\n4,refused,6,UnknownSchool,77\n5,ok\nstudent,school\n1,10\n2,20\n0",
    ),
    (
        "a script cut short",
        MARKET_B,
        "0,enter,3,1,10,1",
        "1,refused,6,UnknownSchool,1\nstudent,school\n1,10\n2,20\n0",
    ),
    (
        "either order",
        MARKET_B,
        "0,add,20,1\n0,enter,3,1,10,10\n",
        "1,ok\n2,ok\nstudent,school\n1,20\n2,20\n3,10\n0",
    ),
    (
        "two desks: the first one first",
        MARKET_B,
        "0,rerank,1,20\n0,rerank,1,10\n",
        "1,ok\n2,refused,12,Stale,1\nstudent,school\n1,20\n2,10\n0",
    ),
    (
        "two desks: the second one first",
        MARKET_B,
        "0,rerank,1,10\n0,rerank,1,20\n",
        "1,ok\n2,refused,12,Stale,1\nstudent,school\n1,10\n2,20\n0",
    ),
    (
        "two byte order marks",
        MARKET_B,
        "\u{feff}\u{feff}0,withdraw,1\n",
        "clearinghouse: script row 1: Header\n3",
    ),
];

#[test]
fn scripts(rt: HostRuntime) {
    expect_scripts(&rt, rt.alloc(), false, SCRIPTS);
}

const WHOLE_REPORTS: &[(&str, Rows, &str, &str)] = &[
    // As in `examples/two-desks.bundle`.
    (
        "two desks",
        MARKET_B,
        "0,rerank,1,20\n0,rerank,1,10\n1,rerank,1,10 20\n",
        "1,ok\n2,refused,12,Stale,1\n3,ok\nstudent,school\n1,10\n2,20\nschool,seats,held,class,draw,student\n10,1,1,4,e56a5d4028bd8653,1\n20,1,1,4,b819d2bd1aed8da0,2\nstudent,school,reason\n",
    ),
    (
        "zone before draw",
        ZONE_FIRST,
        "",
        "student,school\n1,1\n2,-\nschool,seats,held,class,draw,student\n1,1,1,3,e56a5d4028bd8653,1\nstudent,school,reason\n2,1,class\n",
    ),
    (
        "a continuing student",
        CONTINUING_FIRST,
        "",
        "student,school\n1,-\n2,1\nschool,seats,held,class,draw,student\n1,1,1,0,b819d2bd1aed8da0,2\nstudent,school,reason\n1,1,class\n",
    ),
    (
        "Market A, and a seat closed",
        MARKET_A,
        "0,close,10,1\n",
        "1,ok\nstudent,school\n1,20\n2,-\nschool,seats,held,class,draw,student\n10,0,0,closed,-,-\n20,1,1,2,e56a5d4028bd8653,1\nstudent,school,reason\n1,10,seats\n2,20,class\n2,10,seats\n",
    ),
    (
        "Market B, and a newcomer",
        MARKET_B,
        "0,enter,3,1,10,10\n",
        "1,ok\nstudent,school\n1,20\n2,-\n3,10\nschool,seats,held,class,draw,student\n10,1,1,1,ccef36a8c70d778b,3\n20,1,1,2,e56a5d4028bd8653,1\nstudent,school,reason\n1,10,class\n2,20,class\n2,10,class\n",
    ),
    (
        "continuing against a newcomer",
        MARKET_B_CONTINUING,
        "0,enter,3,1,10,10\n",
        "1,ok\nstudent,school\n1,20\n2,10\n3,-\nschool,seats,held,class,draw,student\n10,1,1,0,b819d2bd1aed8da0,2\n20,1,1,2,e56a5d4028bd8653,1\nstudent,school,reason\n1,10,class\n2,20,class\n3,10,class\n",
    ),
    (
        "the newcomer withdraws",
        MARKET_B,
        "0,enter,3,1,10,10\n1,withdraw,3\n",
        "1,ok\n2,ok\nstudent,school\n1,10\n2,20\nschool,seats,held,class,draw,student\n10,1,1,4,e56a5d4028bd8653,1\n20,1,1,4,b819d2bd1aed8da0,2\nstudent,school,reason\n",
    ),
    (
        "a seat added",
        MARKET_B,
        "0,enter,3,1,10,10\n0,add,10,1\n",
        "1,ok\n2,ok\nstudent,school\n1,10\n2,20\n3,10\nschool,seats,held,class,draw,student\n10,2,2,4,e56a5d4028bd8653,1\n20,1,1,4,b819d2bd1aed8da0,2\nstudent,school,reason\n",
    ),
    (
        "rerank to the same",
        MARKET_B,
        "0,enter,3,1,10,10\n0,rerank,1,10 20\n2,rerank,1,10 10\n",
        "1,ok\n2,ok\n3,refused,7,SchoolTwice,10\nstudent,school\n1,20\n2,-\n3,10\nschool,seats,held,class,draw,student\n10,1,1,1,ccef36a8c70d778b,3\n20,1,1,2,e56a5d4028bd8653,1\nstudent,school,reason\n1,10,class\n2,20,class\n2,10,class\n",
    ),
    (
        "free seats",
        FREE_SEATS,
        "",
        "student,school\n1,10\nschool,seats,held,class,draw,student\n10,2,1,free,-,-\nstudent,school,reason\n",
    ),
    (
        "free seats and seat limits: closed",
        FREE_SEATS,
        "0,close,10,2\n1,close,10,1\n",
        "1,ok\n2,refused,10,TooFewSeats\nstudent,school\n1,-\nschool,seats,held,class,draw,student\n10,0,0,closed,-,-\nstudent,school,reason\n1,10,seats\n",
    ),
    (
        "free seats and seat limits: added",
        FREE_SEATS,
        "0,close,10,2\n1,add,10,10000\n2,add,10,1\n",
        "1,ok\n2,ok\n3,refused,9,TooManySeats\nstudent,school\n1,10\nschool,seats,held,class,draw,student\n10,10000,1,free,-,-\nstudent,school,reason\n",
    ),
    (
        "a correction rewinds to the start",
        FIVE_STUDENTS,
        "0,correct,1,0,\n",
        "1,ok\nstudent,school\n1,-\n2,10\n3,-\n4,20\n5,20\nschool,seats,held,class,draw,student\n10,1,1,4,b819d2bd1aed8da0,2\n20,2,2,4,7c5941da8d485751,4\nstudent,school,reason\n1,10,lottery\n1,20,lottery\n3,20,lottery\n",
    ),
    (
        "either order: a newcomer first",
        MARKET_B,
        "0,enter,3,1,10,10\n0,add,20,1\n",
        "1,ok\n2,ok\nstudent,school\n1,20\n2,20\n3,10\nschool,seats,held,class,draw,student\n10,1,1,1,ccef36a8c70d778b,3\n20,2,2,4,b819d2bd1aed8da0,2\nstudent,school,reason\n1,10,class\n",
    ),
    (
        "either order: a seat first",
        MARKET_B,
        "0,add,20,1\n0,enter,3,1,10,10\n",
        "1,ok\n2,ok\nstudent,school\n1,20\n2,20\n3,10\nschool,seats,held,class,draw,student\n10,1,1,1,ccef36a8c70d778b,3\n20,2,2,4,b819d2bd1aed8da0,2\nstudent,school,reason\n1,10,class\n",
    ),
    (
        "the whole run",
        MARKET_B,
        "0,enter,3,1,10,10\nnonsense\n0,withdraw,99\n0,add,77,1\n1,withdraw,3\n",
        "1,ok\n2,refused,1,Shape\n3,refused,2,UnknownStudent\n4,refused,6,UnknownSchool,77\n5,ok\nstudent,school\n1,10\n2,20\nschool,seats,held,class,draw,student\n10,1,1,4,e56a5d4028bd8653,1\n20,1,1,4,b819d2bd1aed8da0,2\nstudent,school,reason\n",
    ),
];

#[test]
fn whole_reports(rt: HostRuntime) {
    expect_scripts(&rt, rt.alloc(), true, WHOLE_REPORTS);
}

/// A script of so many records, each of which reranks student 1 with the stamp that the record before gave.
fn many_records(alloc: Global, count: u32) -> Result<String, AllocError> {
    let mut script = String::new(alloc);
    for stamp in 0..count {
        write!(script, "{stamp},rerank,1,10 20\n")?;
    }
    Ok(script)
}

/// The replies to so many records that are accepted.
fn many_replies(alloc: Global, count: u32) -> Result<String, AllocError> {
    let mut replies = String::new(alloc);
    for number in 1..=count {
        write!(replies, "{number},ok\n")?;
    }
    Ok(replies)
}

#[test]
fn a_long_script(rt: HostRuntime) {
    let script = many_records(rt.alloc(), 500).expect(&rt, "memory");
    let replies = many_replies(rt.alloc(), 500).expect(&rt, "memory");
    let left = scripted(rt.alloc(), false, MARKET_B, script.as_str()).expect(&rt, "memory");
    let told = left.as_str().strip_prefix(replies.as_str());
    same(&rt, &told, &Some("student,school\n1,10\n2,20\n0"));
}
