//! The texts of a report, and of a reply and a log.
mod devices;

use crate::comparing::same;
use crate::markets::{MARKET_A, MARKET_B, Rows};
use sc_intake::read_log;
use sc_markets::{amendment, clearing, seen};
use sc_papers::{Key, Refusal, SchoolNo, Seats, Stamp, StudentNo};
use sc_repair::Clearing;
use sc_report::{
    Cutoff, CutoffRow, Reason, ReasonRow, Watched, assignment_text, cutoff_text, cutoffs, log_text,
    reason_text, reasons, reply_line, report_text, write_report,
};
use std::alloc::{AllocError, Global};
use std::process::Abort;

/// What is shown of a clearing.
#[derive(Clone, Copy)]
enum View {
    /// The assignment.
    Assignment,
    /// Each school's cutoff.
    Cutoffs,
    /// Why students have not what they prefer.
    Reasons,
    /// The whole report.
    Report,
    /// The whole report, as it is written.
    Written,
    /// The standing log.
    Log,
    /// What each student has by a copy of the standing assignment, or 0.
    Copied,
    /// How many schools a copy of the papers has, and how many students.
    Papers,
}

/// The report, written into memory.
fn written(alloc: Global, clearing: &Clearing) -> Result<Vec<u8>, AllocError> {
    let mut out = Watched::new(Vec::new(alloc));
    match write_report(alloc, clearing, &mut out) {
        Ok(()) => Vec::from_slice(alloc, out.inner().as_slice()),
        Err(_) => Err(AllocError),
    }
}

/// The standing log as a text.
fn standing_log(alloc: Global, clearing: &Clearing) -> Result<Vec<u8>, AllocError> {
    let log = clearing.log()?;
    log_text(alloc, log.as_slice())
}

/// What each student has by a copy of the standing assignment, in order of entry, or 0.
fn copied(alloc: Global, clearing: &Clearing) -> Result<Vec<u8>, AllocError> {
    let assignment = clearing.assignment()?;
    let mut text = String::new(alloc);
    for position in 0..clearing.papers().students_len() {
        if let Some(student) = clearing.papers().student_at(position) {
            let school = assignment.get(student).map_or(0, |school| school.get());
            write!(text, "{}:{school} ", student.get())?;
        }
    }
    Ok(text.into_bytes())
}

/// How many schools a copy of the papers has, and how many students.
fn papers_copied(alloc: Global, clearing: &Clearing) -> Result<Vec<u8>, AllocError> {
    let copy = clearing.papers().copy()?;
    let (schools, students) = (copy.schools_len(), copy.students_len());
    drop(copy);
    Ok(format!(in alloc; "{schools} schools, {students} students")?.into_bytes())
}

/// What a clearing shows.
fn told(alloc: Global, view: View, clearing: &Clearing) -> Result<Vec<u8>, AllocError> {
    match view {
        View::Assignment => assignment_text(alloc, clearing),
        View::Cutoffs => cutoff_text(alloc, clearing),
        View::Reasons => reason_text(alloc, clearing),
        View::Report => report_text(alloc, clearing),
        View::Written => written(alloc, clearing),
        View::Log => standing_log(alloc, clearing),
        View::Copied => copied(alloc, clearing),
        View::Papers => papers_copied(alloc, clearing),
    }
}

/// The clearing shows what is wanted.
fn expect_told(rt: &impl Abort, alloc: Global, clearing: &Clearing, table: &[(View, &str)]) {
    for (view, want) in table {
        let told = told(alloc, *view, clearing).expect(rt, "memory");
        assert!(rt; told.as_slice() == want.as_bytes(), "wanted {want}");
    }
}

/// The amendments of these records are accepted, each with the stamp that its record has, and each reply is the line of
/// a first record that is accepted.
fn amend(rt: &impl Abort, alloc: Global, clearing: &mut Clearing, records: &str) {
    for record in records.lines() {
        let amendment = amendment(alloc, record).expect(rt, "an amendment");
        let stamped = seen(clearing, amendment);
        let reply = clearing.amend(stamped);
        expect_reply(rt, alloc, 1, reply, b"1,ok\n");
    }
}

/// The clearing of these papers shows what is wanted once it was amended.
fn expect_after(
    rt: &impl Abort,
    alloc: Global,
    (schools, roster, lists): Rows,
    records: &str,
    table: &[(View, &str)],
) {
    let mut clearing = clearing(alloc, schools, roster, lists).expect(rt, "a clearing");
    amend(rt, alloc, &mut clearing, records);
    expect_told(rt, alloc, &clearing, table);
}

/// The clearing of these papers shows what is wanted.
fn expect(rt: &impl Abort, alloc: Global, rows: Rows, table: &[(View, &str)]) {
    expect_after(rt, alloc, rows, "", table);
}

#[test]
fn headers_alone(rt: HostRuntime) {
    let table = [(View::Assignment, "student,school\n")];
    expect(&rt, rt.alloc(), ("", "", ""), &table);
}

const TWO_STUDENTS: Rows = ("1,0,1\n", "1,0,\n2,0,\n", "1,1\n2,1\n");

/// The report of one seat and two students.
const OF_TWO_STUDENTS: (View, &str) = (
    View::Report,
    "student,school\n1,-\n2,1\nschool,seats,held,class,draw,student\n1,1,1,4,b819d2bd1aed8da0,2\nstudent,school,reason\n1,1,lottery\n",
);

#[test]
fn one_seat_two_students(rt: HostRuntime) {
    expect(
        &rt,
        rt.alloc(),
        TWO_STUDENTS,
        &[
            OF_TWO_STUDENTS,
            (View::Assignment, "student,school\n1,-\n2,1\n"),
            (
                View::Cutoffs,
                "school,seats,held,class,draw,student\n1,1,1,4,b819d2bd1aed8da0,2\n",
            ),
            (View::Reasons, "student,school,reason\n1,1,lottery\n"),
        ],
    );
}

#[test]
fn withdraw_and_return(rt: HostRuntime) {
    for records in &["withdraw,2\nenter,2,0,,1\n", "withdraw,1\nenter,1,0,,1\n"] {
        expect_after(&rt, rt.alloc(), TWO_STUDENTS, records, &[OF_TWO_STUDENTS]);
    }
}

#[test]
fn zone_before_draw(rt: HostRuntime) {
    expect(
        &rt,
        rt.alloc(),
        ("1,1,1\n", "1,1,\n2,0,\n", "1,1\n2,1\n"),
        &[
            (
                View::Cutoffs,
                "school,seats,held,class,draw,student\n1,1,1,3,e56a5d4028bd8653,1\n",
            ),
            (View::Reasons, "student,school,reason\n2,1,class\n"),
        ],
    );
}

#[test]
fn market_a_opening(rt: HostRuntime) {
    expect(
        &rt,
        rt.alloc(),
        MARKET_A,
        &[
            (View::Assignment, "student,school\n1,10\n2,20\n"),
            (View::Copied, "1:10 2:20 "),
            (View::Log, ""),
        ],
    );
}

#[test]
fn market_a_and_a_seat_closed(rt: HostRuntime) {
    let report =
        "student,school\n1,20\n2,-\nschool,seats,held,class,draw,student\n10,0,0,closed,-,-\n20,1,1,2,e56a5d4028bd8653,1\nstudent,school,reason\n1,10,seats\n2,20,class\n2,10,seats\n";
    expect_after(
        &rt,
        rt.alloc(),
        MARKET_A,
        "close,10,1\n",
        &[
            (View::Assignment, "student,school\n1,20\n2,-\n"),
            (
                View::Cutoffs,
                "school,seats,held,class,draw,student\n10,0,0,closed,-,-\n20,1,1,2,e56a5d4028bd8653,1\n",
            ),
            (
                View::Reasons,
                "student,school,reason\n1,10,seats\n2,20,class\n2,10,seats\n",
            ),
            (View::Report, report),
            (View::Written, report),
            (View::Log, "1,10\n2,20\n2,10\n"),
            (View::Copied, "1:20 2:0 "),
            (View::Papers, "2 schools, 2 students"),
        ],
    );
}

fn student(rt: &impl Abort, number: u32) -> StudentNo {
    StudentNo::new(number).expect(rt, "a student")
}

fn school(rt: &impl Abort, number: u32) -> SchoolNo {
    SchoolNo::new(number).expect(rt, "a school")
}

/// The row of a school with as many students as seats.
fn cutoff_row(rt: &impl Abort, number: u32, seats: u32, cutoff: Cutoff) -> CutoffRow {
    CutoffRow {
        school: school(rt, number),
        seats: Seats::new(seats).expect(rt, "seats"),
        held: seats,
        cutoff,
    }
}

/// The cutoff of a school that admits this student last.
fn full(rt: &impl Abort, class: u8, draw: u64, number: u32) -> Cutoff {
    let student = student(rt, number);
    let key = Key {
        class,
        draw,
        student,
    };
    Cutoff::Full { key }
}

fn reason_row(rt: &impl Abort, number: u32, at: u32, reason: Reason) -> ReasonRow {
    ReasonRow {
        student: student(rt, number),
        school: school(rt, at),
        reason,
    }
}

/// The cutoffs and the reasons of a clearing are these.
fn expect_rows(
    rt: &impl Abort,
    alloc: Global,
    clearing: &Clearing,
    of_schools: &[CutoffRow],
    of_students: &[ReasonRow],
) {
    let found = cutoffs(alloc, clearing).expect(rt, "memory");
    same(rt, &found.as_slice(), &of_schools);
    let found = reasons(alloc, clearing).expect(rt, "memory");
    same(rt, &found.as_slice(), &of_students);
}

fn expect_rows_of_market_a(rt: &impl Abort, alloc: Global, clearing: &mut Clearing) {
    let opening = [
        cutoff_row(rt, 10, 1, full(rt, 4, 0xe56a5d4028bd8653, 1)),
        cutoff_row(rt, 20, 1, full(rt, 4, 0xb819d2bd1aed8da0, 2)),
    ];
    expect_rows(rt, alloc, clearing, &opening, &[]);
    amend(rt, alloc, clearing, "close,10,1\n");
    let closed = [
        cutoff_row(rt, 10, 0, Cutoff::Closed),
        cutoff_row(rt, 20, 1, full(rt, 2, 0xe56a5d4028bd8653, 1)),
    ];
    let reasons = [
        reason_row(rt, 1, 10, Reason::Seats),
        reason_row(rt, 2, 20, Reason::Class),
        reason_row(rt, 2, 10, Reason::Seats),
    ];
    expect_rows(rt, alloc, clearing, &closed, &reasons);
}

#[test]
fn market_a_and_a_seat_closed_by_value(rt: HostRuntime) {
    let (schools, roster, lists) = MARKET_A;
    let mut clearing = clearing(rt.alloc(), schools, roster, lists).expect(&rt, "a clearing");
    expect_rows_of_market_a(&rt, rt.alloc(), &mut clearing);
}

/// Market A with school 10 in the zone of a third student who has a sibling there, and with schools and
/// students in another order.
const MARKET_B_AND_A_NEWCOMER: Rows = (
    "20,0,1\n10,1,1\n",
    "3,1,10\n2,0,10\n1,0,20\n",
    "3,10\n2,20 10\n1,10 20\n",
);

#[test]
fn market_b_and_a_newcomer_in_another_order(rt: HostRuntime) {
    expect(
        &rt,
        rt.alloc(),
        MARKET_B_AND_A_NEWCOMER,
        &[(
            View::Report,
            "student,school\n1,20\n2,-\n3,10\nschool,seats,held,class,draw,student\n10,1,1,1,ccef36a8c70d778b,3\n20,1,1,2,e56a5d4028bd8653,1\nstudent,school,reason\n1,10,class\n2,20,class\n2,10,class\n",
        )],
    );
}

/// The reply to a record is the line that is wanted.
fn expect_reply(
    rt: &impl Abort,
    alloc: Global,
    number: u64,
    reply: Result<(), Refusal>,
    want: &[u8],
) {
    let line = reply_line(alloc, number, &reply).expect(rt, "memory");
    assert!(rt; line.as_slice() == want);
}

#[test]
fn reply_lines(rt: HostRuntime) {
    let school = school(&rt, 77);
    let stamp = Stamp::new(1).expect(&rt, "a stamp");
    let alloc = rt.alloc();
    let unknown = Refusal::UnknownSchool { school };
    expect_reply(&rt, alloc, 1, Ok(()), b"1,ok\n");
    expect_reply(&rt, alloc, 2, Err(Refusal::Shape), b"2,refused,1,Shape\n");
    expect_reply(
        &rt,
        alloc,
        4,
        Err(unknown),
        b"4,refused,6,UnknownSchool,77\n",
    );
    expect_reply(
        &rt,
        alloc,
        5,
        Err(Refusal::Stale { stamp }),
        b"5,refused,12,Stale,1\n",
    );
    expect_reply(&rt, alloc, 6, Err(Refusal::Spent), b"6,refused,13,Spent\n");
}

/// The standing log has this text, which is read back as the log's entries.
fn expect_log(rt: &impl Abort, alloc: Global, clearing: &Clearing, want: &str) {
    let log = clearing.log().expect(rt, "memory");
    let text = log_text(alloc, log.as_slice()).expect(rt, "memory");
    assert!(rt; text.as_slice() == want.as_bytes());
    let read = read_log(alloc, text.as_slice()).expect(rt, "a log");
    assert!(rt; read.as_slice() == log.as_slice());
}

#[test]
fn audits(rt: HostRuntime) {
    let (schools, roster, lists) = MARKET_B;
    let mut clearing = clearing(rt.alloc(), schools, roster, lists).expect(&rt, "a clearing");
    amend(&rt, rt.alloc(), &mut clearing, "enter,3,1,10,10\n");
    expect_log(&rt, rt.alloc(), &clearing, "1,10\n2,20\n2,10\n");
}
