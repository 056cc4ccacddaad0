//! The three files together: the papers that they make, or their first fault.
use crate::comparing::expect_text;
use sc_intake::{IntakeFault, papers_of, read_lists, read_papers, read_roster, read_schools};
use sc_papers::{Papers, SchoolList, Seed, Student};
use std::alloc::{AllocError, Global};
use std::process::Abort;

const SCHOOLS: &str = "school,zone,seats\n10,0,1\n20,0,1\n";

const ROSTER: &str = "student,zone,siblings\n1,0,20\n2,0,10\n";

const LISTS: &str = "student,choices\n1,10 20\n2,20 10\n";

/// Adds the schools of a list to a text, with spaces between them.
fn push_list(text: &mut String, list: &SchoolList) -> Result<(), AllocError> {
    for school in list.as_slice() {
        write!(text, " {}", school.get())?;
    }
    Ok(())
}

/// Adds a student to a text.
fn push_student(text: &mut String, student: &Student) -> Result<(), AllocError> {
    write!(text, "zone {} siblings", student.zone.get())?;
    push_list(text, &student.siblings)?;
    text.push_str(" choices")?;
    push_list(text, &student.choices)?;
    text.push_str("; ")
}

/// Adds the students of the papers to a text.
fn push_students(text: &mut String, papers: &Papers) -> Result<(), AllocError> {
    for position in 0..papers.students_len() {
        if let Some(number) = papers.student_at(position) {
            write!(text, "student {} ", number.get())?;
            if let Some(student) = papers.student(number) {
                push_student(text, student)?;
            }
        }
    }
    Ok(())
}

/// Adds the schools of the papers to a text.
fn push_schools(text: &mut String, papers: &Papers) -> Result<(), AllocError> {
    for position in 0..papers.schools_len() {
        if let Some(number) = papers.school_at(position) {
            write!(text, "school {} ", number.get())?;
            if let Some(school) = papers.school(number) {
                write!(
                    text,
                    "zone {} seats {}; ",
                    school.zone.get(),
                    school.seats.get()
                )?;
            }
        }
    }
    Ok(())
}

/// The papers as a text.
fn papers_text(alloc: Global, papers: &Papers) -> Result<String, AllocError> {
    let mut text = String::new(alloc);
    push_schools(&mut text, papers)?;
    push_students(&mut text, papers)?;
    Ok(text)
}

/// The papers of three files, under a seed.
fn opened(
    alloc: Global,
    seed: Seed,
    schools: &str,
    roster: &str,
    lists: &str,
) -> Result<Papers, IntakeFault> {
    let schools = read_schools(alloc, schools.as_bytes())?;
    let roster = read_roster(alloc, roster.as_bytes())?;
    let lists = read_lists(alloc, lists.as_bytes())?;
    papers_of(alloc, seed, &schools, &roster, &lists)
}

/// The papers of three files as a text, or the line of their fault.
fn told(alloc: Global, opened: Result<Papers, IntakeFault>) -> Result<String, AllocError> {
    match opened {
        Ok(papers) => {
            let text = papers_text(alloc, &papers);
            drop(papers);
            text
        }
        Err(fault) => format!(in alloc; "{fault}"),
    }
}

/// The papers, or the fault, are what is wanted.
fn expect_papers(rt: &impl Abort, alloc: Global, opened: Result<Papers, IntakeFault>, want: &str) {
    expect_text(rt, told(alloc, opened), want, "papers");
}

/// Each three files make the papers that are wanted, or have that fault, by either call.
fn expect(rt: &impl Abort, alloc: Global, table: &[(&str, &str, &str, &str)]) {
    let seed = Seed::from_hex(&[b'0'; 64]).expect(rt, "a seed");
    for (schools, roster, lists, want) in table {
        let lent = opened(alloc, seed, schools, roster, lists);
        expect_papers(rt, alloc, lent, want);
        let read = read_papers(
            alloc,
            seed,
            schools.as_bytes(),
            roster.as_bytes(),
            lists.as_bytes(),
        );
        expect_papers(rt, alloc, read, want);
    }
}

#[test]
fn untidy_spellings(rt: HostRuntime) {
    expect(
        &rt,
        rt.alloc(),
        &[(
            "\u{FEFF}school,zone,seats\r\n0010,\t1 ,\"1\"\r\n20,0,01",
            "student , zone,siblings\n1,0, 20 \n\n2,0,\"10\"\n",
            "student,choices\n2,20  10\n1,\"10 20\"",
            "school 10 zone 1 seats 1; school 20 zone 0 seats 1; student 1 zone 0 siblings 20 choices 10 20; student 2 zone 0 siblings 10 choices 20 10; ",
        )],
    );
}

#[test]
fn each_intake_fault_once_in_the_schools(rt: HostRuntime) {
    expect(
        &rt,
        rt.alloc(),
        &[
            ("", ROSTER, LISTS, "schools row 1: Header"),
            ("school,zone", ROSTER, LISTS, "schools row 1: Header"),
            (
                "\u{FEFF}\u{FEFF}school,zone,seats\n",
                ROSTER,
                LISTS,
                "schools row 1: Header",
            ),
            (
                "school,zone,seats\n10,0",
                ROSTER,
                LISTS,
                "schools row 2: Fields",
            ),
            (
                "school,zone,seats\n10,0,1,\n",
                ROSTER,
                LISTS,
                "schools row 2: Fields",
            ),
            (
                "school,zone,seats\n\"10,0,1\n20,0,1\n",
                ROSTER,
                LISTS,
                "schools row 2: Fields",
            ),
            (
                "school,zone,seats\n10,x,1\n",
                ROSTER,
                LISTS,
                "schools row 2: Number",
            ),
            (
                "school,zone,seats\n10,x,10001\n",
                ROSTER,
                LISTS,
                "schools row 2: Number",
            ),
            (
                "school,zone,seats\n1234567890,0,1\n",
                ROSTER,
                LISTS,
                "schools row 2: Number",
            ),
            (
                "school,zone,seats\n,,\n",
                ROSTER,
                LISTS,
                "schools row 2: Number",
            ),
            (
                "school,zone,seats\n10,10000,1\n",
                ROSTER,
                LISTS,
                "schools row 2: Range",
            ),
            (
                "school,zone,seats\n10,0,10001\n",
                ROSTER,
                LISTS,
                "schools row 2: Range",
            ),
            (
                "school,zone,seats\n0,0,1\n",
                ROSTER,
                LISTS,
                "schools row 2: Range",
            ),
            (
                "school,zone,seats\r10,0,1\r010,1,2",
                ROSTER,
                LISTS,
                "schools row 3: Twice",
            ),
        ],
    );
}

#[test]
fn each_intake_fault_once_in_the_students(rt: HostRuntime) {
    expect(
        &rt,
        rt.alloc(),
        &[
            (
                SCHOOLS,
                ROSTER,
                LISTS,
                "school 10 zone 0 seats 1; school 20 zone 0 seats 1; student 1 zone 0 siblings 20 choices 10 20; student 2 zone 0 siblings 10 choices 20 10; ",
            ),
            (
                SCHOOLS,
                "student,zone,siblings\n1,0,10\t20\n",
                LISTS,
                "roster row 2: Number",
            ),
            (
                SCHOOLS,
                ROSTER,
                "student,choices\n1,10 20\n",
                "roster row 3: NoList",
            ),
            (
                SCHOOLS,
                ROSTER,
                "student,choices\n1,10 20\n2,20 10\n9,10\n",
                "lists row 4: NotInRoster",
            ),
            (
                SCHOOLS,
                ROSTER,
                "student,choices\n1,10 99\n2,20 10\n",
                "roster row 2: Refused 6 UnknownSchool 99",
            ),
            (
                SCHOOLS,
                "student,zone,siblings,continuing\n1,0,20,\n2,0,10,99\n",
                LISTS,
                "roster row 3: Refused 6 UnknownSchool 99",
            ),
            (
                SCHOOLS,
                ROSTER,
                "student,choices\n1,99 10 20 10 20 10 20 10 20 10 20 10 20 10 20 10 20 10 20 10 20\n2,20 10\n",
                "roster row 2: Refused 5 ListTooLong",
            ),
            (
                SCHOOLS,
                ROSTER,
                "student,choices\n1,10 20 10 20 10 20 10 20 10 20 10 20 10 20 10 20 10 20 10 20 10 20 99\n2,20 10\n",
                "roster row 2: Refused 5 ListTooLong",
            ),
            (
                SCHOOLS,
                ROSTER,
                "student,choices\n1,99 10 20 10 20 10 20 10 20 10 20 10 20 10 20 10 20 10 20 10\n2,20 10\n",
                "roster row 2: Refused 6 UnknownSchool 99",
            ),
            (
                SCHOOLS,
                "student,zone,siblings\n1,0,99 10 20 10 20 10 20 10 20 10 20 10 20 10 20 10 20 10 20 10 20 10\n2,0,10\n",
                "student,choices\n1,99\n2,20 10\n",
                "roster row 2: Refused 5 ListTooLong",
            ),
            (
                SCHOOLS,
                ROSTER,
                "student,choices\n1,10 20\n2,\n",
                "roster row 3: Refused 4 EmptyList",
            ),
        ],
    );
}

#[test]
fn lists_in_another_order_than_the_roster(rt: HostRuntime) {
    expect(
        &rt,
        rt.alloc(),
        &[
            (
                SCHOOLS,
                ROSTER,
                "student,choices\n2,20 10\n1,10 20\n",
                "school 10 zone 0 seats 1; school 20 zone 0 seats 1; student 1 zone 0 siblings 20 choices 10 20; student 2 zone 0 siblings 10 choices 20 10; ",
            ),
            (
                SCHOOLS,
                "student,zone,siblings\n2,0,10\n1,0,20\n",
                LISTS,
                "school 10 zone 0 seats 1; school 20 zone 0 seats 1; student 2 zone 0 siblings 10 choices 20 10; student 1 zone 0 siblings 20 choices 10 20; ",
            ),
            (
                SCHOOLS,
                ROSTER,
                "student,choices\n2,20 10\n9,10\n1,10 20\n",
                "lists row 3: NotInRoster",
            ),
            (
                SCHOOLS,
                ROSTER,
                "student,choices\n2,20 10\n9,10\n",
                "roster row 2: NoList",
            ),
            (
                SCHOOLS,
                ROSTER,
                "student,choices\n2,20 10\n1,\n",
                "roster row 2: Refused 4 EmptyList",
            ),
        ],
    );
}

#[test]
fn numbers_twice_in_any_order(rt: HostRuntime) {
    expect(
        &rt,
        rt.alloc(),
        &[
            (
                "school,zone,seats\n20,0,1\n10,0,1\n",
                "student,zone,siblings\n",
                "student,choices\n",
                "school 20 zone 0 seats 1; school 10 zone 0 seats 1; ",
            ),
            (
                "school,zone,seats\n20,0,1\n30,0,1\n20,0,1\n",
                ROSTER,
                LISTS,
                "schools row 4: Twice",
            ),
            (
                "school,zone,seats\n30,0,1\n20,0,1\n10,0,1\n20,0,1\n",
                ROSTER,
                LISTS,
                "schools row 5: Twice",
            ),
            (
                "school,zone,seats\n30,0,1\n10,0,1\n40,0,1\n40,0,1\n",
                ROSTER,
                LISTS,
                "schools row 5: Twice",
            ),
        ],
    );
}
