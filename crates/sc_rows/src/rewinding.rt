//! From where on an amendment settles anew.
use crate::given::{amend, expect_answered, papers_of, wanted_of};
use sc_markets::{FIVE_STUDENTS, Files, MARKET_B_CONTINUING, amendment};
use sc_papers::{FlatPapers, Refusal};
use sc_repair::rewind_point;
use std::alloc::{AllocError, Global};
use std::process::Abort;

/// A rewind point, or a refusal, as a text.
fn point_text(alloc: Global, point: Result<usize, Refusal>) -> Result<String, AllocError> {
    match point {
        Ok(point) => format!(in alloc; "{point}"),
        Err(refusal) => refusal.to_string(alloc),
    }
}

/// The rewind point of an amendment, or its refusal.
fn point(alloc: Global, papers: &FlatPapers, record: &str) -> Result<String, Refusal> {
    let amendment = amendment(alloc, record)?;
    let point = rewind_point(papers, &amendment);
    drop(amendment);
    Ok(point_text(alloc, point)?)
}

/// The amendments have the wanted rewind points, which stand after `=>`.
fn expect_points(rt: &impl Abort, alloc: Global, papers: &FlatPapers, script: &str) {
    for line in script.lines() {
        let (record, want) = wanted_of(rt, line);
        expect_answered(rt, record, point(alloc, papers, record), want);
    }
}

// The papers of the correction that rewinds to the start, with a school 30 that nobody lists.
#[test]
fn each_amendment_rewinds(rt: HostRuntime) {
    let files = Files {
        schools: "10,1,1\n20,0,2\n30,0,1\n",
        students: "1,1,\n2,0,\n3,0,\n4,0,\n5,0,\n",
        lists: "1,10 20\n2,10 20\n3,20\n4,20 10\n5,20\n",
    };
    let script = "\
correct,1,0, => 0
withdraw,3 => 2
rerank,5,10 => 4
enter,6,0,,10 => 5
add,10,1 => 0
close,20,1 => 0
add,30,1 => 5
withdraw,99 => UnknownStudent
";
    let papers = papers_of(&rt, rt.alloc(), files);
    expect_points(&rt, rt.alloc(), &papers, script);
}

#[test]
fn a_correction_rewinds_to_the_start(rt: HostRuntime) {
    let papers = papers_of(&rt, rt.alloc(), FIVE_STUDENTS);
    expect_points(&rt, rt.alloc(), &papers, "correct,1,0, => 0\n");
}

#[test]
fn continuing_against_a_newcomer(rt: HostRuntime) {
    let mut papers = papers_of(&rt, rt.alloc(), MARKET_B_CONTINUING);
    expect_points(&rt, rt.alloc(), &papers, "enter,3,1,10,10 => 2\n");
    amend(&rt, rt.alloc(), &mut papers, "enter,3,1,10,10");
    let script = "correct,2,0,10 => 1\ncorrect,2,0,10,77 => UnknownSchool 77\n";
    expect_points(&rt, rt.alloc(), &papers, script);
}
