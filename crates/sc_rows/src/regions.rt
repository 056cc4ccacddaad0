//! Regions in one small market: schools 10, 20 and 30 with a seat each, students 1 and 2, who list 10 and 20,
//! and students 6 and 7, who list 30. Where memory is refused, a test asks again, so that each growth can be
//! refused in turn.

use crate::given::{amendment_of, papers_of, student};
use sc_markets::Files;
use sc_papers::{Amendment, FlatPapers, Refusal};
use sc_region::{RegionList, region};
use std::alloc::Global;
use std::process::Abort;

const MARKET: Files<'static> = Files {
    schools: "10,0,1\n20,0,1\n30,0,1\n",
    students: "1,0,\n2,0,\n7,0,\n6,0,\n",
    lists: "1,10 20\n2,20 10\n7,30\n6,30\n",
};

/// The region has these students.
fn expect_students(rt: &impl Abort, region: &RegionList, want: &[u32]) {
    assert!(rt; region.len() == want.len());
    assert!(rt; region.is_empty() == want.is_empty());
    for (position, number) in want.iter().enumerate() {
        assert!(rt; region.at(position) == Some(student(rt, *number)));
        assert!(rt; region.contains(student(rt, *number)));
    }
    assert!(rt; region.at(want.len()).is_none());
    assert!(rt; !region.contains(student(rt, 9)));
}

/// The region of the amendment, asked again where memory was refused.
fn region_of(
    alloc: Global,
    papers: &FlatPapers,
    amendment: &Amendment,
) -> Result<RegionList, Refusal> {
    match region(alloc, papers, amendment) {
        Err(Refusal::OutOfMemory) => region(alloc, papers, amendment),
        answer => answer,
    }
}

/// The region of the record's amendment has these students.
fn expect_region(rt: &impl Abort, alloc: Global, papers: &FlatPapers, record: &str, want: &[u32]) {
    let amendment = amendment_of(rt, alloc, record);
    let reached = region_of(alloc, papers, &amendment)
        .ok()
        .expect(rt, "a region");
    drop(amendment);
    expect_students(rt, &reached, want);
    drop(reached);
}

#[test]
fn a_student_enters(rt: HostRuntime) {
    let papers = papers_of(&rt, rt.alloc(), MARKET);
    expect_region(&rt, rt.alloc(), &papers, "enter,3,0,,10", &[1, 2, 3]);
}

// Whoever is corrected names schools that others list, as a sibling's and as the one to continue at: the region is
// about choices alone.
fn expect_regions(rt: &impl Abort, alloc: Global, papers: &FlatPapers) {
    expect_region(rt, alloc, papers, "withdraw,1", &[1, 2]);
    expect_region(rt, alloc, papers, "rerank,6,10", &[1, 2, 6, 7]);
    expect_region(rt, alloc, papers, "correct,7,1,10,20", &[6, 7]);
    expect_region(rt, alloc, papers, "add,30,1", &[6, 7]);
    expect_region(rt, alloc, papers, "close,20,1", &[1, 2]);
}

#[test]
fn a_student_or_a_school_changes(rt: HostRuntime) {
    let papers = papers_of(&rt, rt.alloc(), MARKET);
    expect_regions(&rt, rt.alloc(), &papers);
}

fn expect_refusal(rt: &impl Abort, alloc: Global, papers: &FlatPapers) {
    let withdrawal = Amendment::Withdraw {
        student: student(rt, 9),
    };
    let refusal = region(alloc, papers, &withdrawal)
        .err()
        .expect(rt, "a refusal");
    assert!(rt; refusal == Refusal::UnknownStudent);
}

#[test]
fn an_unknown_student_is_refused(rt: HostRuntime) {
    let papers = papers_of(&rt, rt.alloc(), MARKET);
    expect_refusal(&rt, rt.alloc(), &papers);
}
