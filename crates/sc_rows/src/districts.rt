//! Districts in a market of a few districts: schools 10 and 20, which students 1 and 2 list, school 40, which
//! student 3 lists, and school 30, which all others list. Where memory is refused, a test asks again.

ghost use Rattle.std.specs.Prelude.{IfOk};
ghost use Rattle.sc_region.specs.Districts.{AreDistricts};

use crate::given::{amendment_of, papers_of};
use sc_markets::Files;
use sc_papers::{Amendment, FlatPapers, Papers, Refusal};
use sc_region::Districts;
use std::alloc::Global;
use std::process::Abort;

const MARKET: Files<'static> = Files {
    schools: "10,0,1\n20,0,1\n30,0,1\n40,0,1\n",
    students: "\
1,0,
2,0,
3,0,
11,0,
12,0,
13,0,
14,0,
15,0,
16,0,
17,0,
18,0,
19,0,
20,0,
21,0,
22,0,
23,0,
24,0,
25,0,
26,0,
27,0,
28,0,
29,0,
30,0,
31,0,
",
    lists: "\
1,10 20
2,20 10
3,40
11,30
12,30
13,30
14,30
15,30
16,30
17,30
18,30
19,30
20,30
21,30
22,30
23,30
24,30
25,30
26,30
27,30
28,30
29,30
30,30
31,30
",
};

/// Those at these positions, and nobody else of so many students, are wanted.
fn expect_marked(rt: &impl Abort, students: usize, positions: &[usize], want: &[usize]) {
    assert!(rt; positions == want);
    for position in 0..students {
        assert!(rt; positions.contains(&position) == want.contains(&position));
    }
}

/// The region of the amendment has the students at these positions.
fn expect_positions(
    rt: &impl Abort,
    alloc: Global,
    districts: &mut Districts,
    papers: &FlatPapers,
    amendment: &Amendment,
    want: &[usize],
) -> Result<(), Refusal>
    requires { AreDistricts papers.now districts.old }
    ensures { AreDistricts papers.now districts.new }
{
    papers.check(amendment)?;
    let region = districts.region(alloc, papers, amendment)?;
    expect_marked(rt, papers.students_len(), region.positions(), want);
    drop(region);
    Ok(())
}

/// The region of the record's amendment has the students at these positions.
fn expect_region(
    rt: &impl Abort,
    alloc: Global,
    districts: &mut Districts,
    papers: &FlatPapers,
    record: &str,
    want: &[usize],
) -> Result<(), Refusal>
    requires { AreDistricts papers.now districts.old }
    ensures { AreDistricts papers.now districts.new }
{
    let amendment = amendment_of(rt, alloc, record);
    let answer = expect_positions(rt, alloc, districts, papers, &amendment, want);
    drop(amendment);
    answer
}

/// The papers are amended, and the districts with them.
fn follow(
    districts: Districts,
    papers: &mut Papers,
    amendment: Amendment,
) -> Result<Districts, Refusal>
    requires { AreDistricts papers.old districts }
    ensures { IfOk result (AreDistricts papers.new) }
{
    papers.check(&amendment)?;
    let followed = districts.amend(papers, &amendment)?;
    papers.apply(amendment)?;
    Ok(followed)
}

/// The region of the record's amendment has the students at these positions, and then the amendment is made.
fn expect_and_follow(
    rt: &impl Abort,
    alloc: Global,
    districts: Districts,
    papers: &mut Papers,
    record: &str,
    want: &[usize],
) -> Result<Districts, Refusal>
    requires { AreDistricts papers.old districts }
    ensures { IfOk result (AreDistricts papers.new) }
{
    let mut districts = districts;
    expect_region(rt, alloc, &mut districts, papers, record, want)?;
    follow(districts, papers, amendment_of(rt, alloc, record))
}

/// The third student, whose region has the first three before and after, comes with other choices. The region of the
/// first is told before.
fn rerank_the_third(
    rt: &impl Abort,
    alloc: Global,
    districts: Districts,
    papers: &mut Papers,
    of_the_first: &[usize],
    record: &str,
) -> Result<Districts, Refusal>
    requires { AreDistricts papers.old districts }
    ensures { IfOk result (AreDistricts papers.new) }
{
    let mut districts = districts;
    expect_region(
        rt,
        alloc,
        &mut districts,
        papers,
        "withdraw,1",
        of_the_first,
    )?;
    expect_and_follow(rt, alloc, districts, papers, record, &[0, 1, 2])
}

fn expect_regions(rt: &impl Abort, alloc: Global, papers: &mut Papers) -> Result<(), Refusal> {
    let apart = Districts::of(alloc, papers)?;
    // The new choices join two districts.
    let joined = rerank_the_third(rt, alloc, apart, papers, &[0, 1], "rerank,3,10")?;
    // They stay joined until a region is looked for in them, and it is exact all the same.
    let mut parted = rerank_the_third(rt, alloc, joined, papers, &[0, 1, 2], "rerank,3,40")?;
    expect_region(rt, alloc, &mut parted, papers, "withdraw,1", &[0, 1])
}

fn expect_regions_of_market(rt: &impl Abort, alloc: Global) -> Result<(), Refusal> {
    let mut papers = papers_of(rt, alloc, MARKET);
    expect_regions(rt, alloc, &mut papers)
}

#[test]
fn districts_that_were_joined_tell_the_region(rt: HostRuntime) {
    if expect_regions_of_market(&rt, rt.alloc()).is_err() {
        expect_regions_of_market(&rt, rt.alloc()).expect(&rt, "memory");
    }
}

/// A student withdraws, and one enters with choices of two districts.
fn expect_moves(rt: &impl Abort, alloc: Global, papers: &mut Papers) -> Result<(), Refusal> {
    let districts = Districts::of(alloc, papers)?;
    let mut left = follow(districts, papers, amendment_of(rt, alloc, "withdraw,1"))?;
    // Whoever stood behind the first student has moved up.
    expect_region(rt, alloc, &mut left, papers, "withdraw,3", &[1])?;
    let mut come = expect_and_follow(rt, alloc, left, papers, "enter,4,0,,40 10", &[0, 1])?;
    expect_region(rt, alloc, &mut come, papers, "withdraw,3", &[0, 1, 23])
}

fn expect_moves_of_market(rt: &impl Abort, alloc: Global) -> Result<(), Refusal> {
    let mut papers = papers_of(rt, alloc, MARKET);
    expect_moves(rt, alloc, &mut papers)
}

#[test]
fn districts_follow_who_leaves_and_who_comes(rt: HostRuntime) {
    if expect_moves_of_market(&rt, rt.alloc()).is_err() {
        expect_moves_of_market(&rt, rt.alloc()).expect(&rt, "memory");
    }
}
