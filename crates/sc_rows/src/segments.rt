//! Checkpoints of Market B and its newcomer: schools 10 in zone 1 and 20, with a seat each, and three
//! students, of whom the last sets off a chain of three rejections.
ghost use Rattle.std.specs.Prelude.{◌≡◌, ◌∷◌, ◌++◌, [], length, IfOk, IfSome, OnOk};
ghost use Rattle.sc_papers.specs.Market.{students_of};
ghost use Rattle.sc_checkpoint.specs.Chains.{students_in};
ghost use Rattle.sc_checkpoint.specs.Spans.{AreWithin};

use crate::comparing::same;
use crate::given::{school, student};
use crate::rounds::{expect_both, resume_with_the_third};
use sc_checkpoint::{Segments, Spans, Standing};
use sc_papers::{
    Amendment, FlatPapers, Papers, Refusal, Rejection, SchoolList, SchoolRefusal, Seats, Seed, Zone,
};
use sc_seats::{HeapRoll, SortedRoll};
use std::alloc::{AllocError, Global};
use std::process::Abort;

fn zone(rt: &impl Abort, number: u32) -> Zone {
    Zone::new(number).expect(rt, "a zone")
}

fn list(rt: &impl Abort, alloc: Global, numbers: &[u32]) -> Result<SchoolList, AllocError> {
    let mut schools = Vec::new(alloc);
    for number in numbers {
        schools.push(school(rt, *number))?;
    }
    Ok(SchoolList::from_vec(schools))
}

fn add_school(
    rt: &impl Abort,
    papers: &mut Papers,
    number: u32,
    at: u32,
) -> Result<(), SchoolRefusal>
    ensures { OnOk result (students_of papers.new ≡ students_of papers.old) }
{
    let seats = Seats::new(1).expect(rt, "a seat");
    papers.add_school(school(rt, number), zone(rt, at), seats)
}

/// A student of the worked row: number, zone, siblings, choices.
type Entry<'a> = (u32, u32, &'a [u32], &'a [u32]);

fn enter(
    rt: &impl Abort,
    alloc: Global,
    papers: &mut Papers,
    entry: Entry<'_>,
) -> Result<(), Refusal>
    ensures { OnOk result (students_of papers.new ≡ students_of papers.old ++ entry.entry.0 ∷ []) }
{
    let (number, at, siblings, choices) = entry;
    let siblings = list(rt, alloc, siblings)?;
    let choices = list(rt, alloc, choices)?;
    papers.apply(Amendment::Enter {
        student: student(rt, number),
        zone: zone(rt, at),
        siblings,
        choices,
        continuing: None,
    })
}

fn enter_three(rt: &impl Abort, alloc: Global, papers: &mut Papers) -> Result<(), Refusal>
    requires { students_of papers.old ≡ [] }
    ensures { OnOk result (students_of papers.new ≡ 1 ∷ 2 ∷ 3 ∷ []) }
{
    enter(rt, alloc, papers, (1, 0, &[20], &[10, 20]))?;
    enter(rt, alloc, papers, (2, 0, &[10], &[20, 10]))?;
    enter(rt, alloc, papers, (3, 1, &[10], &[10]))
}

fn add_two_schools(rt: &impl Abort, papers: &mut Papers) -> Result<(), SchoolRefusal>
    ensures { OnOk result (students_of papers.new ≡ students_of papers.old) }
{
    add_school(rt, papers, 10, 1)?;
    add_school(rt, papers, 20, 0)
}

fn fill(rt: &impl Abort, alloc: Global, papers: &mut Papers) -> Result<(), Refusal>
    requires { students_of papers.old ≡ [] }
    ensures { OnOk result (students_of papers.new ≡ 1 ∷ 2 ∷ 3 ∷ []) }
{
    if let Err(_refused) = add_two_schools(rt, papers) {
        return Err(Refusal::OutOfMemory);
    }
    enter_three(rt, alloc, papers)
}

fn worked_papers(rt: &impl Abort, alloc: Global) -> Option<Papers>
    ensures { IfSome result (λ papers. students_of papers ≡ 1 ∷ 2 ∷ 3 ∷ []) }
{
    let seed = Seed::from_hex(&[b'0'; 64]).ok()?;
    let mut papers = Papers::new(alloc, seed);
    fill(rt, alloc, &mut papers).ok()?;
    Some(papers)
}

fn rejection(rt: &impl Abort, number: u32, at: u32) -> Rejection {
    Rejection {
        student: student(rt, number),
        school: school(rt, at),
    }
}

/// The chain of the third student.
fn last_chain(rt: &impl Abort) -> [Rejection; 3] {
    [
        rejection(rt, 1, 10),
        rejection(rt, 2, 20),
        rejection(rt, 2, 10),
    ]
}

fn worked_segments(rt: &impl Abort, alloc: Global) -> Result<Segments, AllocError>
    ensures { IfOk result (λ segments. students_in segments ≡ 1 ∷ 2 ∷ 3 ∷ []) }
{
    let mut segments = Segments::new(alloc);
    segments.push(student(rt, 1), &[])?;
    segments.push(student(rt, 2), &[])?;
    segments.push(student(rt, 3), &last_chain(rt))?;
    Ok(segments)
}

/// The same segments, made again where memory was refused.
fn segments_of_three(rt: &impl Abort, alloc: Global) -> Segments
    ensures { students_in result ≡ 1 ∷ 2 ∷ 3 ∷ [] }
{
    match worked_segments(rt, alloc) {
        Ok(segments) => segments,
        Err(_) => worked_segments(rt, alloc).expect(rt, "memory"),
    }
}

fn expect_cuts(rt: &impl Abort, segments: &Segments)
    requires { length segments.now ≡ 3 }
{
    let chain = last_chain(rt);
    same(rt, &segments.len(), &3);
    same(rt, &segments.log_len(), &3);
    same(rt, &segments.segment(0).len(), &0);
    same(rt, &segments.segment(2), &chain.as_slice());
    same(rt, &segments.student(2), &student(rt, 3));
}

#[test]
fn segments_are_cut_where_students_enter(rt: HostRuntime) {
    let segments = segments_of_three(&rt, rt.alloc());
    expect_cuts(&rt, &segments);
}

/// Pushes the third student's first rejection behind the first two.
fn push_one(rt: &impl Abort, rewound: &mut Segments) {
    let chain = last_chain(rt);
    same(rt, &rewound.len(), &2);
    let pushed = rewound.push(student(rt, 3), &chain[..1]);
    assert!(rt; pushed.is_ok());
    same(rt, &rewound.log_len(), &1);
    let log = rewound.flat().expect(rt, "memory");
    same(rt, &log.as_slice(), &&chain[..1]);
}

fn expect_copies(rt: &impl Abort, segments: &Segments)
    requires { length segments.now ≡ 3 }
{
    let log = segments.flat().expect(rt, "memory");
    same(rt, &log.as_slice(), &last_chain(rt).as_slice());
    let prefix = segments.prefix(2).expect(rt, "memory");
    same(rt, &prefix.len(), &0);
    let mut rewound = segments.copy_prefix(2).expect(rt, "memory");
    push_one(rt, &mut rewound);
}

#[test]
fn checkpoints_are_copied(rt: HostRuntime) {
    let segments = segments_of_three(&rt, rt.alloc());
    expect_copies(&rt, &segments);
}

/// The students stand at these schools, in order: 0 is none.
fn expect_each(rt: &impl Abort, next_choices: &[Standing], wanted: &[(u32, u32)]) {
    same(rt, &next_choices.len(), &wanted.len());
    for (choice, (number, at)) in next_choices.iter().zip(wanted.iter()) {
        same(rt, &choice.student, &student(rt, *number));
        let next = match choice.next {
            Some(next) => next.get(),
            None => 0,
        };
        same(rt, &next, at);
    }
}

/// Where the students of the papers stand after the segments.
fn expect_next_choices(
    rt: &impl Abort,
    papers: &FlatPapers,
    segments: &Segments,
) -> Result<(), AllocError>
    requires papers { students_of papers.now ≡ 1 ∷ 2 ∷ 3 ∷ [] }
    requires segments { students_in segments.now ≡ 1 ∷ 2 ∷ 3 ∷ [] }
{
    expect_each(
        rt,
        segments.next_choices_at(papers, 2)?.as_slice(),
        &[(1, 10), (2, 20)],
    );
    expect_each(
        rt,
        segments.next_choices_at(papers, 3)?.as_slice(),
        &[(1, 20), (2, 0), (3, 10)],
    );
    Ok(())
}

/// The worked papers, made again where memory was refused.
fn papers_of_three(rt: &impl Abort, alloc: Global) -> Papers
    ensures { students_of result ≡ 1 ∷ 2 ∷ 3 ∷ [] }
{
    match worked_papers(rt, alloc) {
        Some(papers) => papers,
        None => worked_papers(rt, alloc).expect(rt, "papers"),
    }
}

/// Where the students of the worked papers stand after these segments. Where a growth is refused, they
/// are asked for again.
fn expect_of_papers(rt: &impl Abort, alloc: Global, segments: &Segments)
    requires { students_in segments.now ≡ 1 ∷ 2 ∷ 3 ∷ [] }
{
    let papers = papers_of_three(rt, alloc);
    if expect_next_choices(rt, &papers, segments).is_err() {
        expect_next_choices(rt, &papers, segments).expect(rt, "memory");
    }
}

#[test]
fn students_stand_at_their_next_choices(rt: HostRuntime) {
    let segments = segments_of_three(&rt, rt.alloc());
    expect_of_papers(&rt, rt.alloc(), &segments);
}

/// A round that goes on from where the first two students stand after their segments, and which the third enters, has
/// the third's chain as its log, and makes three proposals.
fn expect_resumed(rt: &impl Abort, alloc: Global, segments: &Segments)
    requires { students_in segments.now ≡ 1 ∷ 2 ∷ 3 ∷ [] }
{
    let papers = papers_of_three(rt, alloc);
    let told = segments.next_choices_at(&papers, 2).expect(rt, "memory");
    let want = "(1,10)(2,20)(2,10) 3: 1 at 20 3 at 10";
    let sorted = resume_with_the_third::<SortedRoll>(rt, alloc, &papers, told.as_slice());
    let heap = resume_with_the_third::<HeapRoll>(rt, alloc, &papers, told.as_slice());
    expect_both(rt, alloc, sorted, heap, want);
}

#[test]
fn a_round_goes_on_from_a_checkpoint(rt: HostRuntime) {
    let segments = segments_of_three(&rt, rt.alloc());
    expect_resumed(&rt, rt.alloc(), &segments);
}

/// Of the last chain, the first rejection as the segment of the first student, and the others as that of the third.
fn spans_of_two(rt: &impl Abort, alloc: Global, chain: &[Rejection]) -> Result<Spans, AllocError>
    requires { length chain.now ≡ 3 }
    ensures within { IfOk result (AreWithin chain.now) }
    ensures two { IfOk result (λ spans. length spans ≡ 2) }
{
    let mut spans = Spans::with_room(alloc, 2)?;
    spans.push(student(rt, 1), &chain[..1], 0)?;
    spans.push(student(rt, 3), chain, 1)?;
    Ok(spans)
}

/// Renews the segments of the first and the third student, where there is memory for that.
fn renew_two(
    rt: &impl Abort,
    alloc: Global,
    segments: &mut Segments,
    log: &[Rejection],
) -> Result<(), AllocError>
    requires three { length segments.old ≡ 3 }
    requires log { length log.now ≡ 3 }
    ensures { length segments.new ≡ 3 }
{
    let spans = spans_of_two(rt, alloc, log)?;
    let renewed = segments.replace(&[0, 2], &spans, log);
    drop(spans);
    renewed
}

/// Renews two segments so often that those that have gone are put away.
fn renew(rt: &impl Abort, alloc: Global, segments: &mut Segments)
    requires { length segments.old ≡ 3 }
{
    let chain = last_chain(rt);
    let log = chain.as_slice();
    for _turn in 0..8 {
        assert!(rt; renew_two(rt, alloc, segments, log).is_ok());
    }
    same(rt, &segments.segment(0), &&log[..1]);
    same(rt, &segments.segment(1).len(), &0);
    same(rt, &segments.segment(2), &&log[1..]);
    segments.remove(0);
    same(rt, &segments.len(), &2);
    same(rt, &segments.log_len(), &2);
}

#[test]
fn segments_give_way_to_renewed_ones(rt: HostRuntime) {
    let mut segments = segments_of_three(&rt, rt.alloc());
    renew(&rt, rt.alloc(), &mut segments);
}

/// How many a call gave, or as many as are wanted where memory was refused.
fn given_or(given: Option<usize>, wanted: usize) -> usize {
    match given {
        Some(given) => given,
        None => wanted,
    }
}

/// How many rejections a list has, where there was memory for it.
fn rejections(list: Result<Vec<Rejection>, AllocError>) -> Option<usize> {
    match list {
        Ok(list) => Some(list.len()),
        Err(_) => None,
    }
}

/// How many students a copy of all segments has, where there was memory for it.
fn copied(segments: &Segments) -> Option<usize>
    requires { length segments.now ≡ 3 }
{
    match segments.copy_prefix(3) {
        Ok(copy) => {
            let students = copy.len();
            drop(copy);
            Some(students)
        }
        Err(_) => None,
    }
}

fn expect_growths(rt: &impl Abort, alloc: Global, segments: &mut Segments)
    requires { students_in segments.old ≡ 1 ∷ 2 ∷ 3 ∷ [] }
{
    assert!(rt; given_or(rejections(segments.flat()), 3) == 3);
    assert!(rt; given_or(rejections(segments.prefix(3)), 3) == 3);
    assert!(rt; given_or(copied(segments), 3) == 3);
    let chain = last_chain(rt);
    let renewed = renew_two(rt, alloc, segments, &chain).is_ok();
    assert!(rt; segments.segment(0).len() == if renewed { 1 } else { 0 });
    let pushed = segments.push(student(rt, 4), &last_chain(rt)).is_ok();
    assert!(rt; segments.len() == if pushed { 4 } else { 3 });
    assert!(rt; segments.log_len() == if pushed { 6 } else { 3 });
}

// Run with each allocation refused in turn, this one sees want of memory from each call that takes any.
#[test]
fn segments_stay_where_memory_is_refused(rt: HostRuntime) {
    let mut segments = segments_of_three(&rt, rt.alloc());
    expect_growths(&rt, rt.alloc(), &mut segments);
}
