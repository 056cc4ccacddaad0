//! Rounds of proposals: settlings from the beginning, in reverse and from where students stand.
ghost use Rattle.std.specs.Prelude.{◌≡◌, true, false, List, ◌∷◌, [], Some, IfOk, OnOk, length, slice_get, map};
ghost use Rattle.sc_papers.specs.Market.{is_student, students_of};
ghost use Rattle.sc_papers.specs.declared.rejection.Rejection.{Rejection};
ghost use Rattle.sc_checkpoint.specs.NextChoices.{AreNextChoices};
ghost use Rattle.sc_engine.specs.Round.{view_of, is_spent};
ghost use Rattle.sc_engine.specs.RoundView.{Fits, has_entered, SettlesFirst};

use crate::comparing::same;
use crate::given::{expect_said, papers_of, school, student};
use sc_checkpoint::Standing;
use sc_engine::{Round, Settled, settle, settle_places};
use sc_markets::{
    FIVE_STUDENTS, Files, MARKET_A, MARKET_B, MARKET_B_AND_NEWCOMER, TWO_STUDENTS, log_text,
};
use sc_papers::{FlatPapers, SchoolNo, StudentNo};
use sc_seats::{HeapRoll, Roll, SortedRoll};
use std::alloc::{AllocError, Global};
use std::process::Abort;

/// Who has which school, in order of entry, as a text.
fn outcome_text(alloc: Global, settled: &Settled) -> Result<String, AllocError> {
    let mut text = String::new(alloc);
    for place in 0..settled.assignment.len() {
        if let Some((student, school)) = settled.assignment.at(place) {
            write!(text, " {} at {}", student.get(), school.get())?;
        }
    }
    Ok(text)
}

/// The same of the schools that the students have, in order of entry.
fn placed_text(
    alloc: Global,
    papers: &FlatPapers,
    places: &[Option<SchoolNo>],
) -> Result<String, AllocError> {
    let mut text = String::new(alloc);
    for (position, place) in places.iter().enumerate() {
        if let (Some(student), Some(school)) = (papers.student_at(position), place) {
            write!(text, " {} at {}", student.get(), school.get())?;
        }
    }
    Ok(text)
}

/// What the proposals came to, as a text: the log, how many proposals there were, and the outcome.
fn settled_text(alloc: Global, settled: &Settled) -> Result<String, AllocError> {
    let log = log_text(alloc, settled.log.as_slice())?;
    let proposals = settled.proposals;
    let outcome = outcome_text(alloc, settled)?;
    format!(in alloc; "{log} {proposals}:{outcome}")
}

/// The proposals came to what is wanted.
fn expect_settled(
    rt: &impl Abort,
    alloc: Global,
    settled: Result<Settled, AllocError>,
    want: &str,
) {
    let settled = settled.expect(rt, "memory");
    expect_said(rt, "a settling", settled_text(alloc, &settled), want);
}

/// Both kinds of rolls came to what is wanted.
pub(super) fn expect_both(
    rt: &impl Abort,
    alloc: Global,
    sorted: Result<Settled, AllocError>,
    heap: Result<Settled, AllocError>,
    want: &str,
) {
    expect_settled(rt, alloc, sorted, want);
    expect_settled(rt, alloc, heap, want);
}

/// The outcome by the keys at the first choices.
fn expect_placed(rt: &impl Abort, alloc: Global, papers: &FlatPapers, want: &str) {
    let settled = settle_places(alloc, papers).expect(rt, "memory");
    let said = placed_text(alloc, papers, settled.places.as_slice());
    expect_said(rt, "places", said, want);
}

/// The outcome by the order of entry.
fn expect_outcome(rt: &impl Abort, alloc: Global, papers: &FlatPapers, want: &str) {
    let settled = settle(alloc, papers).expect(rt, "memory");
    expect_said(rt, "an outcome", outcome_text(alloc, &settled), want);
}

/// Settles a market by the keys at the first choices, which comes to the same outcome as the order of entry.
fn expect_by_first_keys(rt: &impl Abort, alloc: Global, files: Files<'_>, want: &str) {
    let papers = papers_of(rt, alloc, files);
    expect_placed(rt, alloc, &papers, want);
    expect_outcome(rt, alloc, &papers, want);
}

#[test]
fn entry_by_first_keys(rt: HostRuntime) {
    expect_by_first_keys(&rt, rt.alloc(), TWO_STUDENTS, " 2 at 1");
    expect_by_first_keys(&rt, rt.alloc(), MARKET_A, " 1 at 10 2 at 20");
    expect_by_first_keys(&rt, rt.alloc(), MARKET_B, " 1 at 10 2 at 20");
    let with_newcomer = " 1 at 20 3 at 10";
    expect_by_first_keys(&rt, rt.alloc(), MARKET_B_AND_NEWCOMER, with_newcomer);
    let of_five = " 1 at 10 4 at 20 5 at 20";
    expect_by_first_keys(&rt, rt.alloc(), FIVE_STUDENTS, of_five);
}

/// Where the first two students stand once they alone have entered.
fn first_two_stand<R: Roll>(
    alloc: Global,
    papers: &FlatPapers,
    one: StudentNo,
    two: StudentNo,
) -> Result<[Standing; 2], AllocError>
    requires one { slice_get (students_of papers.now) 0 ≡ Some one }
    requires two { slice_get (students_of papers.now) 1 ≡ Some two }
    ensures after { IfOk result (λ next_choices. (earlier : List Rejection)
        × AreNextChoices papers.now earlier next_choices) }
    ensures students { IfOk result (λ next_choices. map (λ choice. choice.student) next_choices ≡ one ∷ two ∷ []) }
{
    let mut round: Round<R> = Round::start(alloc, papers)?;
    round.enter_one(papers, one)?;
    round.enter_one(papers, two)?;
    Ok([
        Standing {
            student: one,
            next: round.next_choice(papers, one),
        },
        Standing {
            student: two,
            next: round.next_choice(papers, two),
        },
    ])
}

/// Enters the third student into a round that goes on from where the first two stand, which is told by a checkpoint.
pub(super) fn resume_with_the_third<R: Roll>(
    rt: &impl Abort,
    alloc: Global,
    papers: &FlatPapers,
    told: &[Standing],
) -> Result<Settled, AllocError> {
    let (Some(one), Some(two), Some(three)) = (
        papers.student_at(0),
        papers.student_at(1),
        papers.student_at(2),
    ) else {
        return Err(AllocError);
    };
    let next_choices = first_two_stand::<R>(alloc, papers, one, two)?;
    same(rt, &next_choices.as_slice(), &told);
    let mut round: Round<R> = Round::resume(alloc, papers, &next_choices)?;
    round.enter_one(papers, three)?;
    round.into_settled(papers)
}

/// Does so, where the third student is not found by a guess at where they stand.
fn resume_with_a_wrong_guess<R: Roll>(
    alloc: Global,
    papers: &FlatPapers,
) -> Result<Settled, AllocError> {
    let (Some(one), Some(two), Some(three)) = (
        papers.student_at(0),
        papers.student_at(1),
        papers.student_at(2),
    ) else {
        return Err(AllocError);
    };
    let next_choices = first_two_stand::<R>(alloc, papers, one, two)?;
    let mut round: Round<R> = Round::resume(alloc, papers, &next_choices)?;
    round.enter_near(papers, three, 1)?;
    round.into_settled(papers)
}

#[test]
fn a_newcomer_who_stands_elsewhere_than_was_guessed(rt: HostRuntime) {
    let papers = papers_of(&rt, rt.alloc(), MARKET_B_AND_NEWCOMER);
    let want = "(1,10)(2,20)(2,10) 3: 1 at 20 3 at 10";
    let sorted = resume_with_a_wrong_guess::<SortedRoll>(rt.alloc(), &papers);
    let heap = resume_with_a_wrong_guess::<HeapRoll>(rt.alloc(), &papers);
    expect_both(&rt, rt.alloc(), sorted, heap, want);
}

/// Enters all students, the last one first.
fn settle_backwards<R: Roll>(alloc: Global, papers: &FlatPapers) -> Result<Settled, AllocError> {
    let mut round: Round<R> = Round::start(alloc, papers)?;
    let mut left = papers.students_len();
    while left > 0 {
        left -= 1;
        let Some(student) = papers.student_at(left) else {
            unreachable!()
        };
        round.enter_one(papers, student)?;
    }
    round.into_settled(papers)
}

/// Enters all students in order into a round in which nobody has entered.
fn enter_all<R: Roll>(round: &mut Round<R>, papers: &FlatPapers) -> Result<(), AllocError>
    requires first { SettlesFirst papers.now (view_of R.keys R.seats round.old) 0 }
    requires ready { is_spent round.old ≡ false }
    ensures ready { OnOk result (is_spent round.new ≡ false) }
    ensures all { OnOk result (SettlesFirst papers.now (view_of R.keys R.seats round.new)
        (length papers.now.students)) }
{
    for position in 0..papers.students_len() {
        let Some(student) = papers.student_at(position) else {
            unreachable!()
        };
        round.enter_one(papers, student)?;
    }
    Ok(())
}

/// The students stand at these schools, in order of entry: 0 is none.
fn expect_next<R: Roll>(rt: &impl Abort, papers: &FlatPapers, round: &Round<R>, next: &[u32])
    requires { Fits papers.now (view_of R.keys R.seats round.now) }
{
    same(rt, &next.len(), &papers.students_len());
    for (position, want) in next.iter().enumerate() {
        let student = papers.student_at(position).expect(rt, "a student");
        let found = round.next_choice(papers, student);
        same(rt, &found.map_or(0, |school| school.get()), want);
    }
}

/// Enters all students, the first one first, who then stand at these schools.
fn settle_forwards<R: Roll>(
    rt: &impl Abort,
    alloc: Global,
    papers: &FlatPapers,
    next: &[u32],
) -> Result<Settled, AllocError> {
    let mut round: Round<R> = Round::start(alloc, papers)?;
    enter_all(&mut round, papers)?;
    expect_next(rt, papers, &round, next);
    round.into_settled(papers)
}

/// In order of entry the students of a market come to stand at these schools, and to what is wanted, by `settle` and by a
/// round with rolls of either kind.
fn expect_in_order(rt: &impl Abort, alloc: Global, files: Files<'_>, next: &[u32], want: &str) {
    let papers = papers_of(rt, alloc, files);
    expect_settled(rt, alloc, settle(alloc, &papers), want);
    let sorted = settle_forwards::<SortedRoll>(rt, alloc, &papers, next);
    let heap = settle_forwards::<HeapRoll>(rt, alloc, &papers, next);
    expect_both(rt, alloc, sorted, heap, want);
}

#[test]
fn one_seat_two_students(rt: HostRuntime) {
    expect_in_order(&rt, rt.alloc(), TWO_STUDENTS, &[0, 1], "(1,1) 2: 2 at 1");
}

#[test]
fn market_b_and_a_newcomer_in_lists_and_heaps(rt: HostRuntime) {
    let opening = " 2: 1 at 10 2 at 20";
    expect_in_order(&rt, rt.alloc(), MARKET_B, &[10, 20], opening);
    let want = "(1,10)(2,20)(2,10) 5: 1 at 20 3 at 10";
    expect_in_order(&rt, rt.alloc(), MARKET_B_AND_NEWCOMER, &[20, 0, 10], want);
}

#[test]
fn entry_in_reverse(rt: HostRuntime) {
    let in_order = "(2,10)(3,20)(2,20) 6: 1 at 10 4 at 20 5 at 20";
    expect_in_order(
        &rt,
        rt.alloc(),
        FIVE_STUDENTS,
        &[10, 0, 0, 20, 20],
        in_order,
    );
    let papers = papers_of(&rt, rt.alloc(), FIVE_STUDENTS);
    let want = "(3,20)(2,10)(2,20) 6: 1 at 10 4 at 20 5 at 20";
    let sorted = settle_backwards::<SortedRoll>(rt.alloc(), &papers);
    let heap = settle_backwards::<HeapRoll>(rt.alloc(), &papers);
    expect_both(&rt, rt.alloc(), sorted, heap, want);
}

/// A spent round stays spent.
fn expect_spent<R: Roll>(rt: &impl Abort, papers: &FlatPapers, round: &mut Round<R>, one: StudentNo)
    requires { is_spent round.old ≡ true }
    ensures { is_spent round.new ≡ true }
{
    assert!(rt; round.is_spent());
    let entered = round.enter_one(papers, one);
    assert!(rt; entered.is_err());
    assert!(rt; round.assignment(papers).is_err());
}

fn expect_unsettled<R: Roll>(rt: &impl Abort, papers: &FlatPapers, round: Round<R>)
    requires { is_spent round ≡ true }
{
    assert!(rt; round.into_settled(papers).is_err());
}

fn expect_first_school(rt: &impl Abort, place: Option<SchoolNo>) {
    same(rt, &place, &Some(school(rt, 1)));
}

/// The student has entered at school 1.
fn expect_entered<R: Roll>(
    rt: &impl Abort,
    papers: &FlatPapers,
    round: &Round<R>,
    one: StudentNo,
) -> Result<(), AllocError>
    requires { Fits papers.now (view_of R.keys R.seats round.now) }
{
    assert!(rt; !round.is_spent());
    expect_first_school(rt, round.next_choice(papers, one));
    assert!(rt; round.log().is_empty());
    same(rt, &round.proposals(), &1);
    let assignment = round.assignment(papers)?;
    expect_first_school(rt, assignment.get(one));
    drop(assignment);
    Ok(())
}

/// Where a growth is refused within `enter_one`, the round stays spent.
fn spend(
    rt: &impl Abort,
    papers: &FlatPapers,
    mut round: Round<SortedRoll>,
    one: StudentNo,
) -> Result<(), AllocError>
    requires fits { Fits papers.now (view_of (⟦<SortedRoll as Roll>⟧.keys) (⟦<SortedRoll as Roll>⟧.seats) round) }
    requires ready { is_spent round ≡ false }
    requires student { is_student papers.now one ≡ true }
    requires absent { has_entered papers.now (view_of (⟦<SortedRoll as Roll>⟧.keys)
        (⟦<SortedRoll as Roll>⟧.seats) round).ranks one ≡ false }
{
    if round.enter_one(papers, one).is_err() {
        expect_spent(rt, papers, &mut round, one);
        expect_unsettled(rt, papers, round);
        return Err(AllocError);
    }
    expect_entered(rt, papers, &round, one)
}

/// Spends a round of these papers, if the student is in them.
fn spend_one(rt: &impl Abort, alloc: Global, papers: &FlatPapers) -> Result<(), AllocError> {
    let one = student(rt, 1);
    if papers.student_position(one).is_none() {
        return Ok(());
    }
    let round: Round<SortedRoll> = Round::start(alloc, papers)?;
    spend(rt, papers, round, one)
}

// Run with each allocation refused in turn, this one sees a round that is spent.
#[test]
fn a_spent_round(rt: HostRuntime) {
    let files = Files {
        schools: "1,0,1\n",
        students: "1,0,\n",
        lists: "1,1\n",
    };
    let papers = papers_of(&rt, rt.alloc(), files);
    if spend_one(&rt, rt.alloc(), &papers).is_err() {
        spend_one(&rt, rt.alloc(), &papers).expect(&rt, "memory");
    }
}
