//! The turns from the rewind point on, each as it was or taken anew. A turn has the number of the position of the student who enters in it.

ghost use Rattle.std.specs.Prelude.{◌≡◌, ◌<◌, ◌+◌, ℕ, Bool, get_or, not, All, IfOk, List, [], if◌then◌else◌, IfSome, OnErr, OnOk, drop, take, ◌≤◌, Some, true, false, length, slice_get};
ghost use Rattle.sc_papers.specs.Market.{choices_of, student_at};
ghost use Rattle.sc_papers.specs.declared.rejection.Rejection.{Rejection};
ghost use Rattle.sc_ledgers.specs.Cohort.{Cohort};
ghost use Rattle.sc_ledgers.specs.Course.{labels_of, AreTogether, Begins};
ghost use Rattle.sc_ledgers.specs.Elsewhere.{cohort_of, first_of, is_aside, still_enters, AreAmong, HasPut};
ghost use Rattle.sc_ledgers.specs.Ledger.{IsRefusedToo};
ghost use Rattle.sc_ledgers.specs.Marks.{marked_in};
ghost use Rattle.sc_ledgers.specs.Ends.{place_of, NamesNone};
ghost use Rattle.sc_ledgers.specs.Proposals.{end_of};
ghost use Rattle.sc_ledgers.specs.Sweep.{is_amended, AreInRegion, HasRun, IsDue, IsNext, IsRegion, IsRetaken, IsTaken};

use crate::chain::run_chain;
use crate::elsewhere::{Run, Stance, Stances};
use crate::following::{Rows, follow};
use crate::ledger::{Answer, Ledger};
use crate::marks::Marks;
use crate::striking::strike_turn;
use sc_papers::{FlatPapers, Rejection, SchoolNo, Seats, StudentNo};
use std::alloc::AllocError;

/// Whether the student at a position does not enter in the new run.
fn has_left(rows: &Rows<'_>, position: usize) -> bool
    requires { position < length rows.now.papers.now.students }
    ensures { result ≡ not (still_enters rows.now (student_at rows.now.papers.now position)) }
{
    let Some(student) = rows.papers.student_at(position) else {
        unreachable!()
    };
    rows.leaves && rows.amended == Some(student)
}

/// The student at a position enters. Whoever is amended stands at the first of their old choices in the old run, and of their new
/// ones in the new run, if they enter in it. A refused growth changes nothing.
fn enter(rows: &Rows<'_>, stances: &mut Stances, position: usize) -> Result<(), AllocError>
    requires { position < length rows.now.papers.now.students }
    ensures others { OnOk result (is_amended rows.now.amended (student_at rows.now.papers.now position) ≡ false
        → stances.new ≡ stances.old) }
    ensures theirs { OnOk result (is_amended rows.now.amended (student_at rows.now.papers.now position) ≡ true
        → HasPut stances.old stances.new (record {
          student = student_at rows.now.papers.now position;
          old = slice_get rows.now.before.now 0;
          new = first_of rows.now (student_at rows.now.papers.now position);
        })) }
{
    let Some(student) = rows.papers.student_at(position) else {
        unreachable!()
    };
    if rows.amended != Some(student) {
        return Ok(());
    }
    let old = rows.before.first().copied();
    let new = if rows.leaves {
        None
    } else {
        rows.papers.choice_at(position, 0)
    };
    stances.put(Stance { student, old, new })
}

/// The student of a turn enters in the new run, unless they have left: their chain runs, and the stances follow it. After a refused
/// growth the ledgers and the stances are to be given up.
pub(crate) fn run_turn(
    rows: &Rows<'_>,
    ledgers: &mut Vec<Ledger>,
    stances: &mut Stances,
    turn: u32,
    chain: &mut Vec<Rejection>,
) -> Result<(), AllocError>
    requires within { turn < length rows.now.papers.now.students }
    requires one_each { length ledgers.old.items ≡ length rows.now.papers.now.schools }
    requires none { chain.old.items ≡ [] }
    requires begins { (news : List (List Rejection))
        × (still_enters rows.now (student_at rows.now.papers.now turn) ≡ true
        → Begins (cohort_of rows.now) news turn (labels_of rows.now.papers.now ledgers.old.items)) }
    ensures one_each { length ledgers.new.items ≡ length rows.now.papers.now.schools }
    ensures kept { OnOk result ((j : ℕ) → is_aside stances.old j ≡ true → is_aside stances.new j ≡ true) }
    ensures left { OnOk result (still_enters rows.now (student_at rows.now.papers.now turn) ≡ false
        → (chain.new.items ≡ []) × (ledgers.new.items ≡ ledgers.old.items) × (stances.new ≡ stances.old)) }
    ensures ran { OnOk result ((news : List (List Rejection)) → still_enters rows.now (student_at rows.now.papers.now turn) ≡ true
        → Begins (cohort_of rows.now) news turn (labels_of rows.now.papers.now ledgers.old.items)
        → HasRun rows.now news turn chain.new.items (labels_of rows.now.papers.now ledgers.old.items)
        (labels_of rows.now.papers.now ledgers.new.items) stances.old stances.new) }
{
    if has_left(rows, turn as usize) {
        return Ok(());
    }
    run_chain(rows.papers, ledgers, turn, chain)?;
    follow(rows, stances, Run::New, chain.as_slice())?;
    Ok(())
}

/// Takes a turn anew, of which these rejections came in the old run: what it left in the ledgers is struck, its chain runs, if its student
/// enters in the new run too, and the stances follow both. After a refused growth the ledgers and the stances are to be given up.
fn retake(
    rows: &Rows<'_>,
    ledgers: &mut Vec<Ledger>,
    stances: &mut Stances,
    turn: u32,
    old: &[Rejection],
    chain: &mut Vec<Rejection>,
) -> Result<(), AllocError>
    requires one_each { length ledgers.old.items ≡ length rows.now.papers.now.schools }
    requires none { chain.old.items ≡ [] }
    requires due { (m : Cohort) × (olds : List (List Rejection)) × (news : List (List Rejection)) × (i : ℕ)
        × (slice_get olds turn ≡ Some old.now)
        × IsDue m (cohort_of rows.now) rows.now.amended rows.now.before.now olds news turn i
        (labels_of rows.now.papers.now ledgers.old.items) stances.old }
    ensures one_each { length ledgers.new.items ≡ length rows.now.papers.now.schools }
    ensures among { OnOk result ((m : Cohort) (olds news : List (List Rejection)) (i : ℕ) (test inner : ℕ → Bool) → slice_get olds turn ≡ Some old.now
        → IsDue m (cohort_of rows.now) rows.now.amended rows.now.before.now olds news turn i
        (labels_of rows.now.papers.now ledgers.old.items) stances.old
        → AreTogether rows.now.papers.now test inner → test i ≡ true → All (λ e. test e.student ≡ true) old.now
        → AreAmong test stances.old → AreAmong test stances.new) }
    ensures retaken { OnOk result ((m : Cohort) (olds news : List (List Rejection)) (i : ℕ) → slice_get olds turn ≡ Some old.now
        → IsDue m (cohort_of rows.now) rows.now.amended rows.now.before.now olds news turn i
        (labels_of rows.now.papers.now ledgers.old.items) stances.old
        → IsRetaken m (cohort_of rows.now) rows.now.amended olds news turn chain.new.items
        (labels_of rows.now.papers.now ledgers.old.items) (labels_of rows.now.papers.now ledgers.new.items) stances.new) }
{
    enter(rows, stances, turn as usize)?;
    follow(rows, stances, Run::Old, old)?;
    strike_turn(rows.papers, ledgers, turn, old);
    run_turn(rows, ledgers, stances, turn, chain)?;
    stances.drop_alike(rows.amended);
    Ok(())
}

/// Whether a rejection is of this student, by this school.
fn is_of(entry: &Rejection, student: StudentNo, school: SchoolNo) -> bool
    ensures student { result ≡ true → entry.now.student ≡ student }
    ensures school { result ≡ true → entry.now.school ≡ school }
{
    entry.student == student && entry.school == school
}

/// Whether a rejection is that of the student of a turn at the choice of this rank, refused at once as the turn began, and comes of
/// the new run too: the school is not marked, or is full of others who are ahead by the labels of the turns before.
fn is_refused_too(
    rows: &Rows<'_>,
    ledgers: &[Ledger],
    marks: &Marks,
    turn: u32,
    rank: usize,
    entry: &Rejection,
) -> bool
    requires within { turn < length rows.now.papers.now.students }
    requires one_each { length ledgers.now ≡ length rows.now.papers.now.schools }
    ensures { result ≡ true → IsRefusedToo rows.now.papers.now (marked_in rows.now.papers.now marks.now.flags)
        (labels_of rows.now.papers.now ledgers.now) turn (student_at rows.now.papers.now turn) entry.now }
{
    let Some(proposal) = rows.papers.proposal(turn as usize, rank) else {
        return false;
    };
    let at = proposal.position;
    let key = proposal.key;
    if !is_of(entry, key.student, proposal.school) {
        return false;
    }
    if !marks.has(at) {
        return true;
    }
    if turn == 0 {
        return false;
    }
    let seats = rows.papers.seats_at(at).unwrap_or(Seats::NONE);
    match ledgers[at].ask(seats.get() as usize, turn - 1, &key) {
        Answer::Refused => true,
        Answer::Seated | Answer::PutsOut(_) => false,
    }
}

/// How many of the first rejections of a turn are refusals at once that come of the new run too.
fn refusals_too(
    rows: &Rows<'_>,
    ledgers: &[Ledger],
    marks: &Marks,
    turn: u32,
    segment: &[Rejection],
) -> usize
    requires within { turn < length rows.now.papers.now.students }
    requires one_each { length ledgers.now ≡ length rows.now.papers.now.schools }
    ensures within { result ≤ length segment.now }
    ensures refused { All (IsRefusedToo rows.now.papers.now (marked_in rows.now.papers.now marks.now.flags)
        (labels_of rows.now.papers.now ledgers.now) turn (student_at rows.now.papers.now turn)) (take result segment.now) }
{
    for (rank, entry) in segment.iter().enumerate() {
        if !is_refused_too(rows, ledgers, marks, turn, rank, entry) {
            return rank;
        }
    }
    segment.len()
}

/// Whether the school at which a turn ended is marked, if it ended at one.
fn is_marked(marks: &Marks, end: Option<usize>) -> bool
    ensures { IfSome end (λ place. result ≡ get_or marks.now.flags place false) }
{
    match end {
        Some(place) => marks.has(place),
        None => false,
    }
}

/// Whether a turn is as it was, which ended there: its student is not amended, the schools that refused them at once do so still, its
/// segment names no marked school after that, and it ended at none.
fn is_still(
    rows: &Rows<'_>,
    ledgers: &[Ledger],
    marks: &Marks,
    turn: u32,
    segment: &[Rejection],
    end: Option<usize>,
) -> bool
    requires within { turn < length rows.now.papers.now.students }
    requires one_each { length ledgers.now ≡ length rows.now.papers.now.schools }
    ensures beside { result ≡ true → is_amended rows.now.amended (student_at rows.now.papers.now turn) ≡ false }
    ensures made_too { result ≡ true → (p : ℕ) × All (IsRefusedToo rows.now.papers.now (marked_in rows.now.papers.now marks.now.flags)
        (labels_of rows.now.papers.now ledgers.now) turn (student_at rows.now.papers.now turn)) (take p segment.now)
        × All (λ e. marked_in rows.now.papers.now marks.now.flags e.school ≡ false) (drop p segment.now) }
    ensures unended { result ≡ true → IfSome end (λ place. get_or marks.now.flags place false ≡ false) }
{
    let Some(student) = rows.papers.student_at(turn as usize) else {
        unreachable!()
    };
    if rows.amended == Some(student) {
        return false;
    }
    let refused = refusals_too(rows, ledgers, marks, turn, segment);
    if marks.have_any(rows.papers, &segment[refused..]) {
        return false;
    }
    !is_marked(marks, end)
}

/// Takes one turn, of which these rejections came in the old run and which ended there: it stays as it was, or is taken anew, and the marks
/// follow. The answer is whether it was taken anew; its rejections are then those of the chain. After a refused growth all is to be given up.
pub(crate) fn take_turn(
    rows: &Rows<'_>,
    ledgers: &mut Vec<Ledger>,
    stances: &mut Stances,
    marks: &mut Marks,
    turn: u32,
    old: &[Rejection],
    end: Option<usize>,
    chain: &mut Vec<Rejection>,
) -> Result<bool, AllocError>
    requires one_each { length ledgers.old.items ≡ length rows.now.papers.now.schools }
    requires none { chain.old.items ≡ [] }
    requires flagged { length marks.old.flags ≡ length rows.now.papers.now.schools }
    requires next { (m : Cohort) × (olds : List (List Rejection)) × (news : List (List Rejection)) × (reseated : ℕ → Bool)
        × IsNext m (cohort_of rows.now) rows.now.amended rows.now.before.now reseated olds news turn old.now
        (labels_of rows.now.papers.now ledgers.old.items) stances.old marks.old }
    requires ended { NamesNone rows.now.amended (student_at rows.now.papers.now turn) old.now
        → end ≡ place_of rows.now.papers.now (end_of rows.now.papers.now (student_at rows.now.papers.now turn) old.now) }
    ensures one_each { length ledgers.new.items ≡ length rows.now.papers.now.schools }
    ensures flagged { OnOk result (length marks.new.flags ≡ length rows.now.papers.now.schools) }
    ensures inside { OnOk result ((m : Cohort) (olds news : List (List Rejection)) (reseated test inner : ℕ → Bool)
        → IsNext m (cohort_of rows.now) rows.now.amended rows.now.before.now reseated olds news turn old.now
        (labels_of rows.now.papers.now ledgers.old.items) stances.old marks.old
        → IsRegion m.papers rows.now.papers.now rows.now.amended test inner
        → test (student_at rows.now.papers.now turn) ≡ true
        → AreInRegion rows.now.papers.now test inner stances.old marks.old
        → AreInRegion rows.now.papers.now test inner stances.new marks.new) }
    ensures empty { IfOk result (λ anew. anew ≡ false → chain.new.items ≡ []) }
    ensures beside { IfOk result (λ anew. anew ≡ false → NamesNone rows.now.amended (student_at rows.now.papers.now turn) old.now) }
    ensures taken { IfOk result (λ anew. (m : Cohort) (olds news : List (List Rejection)) (reseated : ℕ → Bool)
        → IsNext m (cohort_of rows.now) rows.now.amended rows.now.before.now reseated olds news turn old.now
        (labels_of rows.now.papers.now ledgers.old.items) stances.old marks.old
        → IsTaken m (cohort_of rows.now) rows.now.amended reseated olds news turn (if anew then chain.new.items else old.now)
        (labels_of rows.now.papers.now ledgers.new.items) stances.new marks.new) }
{
    if is_still(rows, ledgers, marks, turn, old, end) {
        return Ok(false);
    }
    retake(rows, ledgers, stances, turn, old, chain)?;
    marks.follow(rows.papers, stances.as_slice())?;
    Ok(true)
}
