//! The labels of a whole run, turn by turn.

ghost use Rattle.std.specs.Prelude.{◌≡◌, ◌<◌, ◌==◌, ◌+◌, ◌++◌, ◌∷◌, ℕ, [], Contains, OnOk, Some, length, slice_get, true};
ghost use Rattle.sc_papers.specs.Market.{choices_of, student_at};
ghost use Rattle.sc_papers.specs.declared.rejection.Rejection.{Rejection};
ghost use Rattle.sc_ledgers.specs.Course.{labels_of};
ghost use Rattle.sc_papers.specs.Restriction.{IsSegmented};
ghost use Rattle.sc_papers.specs.WellFormed.{WellFormed};
ghost use Rattle.sc_checkpoint.specs.Chains.{logs_in};
ghost use Rattle.sc_ledgers.specs.Cohort.{cohort};
ghost use Rattle.sc_ledgers.specs.Ends.{AreEnds};
ghost use Rattle.sc_ledgers.specs.Known.{HasEachKey};
ghost use Rattle.sc_ledgers.specs.Opening.{everybody, AreNoted, IsNotedAt};
ghost use Rattle.sc_ledgers.specs.Whole.{AreWhole};
ghost use Rattle.sc_ledgers.specs.declared.ledger.Label.{Label};

use crate::chain::{Hand, hand_after};
use crate::ends::Ends;
use crate::ledger::{Label, Ledger};
use crate::passage::turn_at;
use crate::proposals::end_place;
use sc_checkpoint::Segments;
use sc_papers::{FlatPapers, Rejection};
use std::alloc::{AllocError, Global};
use std::marker::Model;
use std::mem::replace;

/// The labels of one school, in the order in which they came.
#[derive(Drop)]
pub struct Labels {
    list: Vec<Label>,
}

impl Model for Labels {
    ghost use Rattle.std.specs.Prelude.{List};
    ghost use Rattle.sc_ledgers.specs.declared.ledger.Label.{Label};

    ghost Value = { List Label };

    ghost view = { λ l. l.list.items };
}

impl Labels {
    ghost use Rattle.std.specs.Prelude.{All, IfOk, ◌<◌};
    ghost use Rattle.sc_ledgers.specs.declared.ledger.TheConstants.{NEVER};
    /// None. It takes no memory.
    pub(crate) fn new(alloc: Global) -> Self
        ensures { result ≡ [] }
    {
        Labels {
            list: Vec::new(alloc),
        }
    }

    /// One label more. A refused growth changes nothing.
    fn push(&mut self, label: Label) -> Result<(), AllocError>
        ensures { OnOk result (self.new ≡ self.old ++ label ∷ []) }
    {
        self.list.push(label)?;
        Ok(())
    }

    /// The ledger of these labels, which are then gone. The only error is a refused growth. The cost is a sort.
    pub(crate) fn take_ledger(&mut self, alloc: Global) -> Result<Ledger, AllocError>
        requires turns { All (λ label. label.turn < NEVER) self.old }
        ensures { IfOk result (HasEachKey self.old) }
    {
        Ledger::of(alloc, replace(&mut self.list, Vec::new(alloc)))
    }
}

/// Whether a rejection stands at a place of a segment.
fn is_at(segment: &[Rejection], at: usize, rejection: Rejection) -> bool
    ensures { result ≡ true → Contains segment.now rejection }
{
    match segment.get(at) {
        Some(entry) => *entry == rejection,
        None => false,
    }
}

/// Notes that a student asks the choice at a rank in a turn, if they have one there; what came of it stands at a place of the turn's
/// segment. Whoever is refused at once never came to stand there, and is not noted.
fn note_choice(
    papers: &FlatPapers,
    lists: &mut Vec<Labels>,
    turn: u32,
    hand: Hand,
    segment: &[Rejection],
    next: usize,
) -> Result<(), AllocError>
    requires within { hand.position < length papers.now.students }
    requires one_each { length lists.old.items ≡ length papers.now.schools }
    ensures one_each { length lists.new.items ≡ length papers.now.schools }
    ensures noted { OnOk result (IsNotedAt papers.now turn (student_at papers.now hand.position)
        (slice_get (choices_of papers.now (student_at papers.now hand.position)) hand.rank) segment.now
        (labels_of papers.now lists.old.items) (labels_of papers.now lists.new.items)) }
{
    let Some(proposal) = papers.proposal(hand.position, hand.rank) else {
        return Ok(());
    };
    let key = proposal.key;
    let student = key.student;
    let school = proposal.school;
    if is_at(segment, next, Rejection { student, school }) {
        return Ok(());
    }
    lists[proposal.position].push(Label { key, turn })?;
    Ok(())
}

/// Notes who asks where in a turn, in which the student at a position enters and of which these rejections came.
pub fn note_turn(
    papers: &FlatPapers,
    lists: &mut Vec<Labels>,
    turn: u32,
    position: usize,
    segment: &[Rejection],
) -> Result<(), AllocError>
    requires within { position < length papers.now.students }
    requires one_each { length lists.old.items ≡ length papers.now.schools }
    requires listed { (e : Rejection) → Contains segment.now e → Contains (choices_of papers.now e.student) e.school }
    ensures one_each { length lists.new.items ≡ length papers.now.schools }
    ensures noted { OnOk result (AreNoted papers.now turn (student_at papers.now position) segment.now segment.now
        (labels_of papers.now lists.old.items) (labels_of papers.now lists.new.items)) }
{
    let rank = 0;
    note_choice(papers, lists, turn, Hand { position, rank }, segment, 0)?;
    for (at, entry) in segment.iter().enumerate() {
        let hand = hand_after(papers, entry);
        note_choice(papers, lists, turn, hand, segment, at + 1)?;
    }
    Ok(())
}

/// Notes who asks where in each turn of a whole run, of which these are the segments, and where it ends. The lists are empty before it.
pub fn note_all(
    papers: &FlatPapers,
    lists: &mut Vec<Labels>,
    ends: &mut Ends,
    segments: &Segments,
) -> Result<(), AllocError>
    requires well { WellFormed papers.now }
    requires run { IsSegmented papers.now (logs_in segments.now) }
    requires one_each { length lists.old.items ≡ length papers.now.schools }
    requires empty { (s : ℕ) (label : Label) → Contains (labels_of papers.now lists.old.items s) label → ⊥ }
    requires none { ends.old ≡ [] }
    ensures one_each { length lists.new.items ≡ length papers.now.schools }
    ensures whole { OnOk result (AreWhole (cohort papers.now everybody) (logs_in segments.now)
        (labels_of papers.now lists.new.items)) }
    ensures ends { OnOk result (AreEnds papers.now (logs_in segments.now) ends.new) }
{
    for position in 0..segments.len() {
        let segment = segments.segment(position);
        let turn = turn_at(papers, position);
        note_turn(papers, lists, turn, position, segment)?;
        ends.push(end_place(papers, position, segment))?;
    }
    Ok(())
}
