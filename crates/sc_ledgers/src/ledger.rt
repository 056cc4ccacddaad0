ghost use Rattle.std.specs.Prelude.{◌≡◌, ℕ, ◌+◌, ◌<◌, ◌≤◌, All, None, length, take, get_or, IfErr, IfOk, IfSome};
ghost use Rattle.sc_ledgers.specs.Known.{labels_with, up_to, AreInOrder, AreKept, HasEachKey, IsByKey, IsGapIn};
ghost use Rattle.sc_ledgers.specs.Left.{kept_without};
ghost use Rattle.sc_ledgers.specs.declared.ledger.TheConstants.{BLOCK, NEVER};

use sc_papers::Key;
use std::alloc::{AllocError, Global};
use std::marker::Model;

/// Who asked a school, and at which turn.
#[derive(Clone, Copy, Debug, PartialEq, Eq)]
pub struct Label {
    pub key: Key,
    pub turn: u32,
}

/// The turn of a label that was struck: it is behind every turn.
pub(crate) const NEVER: u32 = u32::MAX;

/// How many turns are counted in one go, without a look at each whether it is the last.
const BLOCK: usize = 64;

/// The turn of a label once the student at a position has left the papers: one behind theirs goes down by one.
fn turn_without(turn: u32, position: u32) -> u32
    ensures { result ≡ kept_without position turn }
{
    if turn > position && turn < NEVER {
        turn - 1
    } else {
        turn
    }
}

/// How many of these turns are up to one.
fn count_to(turns: &[u32], turn: u32) -> u32
    requires few { length turns.now ≤ BLOCK }
    ensures { result ≡ up_to turn turns.now }
{
    let mut count = 0_u32;
    for other in turns {
        count += u32::from(*other <= turn);
    }
    count
}

/// Where the block begins in which the last of so many turns up to one may stand, and how many up to it stand before.
fn block_of(turns: &[u32], seats: usize, turn: u32) -> (usize, usize)
    requires { 0 < seats }
    ensures within { result.0 ≤ length turns.now }
    ensures before { result.1 ≡ up_to turn (take result.0 turns.now) }
    ensures fewer { result.1 < seats }
{
    let mut at = 0_usize;
    let mut count = 0_usize;
    while turns.len() - at > BLOCK {
        let here = count_to(&turns[at..at + BLOCK], turn) as usize;
        if seats - count <= here {
            break;
        }
        count += here;
        at += BLOCK;
    }
    (at, count)
}

/// Where the last of those stands whom a school of so many seats holds, of those who asked it up to a turn; `None` where
/// it has room. The turns are those of all who asked, the best first.
fn last_held(turns: &[u32], seats: usize, turn: u32) -> Option<usize>
    requires { 0 < seats }
    ensures within { IfSome result (λ at. at < length turns.now) }
    ensures held { IfSome result (λ at. up_to turn (take at turns.now) + 1 ≡ seats) }
    ensures asked { IfSome result (λ at. (d : ℕ) → get_or turns.now at d ≤ turn) }
    ensures room { result ≡ None → up_to turn turns.now < seats }
{
    let (from, before) = block_of(turns, seats, turn);
    let mut count = before;
    for (at, other) in turns[from..].iter().enumerate() {
        if *other <= turn {
            count += 1;
            if count == seats {
                return Some(from + at);
            }
        }
    }
    None
}

/// What a school answers to whoever asks it.
#[derive(Clone, Copy, Debug, PartialEq, Eq)]
pub enum Answer {
    /// It is full of others who are ahead.
    Refused,
    /// It has room.
    Seated,
    /// It takes them in the place of the last one, whose key this is.
    PutsOut(Key),
}

/// Where the key stands among others, or where it would.
fn place_of(keys: &[Key], key: &Key) -> Result<usize, usize>
    requires { AreInOrder keys.now }
    ensures found { IfOk result (λ at. (at < length keys.now) × ((d : Key) → get_or keys.now at d ≡ key.now)) }
    ensures absent { IfErr result (IsGapIn keys.now key.now) }
{
    keys.binary_search(key)
}

/// These labels by their keys: of those of one key, one is kept. It takes no memory. The cost is a sort.
fn by_key(mut labels: Vec<Label>) -> Vec<Label>
    ensures sorted { IsByKey result.items }
    ensures kept { HasEachKey labels.items result.items }
{
    labels.sort_unstable_by_key(|label| label.key);
    labels.dedup_by_key(|label| label.key);
    labels
}

/// The labels of those who ever asked a school and were not refused at once, the best first.
#[derive(Drop)]
pub struct Ledger {
    keys: Vec<Key>,
    // That of each key; `NEVER` where the label was struck. So a label that comes again finds its place.
    turns: Vec<u32>,
}

impl Model for Ledger {
    ghost use Rattle.std.specs.Prelude.{List};
    ghost use Rattle.sc_ledgers.specs.Known.{labels_with, AreKept};
    ghost use Rattle.sc_ledgers.specs.declared.ledger.Label.{Label};

    ghost Value = { List Label };

    ghost view = { λ l. labels_with l.keys.items l.turns.items };

    ghost invariant = { λ l. AreKept l.keys.items l.turns.items };
}

impl Ledger {
    ghost use Rattle.std.specs.Prelude.{◌≡◌, ◌⊎◌, ◌<◌, [], All, Contains, IfOk, OnOk, OnErr, map};
    ghost use Rattle.sc_ledgers.specs.Known.{HasEachKey, IsAnswer, IsByKey};
    ghost use Rattle.sc_ledgers.specs.Left.{label_without};
    ghost use Rattle.sc_ledgers.specs.declared.ledger.Label.{Label};
    ghost use Rattle.sc_ledgers.specs.declared.ledger.TheConstants.{NEVER};

    /// A ledger of a school that nobody asked. It takes no memory.
    pub fn new(alloc: Global) -> Self
        ensures { result ≡ [] }
    {
        Ledger {
            keys: Vec::new(alloc),
            turns: Vec::new(alloc),
        }
    }

    /// How many places for labels it has, those of struck ones too. A count for whoever weighs what a question costs: no clause
    /// says anything of it.
    pub(crate) fn len(&self) -> usize {
        self.turns.len()
    }

    /// The ledger of labels that come in any order: of those of one key, one is kept. The only error is a refused growth. The cost is
    /// a sort.
    pub(crate) fn of(alloc: Global, labels: Vec<Label>) -> Result<Self, AllocError>
        requires turns { All (λ label. label.turn < NEVER) labels.items }
        ensures { IfOk result (HasEachKey labels.items) }
    {
        let sorted = by_key(labels);
        let mut keys = Vec::with_capacity(alloc, sorted.len())?;
        let mut turns = Vec::with_capacity(alloc, sorted.len())?;
        for label in sorted.iter() {
            keys.push(label.key)?;
            turns.push(label.turn)?;
        }
        Ok(Ledger { keys, turns })
    }

    /// Notes that the student of the key asked at this turn, and at no other one. A refused growth changes nothing.
    pub(crate) fn note(&mut self, key: Key, turn: u32) -> Result<(), AllocError>
        requires { turn < NEVER }
        ensures there { OnOk result (Contains self.new (record { key = key; turn = turn })) }
        ensures kept { OnOk result ((label : Label) → Contains self.old label → (label.key ≡ key → ⊥) → Contains self.new label) }
        ensures only { OnOk result ((label : Label) → Contains self.new label
            → Contains self.old label ⊎ (label ≡ record { key = key; turn = turn })) }
        ensures unchanged { OnErr result (self.new ≡ self.old) }
    {
        match place_of(self.keys.as_slice(), &key) {
            Ok(at) => self.turns[at] = turn,
            Err(at) => {
                self.turns.reserve(1)?;
                self.keys.insert(at, key)?;
                // There is room, which was taken before.
                if self.turns.insert(at, turn).is_err() {
                    unreachable!()
                }
            }
        }
        Ok(())
    }

    /// Strikes the label of the key, if there is one. It takes no memory.
    pub(crate) fn strike(&mut self, key: &Key)
        ensures kept { (label : Label) → Contains self.old label → (label.key ≡ key.now → ⊥) → Contains self.new label }
        ensures only { (label : Label) → Contains self.new label → Contains self.old label × (label.key ≡ key.now → ⊥) }
    {
        if let Ok(at) = place_of(self.keys.as_slice(), key) {
            let _ = self.keys.remove(at);
            let _ = self.turns.remove(at);
        }
    }

    /// Strikes the label of the key, if there is one and it is of this turn. Its place stays for when the key comes again. It takes no
    /// memory.
    pub(crate) fn strike_of(&mut self, key: &Key, turn: u32)
        ensures kept { (label : Label) → Contains self.old label → (label.key ≡ key.now → label.turn ≡ turn → ⊥)
            → Contains self.new label }
        ensures only { (label : Label) → Contains self.new label
            → Contains self.old label × (label.key ≡ key.now → label.turn ≡ turn → ⊥) }
    {
        if let Ok(at) = place_of(self.keys.as_slice(), key) {
            if self.turns[at] == turn {
                self.turns[at] = NEVER;
            }
        }
    }

    /// The turns behind a position go down by one, as the student there has left the papers. It takes no memory.
    pub(crate) fn leave(&mut self, position: u32)
        ensures { self.new ≡ map (label_without position) self.old }
    {
        for turn in self.turns.iter_mut() {
            *turn = turn_without(*turn, position);
        }
    }

    /// What a school of so many seats answers to a key, by whoever asked it up to this turn. It takes no memory.
    pub(crate) fn ask(&self, seats: usize, turn: u32, key: &Key) -> Answer
        requires { turn < NEVER }
        ensures answer { IsAnswer turn self.now seats key.now result }
        ensures by_key { IsByKey self.now }
    {
        let turns = self.turns.as_slice();
        if seats == 0 {
            return Answer::Refused;
        }
        let Some(at) = last_held(turns, seats, turn) else {
            return Answer::Seated;
        };
        let last = self.keys[at];
        if key.is_ahead_of(&last) {
            Answer::PutsOut(last)
        } else {
            Answer::Refused
        }
    }
}
