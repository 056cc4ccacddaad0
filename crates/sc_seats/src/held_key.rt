ghost use Rattle.std.specs.Prelude.{◌≡◌, ◌+◌, ◌*◌, ◌==◌, ◌&&◌, ◌/◌, ◌%◌, ◌<◌};
ghost use Rattle.std.proofs.Common.{rules};
ghost use Rattle.std.specs.Cmp.{partial_order_from_own_ties};
ghost use Rattle.std.specs.Cmp.Rules.{comparing};
ghost use Rattle.std.specs.Ordering.{as_partial_cmp, nat_cmp, on, then_cmp};
ghost use Rattle.sc_papers.specs.Key.{is_before};
ghost use Rattle.sc_papers.specs.declared.key.Key.{Key as Priority};
ghost use Rattle.sc_seats.specs.declared.held_key.TheConstants.{GUESSES, HEADS, TAILS};

use sc_papers::{Key, MOST_STUDENTS, StudentNo};
use std::cmp::Ordering;
use std::marker::Model;

/// How many guesses there are: enough for each student.
const GUESSES: u32 = 0x100_0000;

/// How many last bytes a draw may have.
const TAILS: u64 = 0x100;

/// How many draws there are without their last byte.
const HEADS: u64 = 0x100_0000_0000_0000;

const _: () = prove!(MOST_STUDENTS <= GUESSES as usize);

/// A key as a roll holds it, with a guess at the position of the order of entry at which its student stands.
///
/// Contracts see the key alone, and nothing is promised of the guess: its reader tests it before it is used. Where it is
/// right, it spares a look-up.
#[derive(Clone, Drop)]
pub struct HeldKey {
    // The class and the draw without its last byte, in one number: two keys seldom have the same, so one comparison tells
    // which is ahead.
    head: u64,
    // The last byte of the draw, and the guess.
    tail: u32,
    student: StudentNo,
}

impl Model for HeldKey {
    ghost Value = { Priority };

    ghost view = { λ k. record { class = k.head / HEADS; student = k.student; draw = k.head % HEADS * TAILS + k.tail / GUESSES } };

    ghost invariant = { λ k. k.tail / GUESSES < TAILS };
}

impl PartialEq for HeldKey {
    ghost eq = { λ a b. a.class == b.class && (a.draw == b.draw && a.student == b.student) };

    ghost laws = { Prim.search (comparing, rules) };

    fn eq(&self, other: &HeldKey) -> bool {
        self.key() == other.key()
    }
}

impl Eq for HeldKey {
    ghost laws = { Prim.search (comparing, rules) };
}

impl Ord for HeldKey {
    ghost cmp = { then_cmp (on (λ k. k.class) nat_cmp) (then_cmp (on (λ k. k.draw) nat_cmp) (on (λ k. k.student) nat_cmp)) };

    ghost total = { Prim.search (comparing, rules) };

    ghost matches_partial_cmp = { Prim.search (comparing, rules) };

    ghost matches_eq = { Prim.search (comparing, rules) };

    fn cmp(&self, other: &HeldKey) -> Ordering {
        match self.head.cmp(&other.head) {
            Ordering::Equal => self.key().compare(&other.key()),
            order => order,
        }
    }
}

impl PartialOrd for HeldKey {
    ghost partial_cmp = { as_partial_cmp (then_cmp (on (λ k. k.class) nat_cmp) (then_cmp (on (λ k. k.draw) nat_cmp) (on (λ k. k.student) nat_cmp))) };

    ghost laws = { partial_order_from_own_ties (Prim.search (comparing, rules)) (Prim.search (comparing, rules)) };

    fn partial_cmp(&self, other: &HeldKey) -> Option<Ordering> {
        Some(self.cmp(other))
    }
}

impl HeldKey {
    /// The key, to be held, of a student who may stand at the guess.
    pub fn of(key: Key, guess: usize) -> Self
        ensures { result ≡ key }
    {
        HeldKey {
            head: u64::from(key.class) * HEADS + key.draw / TAILS,
            tail: (key.draw % TAILS) as u32 * GUESSES + (guess % GUESSES as usize) as u32,
            student: key.student,
        }
    }

    /// The key that is held.
    pub fn key(&self) -> Key
        ensures { result ≡ self.now }
    {
        Key {
            class: (self.head / HEADS) as u8,
            student: self.student,
            draw: self.head % HEADS * TAILS + u64::from(self.tail / GUESSES),
        }
    }

    /// The same key with the same guess.
    pub(crate) fn copy(&self) -> Self
        ensures { result ≡ self.now }
    {
        HeldKey {
            head: self.head,
            tail: self.tail,
            student: self.student,
        }
    }

    /// Whether this key is ahead of the other one. This is `<`.
    pub(crate) fn is_ahead_of(&self, other: &HeldKey) -> bool
        ensures { result ≡ is_before self.now other.now }
    {
        self < other
    }

    /// The position at which the student may stand: any number, also none of a position, which its reader tests.
    pub fn guess(&self) -> usize {
        (self.tail % GUESSES) as usize
    }
}
