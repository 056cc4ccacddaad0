ghost use Rattle.std.specs.Prelude.{◌≡◌};
ghost use Rattle.std.proofs.Common.{rules};
ghost use Rattle.std.specs.Cmp.{partial_order_from_own_ties};
ghost use Rattle.std.specs.Cmp.Rules.{comparing};
ghost use Rattle.std.specs.Ordering.{as_partial_cmp, nat_cmp, on, ordering_then, then_cmp};
ghost use Rattle.sc_papers.specs.Key.{is_before, key_cmp};

use sc_lottery::StudentNumber;
use std::cmp::Ordering;

/// A student's key at a school: priority class, draw and number, compared in that order. The
/// smaller key is ahead.
#[derive(Clone, Copy, Debug, PartialEq, Eq, Hash)]
pub struct Key {
    // Fields are laid out in this order, which fills 16 bytes.
    /// From 0, the best.
    pub class: u8,
    /// The student's number, which settles equal draws.
    pub student: StudentNumber,
    /// The lottery's draw, the same at every school.
    pub draw: u64,
}

/// Compares keys of one class.
fn compare_draws(one: &Key, other: &Key) -> Ordering
    ensures { result ≡ ordering_then (nat_cmp one.now.draw other.now.draw) (nat_cmp one.now.student other.now.student) }
{
    match one.draw.cmp(&other.draw) {
        Ordering::Equal => one.student.cmp(&other.student),
        order => order,
    }
}

impl Ord for Key {
    ghost cmp = { then_cmp (on (λ k. k.class) nat_cmp) (then_cmp (on (λ k. k.draw) nat_cmp) (on (λ k. k.student) nat_cmp)) };

    ghost total = { Prim.search (comparing, rules) };

    ghost matches_partial_cmp = { Prim.search (comparing, rules) };

    ghost matches_eq = { Prim.search (comparing, rules) };

    fn cmp(&self, other: &Key) -> Ordering {
        match self.class.cmp(&other.class) {
            Ordering::Equal => compare_draws(self, other),
            order => order,
        }
    }
}

impl PartialOrd for Key {
    ghost partial_cmp = { as_partial_cmp (then_cmp (on (λ k. k.class) nat_cmp) (then_cmp (on (λ k. k.draw) nat_cmp) (on (λ k. k.student) nat_cmp))) };

    ghost laws = { partial_order_from_own_ties (Prim.search (comparing, rules)) (Prim.search (comparing, rules)) };

    fn partial_cmp(&self, other: &Key) -> Option<Ordering> {
        Some(self.cmp(other))
    }
}

impl Key {
    ghost use Rattle.std.specs.Prelude.{◌≡◌};
    ghost use Rattle.sc_papers.specs.Key.{is_before, key_cmp};

    /// Whether this key is ahead of the other one. This is `<`.
    pub fn is_ahead_of(&self, other: &Key) -> bool
        ensures { result ≡ is_before self.now other.now }
    {
        self < other
    }

    /// How this key stands to the other one: `Less` where it is ahead. This is `cmp`.
    pub fn compare(&self, other: &Key) -> Ordering
        ensures { result ≡ key_cmp self.now other.now }
    {
        self.cmp(other)
    }
}
