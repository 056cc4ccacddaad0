ghost use Rattle.std.specs.Prelude.{◌≡◌};
ghost use Rattle.sc_papers.specs.NumberHash.{finished, near, seeded, written};

use sc_lottery::Seed;
use std::hash::{BuildHasher, FoldHasher, Hasher};

/// Hashes numbers so that those that differ in their low byte alone come near each other, two of them in one group of a
/// table and the next two in the next: so numbers that come in order are put into memory that is at hand. Numbers that
/// differ in another byte lie as far apart as the mixing has it.
#[derive(Clone, Copy)]
pub(crate) struct NumberHasher {
    // The seed and all bytes but the low one.
    mixed: FoldHasher,
    low: u8,
}

/// A hash of 32 bits. A table takes the group from its lower bits and the tag of an entry from the upper 8: the low byte
/// moves the group by its half and the tag by itself, so that no two numbers near each other share both.
#[tactic(auto, unfolding(crate::specs::NumberHash::near))]
fn near(mixed: u64, low: u8) -> u64
    ensures { result ≡ near mixed low }
{
    let low = u64::from(low);
    let tag = (mixed / 0x100_0000 % 0x100 + low) % 0x100;
    let group = (mixed % 0x100_0000 + low / 2) % 0x100_0000;
    tag * 0x100_0000 + group
}

impl Hasher for NumberHasher {
    ghost use Rattle.sc_papers.specs.NumberHash.{finished, written};

    ghost write = { written };

    ghost finish = { finished };

    #[tactic(auto, unfolding(crate::specs::NumberHash::finished))]
    fn finish(&self) -> u64 {
        near(self.mixed.finish(), self.low)
    }

    #[tactic(auto, unfolding(crate::specs::NumberHash::written))]
    fn write(&mut self, bytes: &[u8]) {
        if let [low, rest @ ..] = bytes {
            self.low = *low;
            self.mixed.write(rest);
        }
    }
}

/// Hashes numbers under the seed of the lottery. Whoever chooses numbers before the seed is drawn does
/// not know which of them share a hash.
#[derive(Clone, Copy)]
pub(crate) struct SeededHash {
    // The state after the seed was written, from which each number goes on.
    seeded: NumberHasher,
}

impl SeededHash {
    /// Under no seed: for numbers that nobody chose to share a hash.
    pub(crate) fn unseeded() -> Self {
        SeededHash::of(FoldHasher::default())
    }

    /// Under a seed: each number goes on from the state into which the seed's bytes were written.
    pub(crate) fn new(seed: Seed) -> Self
        ensures { result ≡ record { seeded = seeded seed } }
    {
        let mut mixed = FoldHasher::default();
        mixed.write(&seed.to_bytes());
        SeededHash::of(mixed)
    }

    /// From a state on.
    fn of(mixed: FoldHasher) -> Self
        ensures { result ≡ record { seeded = record { mixed = mixed; low = 0 } } }
    {
        SeededHash {
            seeded: NumberHasher { mixed, low: 0 },
        }
    }
}

impl BuildHasher for SeededHash {
    type Hasher = NumberHasher;

    ghost build_hasher = { λ s. s.seeded };

    fn build_hasher(&self) -> NumberHasher {
        self.seeded
    }
}
