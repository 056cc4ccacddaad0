/// A set of ranks in a list, each counted from 0 and below 32.
#[derive(Clone, Copy)]
pub(crate) struct RankSet {
    // The rank k is in the set where the bit k is 1.
    bits: u32,
}

impl RankSet {
    ghost use Rattle.std.specs.Prelude.{◌≡◌, ℕ, ◌<◌, ◌==◌, ◌||◌, false};
    ghost use Rattle.sc_checkpoint.specs.Ranks.{has_rank, IsFirstOutside};

    /// No ranks.
    #[tactic(auto, unfolding(crate::specs::Ranks::has_rank))]
    pub(crate) fn new() -> Self
        ensures { (rank : ℕ) → has_rank result rank ≡ false }
    {
        RankSet { bits: 0 }
    }

    /// The first rank that is not in the set, or 32 where each is.
    #[tactic(auto, using(crate::proofs::Bits::first_clear))]
    pub(crate) fn first_outside(self) -> usize
        ensures { IsFirstOutside self result }
    {
        prove!(self.bits <= u32::MAX);
        self.bits.trailing_ones() as usize
    }

    /// The set with one more rank.
    #[tactic(auto, unfolding(crate::specs::Ranks::has_rank), using(crate::proofs::Bits::set_bit))]
    pub(crate) fn with(self, rank: usize) -> Self
        requires { rank < 32 }
        ensures { (other : ℕ) → has_rank result other ≡ (has_rank self other || other == rank) }
    {
        RankSet {
            bits: self.bits | 1 << rank,
        }
    }
}
