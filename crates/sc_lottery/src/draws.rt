ghost use Rattle.std.specs.Prelude.{◌≡◌, ℕ, List, ◌<◌, ◌^◌};
ghost use Rattle.sc_lottery.specs.Draw as lottery;
ghost use Rattle.sc_lottery.specs.Stream.{moved_to, IsStreamOf};

use crate::number::StudentNumber;
use crate::seed::Seed;
use rand_chacha::ChaCha20Rng;
use rand_core::SeedableRng;
use rand_core::utils::NextWord;
use std::marker::Model;

/// How many words are passed over rather than jumped: a jump computes four blocks of 16 words anew.
const MOST_PASSED: u128 = 48;

/// A reader of the draws under one seed. Students whose numbers are near each other share blocks of
/// the cipher, so reading the draws of rising numbers costs a few blocks for each hundred numbers.
#[derive(Drop)]
pub struct Draws {
    seed: Seed,
    // The key stream of the seed, wherever the last draw left it.
    stream: ChaCha20Rng,
}

impl Model for Draws {
    ghost use Rattle.std.specs.Prelude.{ℕ, List};
    ghost use Rattle.sc_lottery.specs.Stream.{IsStreamOf};

    ghost Value = { List ℕ };

    ghost view = { λ d. d.seed };

    ghost invariant = { λ d. IsStreamOf d.seed d.stream };
}

impl Draws {
    ghost use Rattle.std.specs.Prelude.{◌≡◌};
    ghost use Rattle.sc_lottery.specs.Draw as lottery;

    /// The draws under this seed. Nothing is computed yet.
    pub fn new(seed: Seed) -> Self
        ensures { result ≡ seed }
    {
        Draws {
            seed,
            stream: ChaCha20Rng::from_seed(seed.to_bytes()),
        }
    }

    /// The seed.
    pub fn seed(&self) -> Seed
        ensures { result ≡ self.now }
    {
        self.seed
    }

    /// The student's draw, which is that of `draw`. It takes no memory. The cost is two words of the
    /// stream where the number follows that of the draw before, and four blocks of the cipher where it
    /// lies far from it.
    pub fn draw(&mut self, student: StudentNumber) -> u64
        ensures draw { result ≡ lottery.draw self.old student }
        ensures seed { self.new ≡ self.old }
    {
        draw_from(&mut self.stream, student)
    }
}

/// Moves a key stream to the word at an index.
fn move_to(stream: &mut ChaCha20Rng, index: u128)
    requires { index < 2 ^ 68 }
    ensures { stream.new ≡ moved_to index stream.old }
{
    let here = stream.get_word_pos();
    if index < here || MOST_PASSED < index - here {
        stream.set_word_pos(index);
        return;
    }
    for _passed in here..index {
        let _ = stream.next_word();
    }
}

/// A student's draw from the key stream of a seed, wherever the stream stands.
fn draw_from(stream: &mut ChaCha20Rng, student: StudentNumber) -> u64
    ensures draw { (seed : List ℕ) → IsStreamOf seed stream.old → result ≡ lottery.draw seed student }
    ensures stream { (seed : List ℕ) → IsStreamOf seed stream.old → IsStreamOf seed stream.new }
{
    move_to(stream, u128::from(student.get()) * 2);
    let upper = u64::from(stream.next_word());
    let lower = u64::from(stream.next_word());
    upper * (1 << 32) + lower
}

/// The student's draw: 64 bits of the ChaCha20 key stream under the seed (RFC 8439's block function,
/// with a 64-bit counter and a 64-bit stream number, which is 0).
///
/// Student n has the words at indices 2n and 2n + 1, the first of them as the greater half. It takes
/// no memory. The cost is four blocks of the cipher, so a caller that needs a draw twice keeps it, and
/// one that needs many reads them from one `Draws`.
pub fn draw(seed: &Seed, student: StudentNumber) -> u64
    ensures { result ≡ lottery.draw seed.now student }
{
    Draws::new(*seed).draw(student)
}
