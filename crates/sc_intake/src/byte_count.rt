//! How often a byte stands in a text.

ghost use Rattle.std.specs.Prelude.{◌≡◌, ◌≤◌, ◌==◌, length};
ghost use Rattle.std.specs.List.{count_by};

/// How many of at most 255 bytes are this one.
fn count_in_run(byte: u8, run: &[u8]) -> u8
    requires { length run.now ≤ 255 }
    ensures { result ≡ count_by (λ c. c == byte) run.now }
{
    let mut count = 0;
    for other in run {
        count += u8::from(*other == byte);
    }
    count
}

/// How often a byte stands in a text. Each run of 255 bytes is counted in one byte, since a processor adds more bytes
/// at once than numbers of 64 bits.
pub(crate) fn count_of(byte: u8, text: &[u8]) -> usize
    ensures { result ≡ count_by (λ c. c == byte) text.now }
{
    let mut count = 0;
    for run in text.chunks(255) {
        count += usize::from(count_in_run(byte, run));
    }
    count
}
