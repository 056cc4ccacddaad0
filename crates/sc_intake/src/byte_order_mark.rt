//! The byte order mark that a text may begin with.

ghost use Rattle.std.specs.Prelude.{◌≡◌};
ghost use Rattle.csv.specs.Reading.{strip_bom};
ghost use Rattle.sc_intake.specs.File.{is_marked};

/// Whether a text begins with the byte order mark of UTF-8.
pub(crate) fn is_marked(text: &[u8]) -> bool
    ensures { result ≡ is_marked text.now }
{
    match text {
        [a, b, c, ..] => *a == 0xEF && *b == 0xBB && *c == 0xBF,
        _ => false,
    }
}

/// The text without the byte order mark that it may begin with.
#[tactic(auto, unfolding(csv::specs::Reading::strip_bom))]
pub(crate) fn without_mark(text: &[u8]) -> &[u8]
    ensures { result.now ≡ strip_bom text.now }
{
    if is_marked(text) { &text[3..] } else { text }
}
