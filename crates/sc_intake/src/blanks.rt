//! A text without the blanks at its two ends.

ghost use Rattle.std.specs.Prelude.{◌≡◌};
ghost use Rattle.sc_intake.specs.Blanks.{is_blank, trimmed, trim_end, trim_start};

/// The bytes that are left off at the two ends of a text.
#[derive(Clone, Copy, Debug, PartialEq, Eq)]
pub enum Blanks {
    /// Space and tab: the blanks around a field, which stands within a line.
    InLine,
    /// Space, tab, CR and LF: the blanks around a text of several lines.
    WithLineEnds,
}

fn is_blank(blanks: Blanks, byte: u8) -> bool
    ensures { result ≡ is_blank blanks byte }
{
    match blanks {
        Blanks::InLine => byte == b' ' || byte == b'\t',
        Blanks::WithLineEnds => byte == b' ' || byte == b'\t' || byte == b'\r' || byte == b'\n',
    }
}

/// The text from its first byte that is no blank.
fn trim_start(text: &[u8], blanks: Blanks) -> &[u8]
    ensures { result.now ≡ trim_start (is_blank blanks) text.now }
{
    for start in 0..text.len() {
        if !is_blank(blanks, text[start]) {
            return &text[start..];
        }
    }
    &[]
}

/// The text up to its last byte that is no blank.
fn trim_end(text: &[u8], blanks: Blanks) -> &[u8]
    ensures { result.now ≡ trim_end (is_blank blanks) text.now }
{
    let mut end = text.len();
    'back: while end > 0 {
        if !is_blank(blanks, text[end - 1]) {
            return &text[..end];
        }
        end -= 1;
    }
    &[]
}

/// The text without the blanks at its two ends, a part of the text given, in time linear in the
/// number of the blanks. A text of blanks alone gives the empty text.
pub fn trimmed(text: &[u8], blanks: Blanks) -> &[u8]
    ensures { result.now ≡ trimmed blanks text.now }
{
    trim_end(trim_start(text, blanks), blanks)
}
