ghost use Rattle.std.specs.Prelude.{◌≡◌, ℕ, List};

use std::convert::AsStr;
use std::marker::Model;

/// A word of the command line, seen as its text.
#[derive(Drop)]
pub struct Word {
    text: String,
}

impl Model for Word {
    ghost Value = { List ℕ };

    ghost view = { λ w. w.text.bytes.items };
}

impl Word {
    /// The word of this text. It takes no memory.
    pub fn from_text(text: String) -> Word
        ensures { result ≡ text.bytes.items }
    {
        Word { text }
    }

    /// The word's text. It takes no memory.
    pub fn as_str(&self) -> &str
        ensures { result.now ≡ self.now }
    {
        self.text.as_str()
    }
}

impl AsStr for Word {
    ghost text = { λ w. w };

    fn as_str(&self) -> &str {
        self.as_str()
    }
}
