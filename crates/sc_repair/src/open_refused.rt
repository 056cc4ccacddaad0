use sc_papers::Papers;
use std::fmt;
use thiserror::Error;

/// The papers of a clearing that could not be opened for want of memory, as they were.
#[derive(Drop, Error)]
#[error("out of memory")]
pub struct OpenRefused {
    pub papers: Papers,
}

impl fmt::Debug for OpenRefused {
    /// Names the refusal; the papers are not shown.
    fn fmt<W: fmt::Write>(&self, f: &mut fmt::Formatter<W>) -> fmt::Result {
        f.write_str("OpenRefused")
    }
}
