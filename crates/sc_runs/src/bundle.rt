//! A bundle and its sections.
ghost use Rattle.std.specs.Prelude.{◌≡◌};
ghost use Rattle.std.specs.Option.{option_map};
ghost use Rattle.sc_runs.specs.Bundle.{bundle_of, sections_of};

use crate::markers::{after_marker, cut_at};
use sc_intake::{Blanks, trimmed};

/// The sections of a bundle, each a part of the text that was split.
#[derive(Clone, Copy, Debug, PartialEq, Eq)]
pub struct Bundle<'a> {
    /// The seed, without the spaces, tabs and line ends around it.
    pub seed: &'a [u8],
    /// The schools file.
    pub schools: &'a [u8],
    /// The roster file.
    pub roster: &'a [u8],
    /// The lists file.
    pub lists: &'a [u8],
    /// The script, where the bundle has one.
    pub script: Option<&'a [u8]>,
}

/// Splits a bundle at its marker lines `%seed`, `%schools`, `%roster`, `%lists` and `%script`, which
/// stand in this order; the last may be missing.
///
/// The first line is `%seed`. A line that equals the next marker begins its section, and any other
/// line belongs to the section that it stands in. A line ends at an LF or at the end of the input, and
/// a CR right before that LF is no part of it. It answers `None` where the first line is another, or
/// one of the next three markers is missing. It takes no memory, and time linear in the input.
pub fn split_bundle(input: &[u8]) -> Option<Bundle<'_>>
    ensures { option_map sections_of result ≡ bundle_of input.now }
{
    let first = after_marker(input, b"%seed")?;
    let seed = cut_at(first, b"%schools")?;
    let schools = cut_at(seed.after, b"%roster")?;
    let roster = cut_at(schools.after, b"%lists")?;
    let (lists, script) = match cut_at(roster.after, b"%script") {
        Some(lists) => (lists.before, Some(lists.after)),
        None => (roster.after, None),
    };
    Some(Bundle {
        seed: trimmed(seed.before, Blanks::WithLineEnds),
        schools: schools.before,
        roster: roster.before,
        lists,
        script,
    })
}
