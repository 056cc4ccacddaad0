//! Texts that are told part by part, so that a long one need not be held whole: a header, and below it what is told of one
//! student after the other, or of one school.
ghost use Rattle.std.specs.Prelude.{◌≡◌, ◌++◌, ℕ, List, [], get_or, length, OnOk};
ghost use Rattle.sc_notices.specs.Telling.{header_of, AreParts};

use crate::admissions::{self, Admissions};
use crate::changes::{self, Changes};
use crate::explanation::{self, Explanations};
use std::alloc::AllocError;

/// A text that is told part by part: what came of the choices of students, the lists of schools, or whose place differs.
pub enum TextParts<'a> {
    Explained { explanations: Explanations<'a> },
    Listed { admissions: Admissions<'a> },
    Compared { changes: Changes<'a> },
}

impl Drop for TextParts<'_> {
    fn drop(self) {
        match self {
            TextParts::Explained { explanations: _ } => {}
            TextParts::Listed { admissions: _ } => {}
            TextParts::Compared { changes: _ } => {}
        }
    }
}

impl<'a> TextParts<'a> {
    /// The line above the parts.
    pub fn header(&self) -> &'static [u8]
        ensures { result.now ≡ header_of self.now }
    {
        match self {
            TextParts::Explained { .. } => explanation::HEADER,
            TextParts::Listed { .. } => admissions::HEADER,
            TextParts::Compared { .. } => changes::HEADER,
        }
    }

    /// How many parts there are: one for each student or school, even where nothing is told of them.
    pub fn count(&self) -> usize
        ensures { (parts : List (List ℕ)) → AreParts self.now parts → result ≡ length parts }
    {
        match self {
            TextParts::Explained { explanations } => explanations.count(),
            TextParts::Listed { admissions } => admissions.count(),
            TextParts::Compared { changes } => changes.count(),
        }
    }

    /// Adds a part to a text, by its place from 0, or nothing past the last. The only error is want of memory.
    pub fn push_part(&self, text: &mut Vec<u8>, at: usize) -> Result<(), AllocError>
        ensures { (parts : List (List ℕ)) → AreParts self.now parts
            → OnOk result (text.new.items ≡ text.old.items ++ get_or parts at []) }
    {
        match self {
            TextParts::Explained { explanations } => explanations.push_part(text, at),
            TextParts::Listed { admissions } => admissions.push_part(text, at),
            TextParts::Compared { changes } => changes.push_part(text, at),
        }
    }
}
