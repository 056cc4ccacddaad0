//! The fields of a line.

ghost use Rattle.std.specs.Prelude.{◌≡◌, ◌==◌, IfOk, map};
ghost use Rattle.std.specs.List.{slice_split};

use std::alloc::{AllocError, Global};
use std::marker::Model;

/// The fields of a line: what stands between its commas.
#[derive(Drop)]
pub struct Fields<'a> {
    fields: Vec<&'a [u8]>,
}

impl<'a> Model for Fields<'a> {
    ghost use Rattle.std.specs.Prelude.{ℕ, List};

    ghost Value = { List (List ℕ) };

    ghost use Rattle.sc_decimal.specs.Representation.{fields_of};

    ghost view = { fields_of };
}

/// What stands between the commas of a text.
fn between_commas(alloc: Global, text: &[u8]) -> Result<Vec<&[u8]>, AllocError>
    ensures { IfOk result (λ fields. map (λ field. field.now) fields.items ≡ slice_split (λ c. c == 44) text.now) }
{
    text.split(|byte| *byte == b',').collect(alloc)
}

impl<'a> Fields<'a> {
    ghost use Rattle.std.specs.Prelude.{◌≡◌, ◌==◌, IfOk, length};
    ghost use Rattle.std.specs.List.{slice_split};
    ghost use Rattle.sc_decimal.specs.Fields.{field_at};

    /// The fields of a line, given without its newline: one more than it has commas, quotes and spaces left as they stand.
    /// The only error is want of memory, of which each field takes some. The cost is one pass over the line.
    pub fn of(alloc: Global, text: &'a [u8]) -> Result<Self, AllocError>
        ensures { IfOk result (λ fields. fields ≡ slice_split (λ c. c == 44) text.now) }
    {
        Ok(Fields {
            fields: between_commas(alloc, text)?,
        })
    }

    /// Whether there are so many fields.
    pub fn are_so_many(&self, count: usize) -> bool
        ensures { result ≡ (length self.now == count) }
    {
        self.fields.len() == count
    }

    /// A field, counted from 0; one past the last is empty. In constant time.
    pub fn at(&self, index: usize) -> &'a [u8]
        ensures { result.now ≡ field_at self.now index }
    {
        self.fields.get(index).copied().unwrap_or(&[])
    }
}
