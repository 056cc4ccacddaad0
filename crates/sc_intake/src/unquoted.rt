//! Records written again as lines without quotes, which are found by their line ends.

ghost use Rattle.std.specs.Prelude.{◌≡◌, ◌∷◌, ◌++◌, [], false, IfSome};
ghost use Rattle.std.specs.List.{list_any};
ghost use Rattle.std.specs.Cow.{cow_slice_items};
ghost use Rattle.sc_intake.specs.Plain.{ends_field, plain_records};
ghost use Rattle.sc_intake.specs.Unquoted.{AddsLine};

use crate::plain_records::ends_field;
use crate::records::Records;
use memchr::memchr;
use std::alloc::Global;
use std::borrow::CowSlice;

/// Whether a text has a byte that ends a field.
fn has_field_end(text: &[u8]) -> bool
    ensures { result ≡ list_any ends_field text.now }
{
    text.iter().any(|byte| ends_field(*byte))
}

/// Adds a field to a text, and the byte that ends it there. `None` says nothing of the field: it would end before, or memory
/// is wanting.
fn push_field(text: &mut Vec<u8>, field: &[u8], end: u8) -> Option<()>
    ensures added { IfSome result (λ _. text.new.items ≡ text.old.items ++ (field.now ++ end ∷ [])) }
    ensures clean { IfSome result (λ _. list_any ends_field field.now ≡ false) }
{
    if has_field_end(field) {
        return None;
    }
    text.extend_from_slice(field).ok()?;
    text.push(end).ok()
}

/// Adds the record read last to a text, as a line. `None` says nothing of it: a field of it would not stand so without
/// quotes, it has one field alone or more than the most, or memory is wanting. Each field is looked for from the record's
/// beginning on, so the most are to be few.
fn push_record(text: &mut Vec<u8>, records: &Records<'_>, most: usize) -> Option<()>
    ensures { IfSome result (λ _. AddsLine text.old.items text.new.items records.now.current) }
{
    let width = records.len();
    if width < 2 || width > most {
        return None;
    }
    'fields: for index in 0..width - 1 {
        let field = records.get(index)?;
        push_field(text, field, b',')?;
    }
    let last = records.get(width - 1)?;
    push_field(text, last, b'\n')?;
    Some(())
}

/// The records that are left, as lines in a text that has room for so many bytes at first. `None` says nothing of them.
fn unquoted(alloc: Global, records: &mut Records<'_>, most: usize, room: usize) -> Option<Vec<u8>>
    ensures { IfSome result (λ text. plain_records text.items ≡ records.old.left) }
{
    let mut text = Vec::with_capacity(alloc, room).ok()?;
    'records: while records.read().ok()? {
        push_record(&mut text, records, most)?;
    }
    Some(text)
}

/// The text of the records that are left: where they stand, if that has no quote, and else as they are written again, with
/// room for so many bytes at first. `None` says nothing of them: a field has a comma or a line end, a record has more fields
/// than the most, or memory is wanting.
pub(crate) fn unquoted_text<'a>(
    alloc: Global,
    records: &mut Records<'a>,
    most: usize,
    room: usize,
) -> Option<CowSlice<'a, u8>>
    ensures { IfSome result (λ text. plain_records (cow_slice_items text) ≡ records.old.left) }
{
    match records.text() {
        Some(text) if memchr(b'"', text).is_none() => Some(CowSlice::Borrowed(text)),
        _ => Some(CowSlice::Owned(unquoted(alloc, records, most, room)?)),
    }
}
