//! The fields of a line: what stands between its commas.
ghost use Rattle.std.specs.Prelude.{◌≡◌, ◌==◌, [], length, option_map};
ghost use Rattle.std.specs.List.{count_by};
ghost use Rattle.csv.specs.Records.{field_at};
ghost use Rattle.sc_intake.specs.File.{text_at};
ghost use Rattle.sc_intake.specs.Plain.{fields_from};

use sc_intake::{Blanks, trimmed};

/// A field of a line, if it has so many.
fn field_of(line: &[u8], index: usize) -> Option<&[u8]>
    ensures { option_map (λ f. f.now) result ≡ field_at (fields_from [] line.now) index }
{
    line.split(|byte| *byte == b',').nth(index)
}

/// A field of a line without the blanks around it; one past the last is empty.
pub(crate) fn field_text(line: &[u8], index: usize) -> &[u8]
    ensures { result.now ≡ text_at (fields_from [] line.now) index }
{
    trimmed(field_of(line, index).unwrap_or(&[]), Blanks::InLine)
}

/// How many commas a line has.
fn commas(line: &[u8]) -> usize
    ensures { result ≡ count_by (λ c. c == 44) line.now }
{
    let mut count = 0;
    for byte in line {
        if *byte == b',' {
            count += 1;
        }
    }
    count
}

/// How many fields a line has.
pub(crate) fn fields_len(line: &[u8]) -> usize
    ensures { result ≡ length (fields_from [] line.now) }
{
    commas(line) + 1
}
