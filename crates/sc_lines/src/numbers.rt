//! Numbers and lists of schools as a line spells them.

ghost use Rattle.std.specs.Prelude.{◌≡◌, ◌==◌, ◌∷◌, []};
ghost use Rattle.std.specs.List.{slice_split};
ghost use Rattle.sc_lines.specs.Reading.{count_in, list_in, number_in, ranged_in, school_in, schools_after, student_in, words_left, zone_in, Gives};

use crate::line_no::LineNo;
use crate::unread::Unread;
use memchr::memchr;
use sc_decimal::read_plain_number;
use sc_papers::{Count, SchoolList, SchoolNo, StudentNo, Zone};
use std::alloc::Global;

/// The number that a text writes: 1 to 9 decimal digits without leading zeros.
#[tactic(auto, unfolding(crate::specs::Reading::number_in))]
fn number(text: &[u8]) -> Result<u32, Unread>
    ensures { result ≡ number_in text.now }
{
    read_plain_number(text).ok_or(Unread::NoLine)
}

/// The number of a line that a text writes.
pub(crate) fn line_no(text: &[u8]) -> Result<LineNo, Unread>
    ensures { result ≡ ranged_in 1 LineNo.GREATEST text.now }
{
    LineNo::new(number(text)?).ok_or(Unread::NoLine)
}

/// The student's number that a text writes.
pub(crate) fn student(text: &[u8]) -> Result<StudentNo, Unread>
    ensures { result ≡ student_in text.now }
{
    StudentNo::new(number(text)?).ok_or(Unread::NoLine)
}

/// The zone that a text writes.
pub(crate) fn zone(text: &[u8]) -> Result<Zone, Unread>
    ensures { result ≡ zone_in text.now }
{
    Zone::new(number(text)?).ok_or(Unread::NoLine)
}

/// The school's number that a text writes.
pub(crate) fn school(text: &[u8]) -> Result<SchoolNo, Unread>
    ensures { result ≡ school_in text.now }
{
    SchoolNo::new(number(text)?).ok_or(Unread::NoLine)
}

/// The count of seats that a text writes.
pub(crate) fn count(text: &[u8]) -> Result<Count, Unread>
    ensures { result ≡ count_in text.now }
{
    Count::new(number(text)?).ok_or(Unread::NoLine)
}

/// The first word of a text, which ends at a space, and what follows the space if there is one.
fn split_word(text: &[u8]) -> (&[u8], Option<&[u8]>)
    ensures { slice_split (λ c. c == 32) text.now ≡ result.0.now ∷ words_left result.1 }
{
    match memchr(b' ', text) {
        Some(end) => (&text[..end], Some(&text[end + 1..])),
        None => (text, None),
    }
}

/// The schools that the words of a text write. None of the words is kept.
fn schools(alloc: Global, text: &[u8]) -> Result<SchoolList, Unread>
    ensures { Gives (schools_after [] (slice_split (λ c. c == 32) text.now)) result }
{
    let mut schools = Vec::new(alloc);
    let mut left = Some(text);
    'words: while let Some(rest) = left {
        let (word, more) = split_word(rest);
        schools.push(school(word)?)?;
        left = more;
    }
    Ok(SchoolList::from_vec(schools))
}

/// The list of schools that a text writes: numbers with one space between each two, or nothing.
#[tactic(auto, unfolding(crate::specs::Reading::list_in))]
pub(crate) fn list(alloc: Global, text: &[u8]) -> Result<SchoolList, Unread>
    ensures { Gives (list_in text.now) result }
{
    if text.is_empty() {
        return Ok(SchoolList::from_vec(Vec::new(alloc)));
    }
    schools(alloc, text)
}
