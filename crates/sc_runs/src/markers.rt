//! Marker lines: where one stands, and what is before and after it.
ghost use Rattle.std.specs.Prelude.{◌≡◌, ◌<◌, ◌≤◌, nat_eq, true, None, drop, length, if◌then◌else◌};
ghost use Rattle.std.specs.List.{starts_with};
ghost use Rattle.std.specs.Option.{option_copied, option_map};
ghost use Rattle.memchr.specs.Find.{IsFirst};
ghost use Rattle.sc_runs.specs.Markers.{after_end as end_passed, after_lf as lf_passed, after_marker as marker_passed, begins_line as line_begins, cut_at as parts_at};
ghost use Rattle.sc_runs.specs.Steps.{parts_of};

use memchr::memmem;

/// Bytes in two parts, with a marker's line between them.
#[derive(Clone, Copy)]
pub struct Cut<'a> {
    pub before: &'a [u8],
    pub after: &'a [u8],
}

fn after_lf(bytes: &[u8]) -> Option<&[u8]>
    ensures { option_copied result ≡ lf_passed bytes.now }
{
    match bytes {
        [b'\n', rest @ ..] => Some(rest),
        _ => None,
    }
}

fn after_end(bytes: &[u8]) -> Option<&[u8]>
    ensures { option_copied result ≡ end_passed bytes.now }
{
    match bytes {
        [] => Some(bytes),
        [b'\r', rest @ ..] => after_lf(rest),
        _ => after_lf(bytes),
    }
}

/// What stands after the first line of `bytes`, where that line is the marker.
///
/// A line ends at an LF or at the end of the bytes, and a CR right before that LF is no part of it.
pub fn after_marker<'a>(bytes: &'a [u8], marker: &[u8]) -> Option<&'a [u8]>
    ensures { option_copied result ≡ marker_passed marker.now bytes.now }
{
    if bytes.starts_with(marker) {
        after_end(&bytes[marker.len()..])
    } else {
        None
    }
}

/// Whether a line begins at the place `at`.
fn begins_line(bytes: &[u8], at: usize) -> bool
    requires { at ≤ length bytes.now }
    ensures { result ≡ line_begins bytes.now at }
{
    at == 0 || bytes[at - 1] == b'\n'
}

/// What stands after the marker's line where that line begins at the place `at`.
fn after_marker_at<'a>(bytes: &'a [u8], at: usize, marker: &[u8]) -> Option<&'a [u8]>
    requires { at ≤ length bytes.now }
    ensures { option_copied result
        ≡ (if line_begins bytes.now at then marker_passed marker.now (drop at bytes.now) else None) }
{
    if begins_line(bytes, at) {
        after_marker(&bytes[at..], marker)
    } else {
        None
    }
}

/// The first place from `start` on at which the marker stands, wherever in its line.
fn find_from(bytes: &[u8], start: usize, marker: &[u8]) -> Option<usize>
    requires { start < length bytes.now }
    ensures { IsFirst (λ at. starts_with nat_eq (drop at bytes.now) marker.now ≡ true) start (length bytes.now) result }
{
    let ahead = memmem::find(&bytes[start..], marker)?;
    Some(start + ahead)
}

/// The bytes cut at the first line that is the marker, or `None` where no line is. The marker is searched
/// for as a substring, so that the cost is one such search where the bytes hold it in no other place.
pub fn cut_at<'a>(bytes: &'a [u8], marker: &[u8]) -> Option<Cut<'a>>
    ensures { option_map parts_of result ≡ parts_at marker.now true bytes.now }
{
    let mut start = 0;
    'places: while start < bytes.len() {
        let Some(at) = find_from(bytes, start, marker) else {
            return None;
        };
        if let Some(after) = after_marker_at(bytes, at, marker) {
            return Some(Cut {
                before: &bytes[..at],
                after,
            });
        }
        start = at + 1;
    }
    None
}
