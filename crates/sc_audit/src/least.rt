//! The least of some numbers.
ghost use Rattle.std.specs.Prelude.{◌≡◌};
ghost use Rattle.sc_audit.specs.Least.{lesser_of};

use sc_papers::SchoolNo;

/// The lesser of the least school so far and another.
pub(crate) fn lesser(least: Option<SchoolNo>, other: Option<SchoolNo>) -> Option<SchoolNo>
    ensures { result ≡ lesser_of least other }
{
    let Some(first) = least else {
        return other;
    };
    let Some(second) = other else {
        return least;
    };
    if second.get() < first.get() {
        return Some(second);
    }
    Some(first)
}
