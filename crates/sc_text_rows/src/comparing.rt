//! What the tests compare. A comparison that is written out in a test is proved there once more, which takes the prover
//! a second or two: these are proved once.
use std::alloc::AllocError;
use std::fmt::Debug;
use std::process::Abort;

/// What was found is what is wanted.
pub fn same<T: PartialEq + Debug>(rt: &impl Abort, found: &T, wanted: &T) {
    assert_eq!(rt; *found, *wanted);
}

/// What was found in a row of a table is what is wanted.
pub fn same_in<T: PartialEq + Debug>(rt: &impl Abort, found: &T, wanted: &T, row: &str) {
    assert_eq!(rt; *found, *wanted, "{row}");
}

/// There was memory for the text of a row, and it is what is wanted.
pub fn expect_text(rt: &impl Abort, text: Result<String, AllocError>, wanted: &str, row: &str) {
    let text = text.expect(rt, "memory");
    same_in(rt, &text.as_str(), &wanted, row);
}
