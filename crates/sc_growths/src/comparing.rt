//! What the tests compare. A comparison that is written out in a test is proved there once more, which takes the prover
//! a second or two: these are proved once.
use std::fmt::Debug;
use std::process::Abort;

/// What was found is what is wanted.
pub fn same<T: PartialEq + Debug>(rt: &impl Abort, found: &T, wanted: &T) {
    assert_eq!(rt; *found, *wanted);
}
