//! The comparison that the tests share: its proof, with that of the text which it prints, is made
//! once.

use std::fmt::Debug;
use std::process::Abort;

/// Checks that the values are the same, and else names the place at which they aren't.
pub(crate) fn check_same<T: Copy + PartialEq + Debug, P: Copy + Debug>(
    rt: &impl Abort,
    given: T,
    wanted: T,
    place: P,
) {
    assert_eq!(rt; given, wanted, "at {place:?}");
}
