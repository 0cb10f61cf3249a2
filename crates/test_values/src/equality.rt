//! Compares two values that have to be equal. The tests that compare most call these functions
//! instead of `assert_eq!`, whose text would be proved again at each use.

use std::fmt::{Debug, Display};
use std::process::Abort;

/// Ends the test if the two differ, and prints both.
pub(crate) fn same<T: Copy + PartialEq + Debug>(rt: &impl Abort, found: T, wanted: T) {
    assert_eq!(*rt; found, wanted);
}

/// Ends the test if the two differ in one of several cases, and prints both and the case.
pub(crate) fn same_at<T: Copy + PartialEq + Debug>(
    rt: &impl Abort,
    found: T,
    wanted: T,
    case: &impl Display,
) {
    assert_eq!(*rt; found, wanted, "{case}");
}
