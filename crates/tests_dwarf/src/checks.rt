//! Comparisons with the expected values of a table. They are functions of their own, since a proof of the code that
//! prints a failed assertion takes seconds.

use std::fmt::Debug;
use std::process::Abort;

/// Fails, and names the case, unless the values are equal.
pub fn same<T: PartialEq + Debug>(rt: &impl Abort, case: &impl Debug, found: &T, want: &T) {
    assert_eq!(rt; found, want, "{case:?}");
}

/// Fails, and names the case, unless the condition holds.
pub fn holds(rt: &impl Abort, case: &impl Debug, condition: bool) {
    assert!(rt; condition, "{case:?}");
}
