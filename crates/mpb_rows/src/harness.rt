//! What the rows of both APICs assert with.

use std::fmt::Debug;
use std::process::Abort;

/// Asserts that a call gave what was wanted.
pub(crate) fn same<T: PartialEq + Debug + Drop>(rt: &impl Abort, name: &str, got: T, want: T) {
    assert_eq!(rt; (name, got), (name, want));
}
