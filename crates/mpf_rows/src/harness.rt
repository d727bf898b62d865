//! The comparison that every row makes.

use std::fmt::Debug;
use std::process::Abort;

/// Ends the test where the two differ, and prints both and the name of the row.
pub(crate) fn same<T: PartialEq + Debug + Drop>(rt: &impl Abort, name: &str, got: T, want: T) {
    assert_eq!(rt; got, want, "{name}");
}
