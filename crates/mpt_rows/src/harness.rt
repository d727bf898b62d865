//! What the rows stand on: the comparison, the answer that has to be there, and bytes that are put in their
//! places.

use mpt_base::{Failed, Shelf, put_bytes};
use std::fmt::Debug;
use std::process::Abort;

/// Ends the test where the two differ, and prints both and the name of the row.
pub(crate) fn same<T: PartialEq + Debug + Drop>(rt: &impl Abort, name: &str, got: T, want: T) {
    assert_eq!(rt; got, want, "{name}");
}

/// Compares the size that a shelf tells of a file.
pub(crate) fn same_size(
    rt: &impl Abort,
    shelf: &mut impl Shelf,
    name: &str,
    want: Result<Option<u64>, Failed>,
) {
    same(rt, name, shelf.size(name), want);
}

/// Writes bytes at a place, and nothing where they pass the end.
pub(crate) fn put(image: &mut [u8], at: usize, bytes: &[u8]) {
    if at <= image.len() && bytes.len() <= image.len() - at {
        put_bytes(image, at, bytes);
    }
}
