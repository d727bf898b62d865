//! Why an image is refused.

use mpt_base::Fault;

/// Why an image is refused.
#[derive(Clone, Copy, Debug, PartialEq, Eq)]
pub enum Refusal {
    /// The search finds no floating pointer (section 4.1).
    NoPointer,
    /// The first fault of the floating pointer or of the table, and its offset in the image.
    Fault(Fault),
    /// Memory ran out. It is taken only for the entries of a table.
    NoMemory,
}

/// Why an image that is read by windows from a file is refused.
#[derive(Clone, Copy, Debug, PartialEq, Eq)]
pub enum FileRefusal {
    /// The search finds no floating pointer (section 4.1).
    NoPointer,
    /// The first fault of the floating pointer or of the table, and its offset in the image.
    Fault(Fault),
    /// The shelf failed.
    Read,
    /// Memory ran out.
    NoMemory,
}
