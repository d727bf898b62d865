//! Why a text is no listing of tables that fit.

/// Why a line is bad.
#[derive(Clone, Copy, Debug, PartialEq, Eq)]
pub enum LineWhy {
    /// The line is out of its place, of another form, has a wrong value or has no line feed.
    Form,
    /// A line is needed, and no bytes are left.
    Early,
    /// Bytes follow the `end` line.
    Late,
}

/// Why a text is refused.
#[derive(Clone, Copy, Debug, PartialEq, Eq)]
pub enum ListingFault {
    /// The first bad line.
    Line {
        /// Its number, counted from 1.
        line: u32,
        /// What is wrong.
        why: LineWhy,
    },
    /// All lines are right, and the tables have no place in an image of 1 MiB.
    DoesNotFit {
        /// The bytes of the base table and of the extended part together, 0 for a default configuration.
        bytes: u64,
    },
    /// Memory ran out.
    NoMemory,
}
