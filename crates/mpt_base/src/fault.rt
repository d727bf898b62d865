//! Why tables are refused: the sixteen reasons, and a reason with its place in the image.

/// A reason for which tables are refused. Its discriminant is the number that is printed.
///
/// The reasons are this project's own; the fields that they speak of are those of MultiProcessor
/// Specification 1.4, chapter 4.
#[derive(Clone, Copy, Debug, PartialEq, Eq)]
pub enum Reason {
    /// A revision byte of the floating pointer or of the table's header isn't 4.
    BadRevision = 1,
    /// Feature byte 1 names a default configuration above 7.
    BadDefault = 2,
    /// There is neither a default configuration nor the address of a table.
    NoTable = 3,
    /// The table's header passes the end of the image.
    TableOutside = 4,
    /// The header doesn't begin with `PCMP`.
    BadSignature = 5,
    /// The base length is below the 44 bytes of the header.
    ShortLength = 6,
    /// The base table passes the end of the image.
    LengthOutside = 7,
    /// The bytes of the base table don't sum to zero.
    BadSum = 8,
    /// The entry count isn't the number of base entries.
    BadCount = 9,
    /// The type of a base entry is above 4.
    UnknownEntry = 10,
    /// A base entry passes the end of the base table.
    CutEntry = 11,
    /// The extended part passes the end of the image.
    ExtOutside = 12,
    /// The extended checksum and the bytes of the extended part don't sum to zero.
    BadExtSum = 13,
    /// The type of an extended entry is below 128.
    BadExtType = 14,
    /// The length byte of an extended entry isn't that of its type.
    BadExtLength = 15,
    /// An extended entry passes the end of the extended part.
    CutExtEntry = 16,
}

/// Why tables are refused, and where.
#[derive(Clone, Copy, Debug, PartialEq, Eq)]
pub struct Fault {
    /// The offset in the image, in bytes.
    pub at: u64,
    /// The reason.
    pub why: Reason,
}
