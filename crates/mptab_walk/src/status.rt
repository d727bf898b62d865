//! The statuses with which the program ends (docs/FORMATS.md).

/// The defined text was written.
pub const DONE: u8 = 0;
/// The audit has findings, or the verdict is another than Legal.
pub(crate) const FINDINGS: u8 = 1;
/// The words are no listed form.
pub const USAGE: u8 = 2;
/// A file isn't there.
pub(crate) const NO_FILE: u8 = 3;
/// The shelf failed.
pub(crate) const CANNOT_READ: u8 = 4;
/// The sink failed.
pub(crate) const CANNOT_WRITE: u8 = 5;
/// There is no floating pointer.
pub(crate) const NO_POINTER: u8 = 6;
/// The tables are refused.
pub(crate) const REFUSED: u8 = 7;
/// A listing, a script or a report is refused, or the tables don't fit.
pub(crate) const NOT_LISTED: u8 = 8;
/// Memory ran out.
pub(crate) const NO_MEMORY: u8 = 9;
/// A file passes its limit.
pub(crate) const TOO_LARGE: u8 = 10;
/// Tables and script describe no board.
pub(crate) const NO_BOARD: u8 = 11;
/// A MADT is refused, or can't be made.
pub(crate) const NO_MADT: u8 = 13;
/// A text of calls is refused.
pub(crate) const NO_CALLS: u8 = 14;
/// A PCI IRQ routing table is refused, or can't be made.
pub(crate) const NO_ROUTING_TABLE: u8 = 15;
