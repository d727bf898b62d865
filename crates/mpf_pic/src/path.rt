//! The ways of INTR.

/// A way of INTR to the boot processor.
#[derive(Clone, Copy, PartialEq)]
pub enum Path {
    /// Past the APICs, in PIC mode.
    Direct,
    /// By LINTIN 0 of its local APIC.
    Lint,
    /// By a pin of an I/O APIC.
    Io {
        /// The place of the I/O APIC.
        io: u8,
        /// The pin, below 24.
        pin: u8,
    },
    /// None.
    Closed,
}
