//! A pulse of a device, and what became of it (this project's own).

/// A pulse on a pin of an I/O APIC.
#[derive(Clone, Copy, PartialEq, Eq)]
pub struct Pulse {
    /// The place of the I/O APIC among those of the board, 0 to 3.
    pub io: u8,
    /// The pin, an INTIN number, 0 to 23.
    pub pin: u8,
}

/// What a latch answers to a pulse.
#[derive(Clone, Copy, PartialEq, Eq)]
pub enum Hit {
    /// The pin was free, and is latched from now on.
    New,
    /// The pin was latched already, and the two pulses are one.
    Merged,
}
