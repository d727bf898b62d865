//! Routes, and why an interrupt entry has none.

/// How many I/O APICs a route can lead to: the first enabled ones, in table order.
pub const ROUTED_IO_APICS: usize = 4;

/// A row of an I/O APIC's redirection table (82093AA datasheet, section 3.2.4).
#[derive(Clone, Copy, PartialEq, Eq)]
pub struct Route {
    /// The place of the I/O APIC among the first four enabled ones.
    pub io: u8,
    /// The pin, INTIN, below 24.
    pub pin: u8,
    /// The vector: 20h + 24 for each place + the pin for INT, 0 for the other kinds.
    pub vector: u8,
    /// The low word: vector in bits 7 to 0, delivery mode in 10 to 8, active low in 13, level in 15.
    pub low: u32,
    /// The high word: the boot processor's id in bits 31 to 24.
    pub high: u32,
    /// The number of the interrupt entry, from 0.
    pub entry: u32,
}

/// Why an interrupt entry has no route. The first that holds, in this order, is told.
#[derive(Clone, Copy, PartialEq, Eq)]
pub enum Why {
    /// The destination is FFh, every I/O APIC.
    DestWide,
    /// No bus entry has the source bus id.
    UnknownBus,
    /// None of the first four enabled I/O APICs has the destination's id.
    UnknownIo,
    /// The pin is above 23.
    PinRange,
    /// The kind is above 3.
    UnknownKind,
    /// Polarity or trigger has the reserved value.
    ReservedFlag,
    /// Polarity or trigger is left to a bus that doesn't say it.
    Conforms,
    /// An earlier routed entry has the same pin and another low word.
    Clash,
    /// An earlier routed entry has the same pin and low word.
    Shared,
}

/// The answer to an interrupt entry.
#[derive(Clone, Copy, PartialEq, Eq)]
pub enum Answer {
    /// Its row.
    Routed(Route),
    /// It has none.
    Unrouted {
        /// The number of the interrupt entry, from 0.
        entry: u32,
        /// The first reason.
        why: Why,
    },
}
