//! Why a board can't be built (this project's own).

/// Why tables and a script make no board.
#[derive(Clone, Copy, Debug, PartialEq)]
pub enum BoardError {
    /// There is no boot processor.
    NoBoot,
    /// Two enabled processors share this id; where no two do, two enabled I/O APICs.
    DoubleId { id: u8 },
    /// An enabled processor has this id, 255.
    WideId { id: u8 },
    /// The boot processor's id is 15 or above.
    BootWide { id: u8 },
    /// The boot processor isn't present.
    BootAbsent { id: u8 },
    /// This many processors, more than 8, are on the board.
    ManyCpus { n: u32 },
    /// This many I/O APICs, more than 4, are enabled.
    ManyIo { n: u32 },
    /// A word names this place, at which there is no I/O APIC.
    NoIo { place: u8 },
    /// Want of memory.
    NoMemory,
}
