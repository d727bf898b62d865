//! What the calls of the two APICs take and answer.

/// The least legal vector of a fixed interrupt (Intel SDM volume 3, section 10.5.2).
pub const FIRST_VECTOR: u8 = 16;

/// How many vectors a priority class has (Intel SDM volume 3, section 10.8.3).
pub const CLASS_SIZE: u8 = 16;

/// How many pins an I/O APIC has, INTIN 0 to 23 (82093AA datasheet).
pub const PINS: u8 = 24;

/// The destination that means all processors, in eight bits.
pub const TO_ALL: u8 = 255;

/// The physical destination that means all processors in an entry of an I/O APIC, which has four bits for it
/// (82093AA datasheet, section 3.2.4). So the ids below it are those that an entry can name.
pub const ENTRY_TO_ALL: u8 = 15;

/// The flat model of logical destinations: bits 31:28 of the DFR (Intel SDM volume 3, section 10.6.2.2).
pub const FLAT: u8 = 15;

/// The cluster model of logical destinations.
pub const CLUSTER: u8 = 0;

/// What became of a fixed interrupt at a local APIC.
#[derive(Clone, Copy, PartialEq)]
pub enum Accept {
    /// It is requested, and wasn't before.
    Set,
    /// It was requested already.
    Merged,
    /// Its vector is below `FIRST_VECTOR`.
    Illegal,
}

/// What a write or a level did to a pin's pending send.
#[derive(Clone, Copy, PartialEq)]
pub enum Effect {
    /// The pin is due, or not, as before.
    Plain,
    /// The pin became due.
    Due,
    /// The pin is no longer due.
    Withdrawn,
}

/// The message of a pin.
#[derive(Clone, Copy, PartialEq)]
pub struct Message {
    /// The pin, below 24.
    pub pin: u8,
    /// A logical destination is bits 63:56 of the entry; a physical one is bits 59:56, a local APIC
    /// id, or 15 for all.
    pub dest: u8,
    /// Bit 11: a logical destination.
    pub logical: bool,
    /// Bits 10:8: the delivery mode.
    pub mode: u8,
    /// Bits 7:0.
    pub vector: u8,
    /// Whether the pin is a level pin.
    pub level: bool,
}

/// The pins at which a collection made a message due, and those at which it joined one, bit n for pin n.
#[derive(Clone, Copy, PartialEq)]
pub struct Collected {
    pub due: u32,
    pub joined: u32,
}

/// One pin of an I/O APIC: the two halves of its entry, its line, and its delivery.
#[derive(Clone, Copy)]
pub struct Pin {
    /// Bits 31:0 of the entry, without the delivery status (bit 12) and remote IRR (bit 14).
    pub low: u32,
    /// Bits 63:32 of the entry.
    pub high: u32,
    /// Whether the line is asserted.
    pub line: bool,
    /// Whether a message is due.
    pub due: bool,
    /// Remote IRR: a level message was accepted, and its end of interrupt hasn't come.
    pub remote: bool,
}

/// The processors that a message names.
#[derive(Clone, Copy)]
pub enum Destination {
    /// The one whose local APIC has this id; each, where it is the second number.
    Physical(u8, u8),
    /// Those whose local APICs match it.
    Logical(u8),
}

/// Where a message goes.
#[derive(Clone, Copy)]
pub struct Aim {
    pub at: Destination,
    /// Whether it goes to the one of lowest priority among these that runs, where one does.
    pub lowest: bool,
}

/// What is delivered to processors.
#[derive(Clone, Copy)]
pub enum Delivery {
    /// A vector, and whether it is level-triggered.
    Fixed(u8, bool),
    Nmi,
    /// SMI or ExtINT.
    Pass,
    Init,
    /// A STARTUP, with the page.
    Startup(u8),
}
