//! The table's values, and why bytes aren't one.

ghost use Rattle.std.specs.Prelude.{◌≡◌};
ghost use Rattle.mpf_pir.specs.declared.table.PirRefusal.TheVariants as refusal;

use mpt_spec::Sequence;
use std::alloc::{AllocError, AllocFailed};

/// A slot entry: the four interrupt pins of a PCI device, INTA# to INTD#.
#[derive(Clone, Copy, Debug, PartialEq, Eq)]
pub struct Slot {
    /// The PCI bus number.
    pub bus: u8,
    /// The device number in bits 7 to 3. Bits 2 to 0 are kept.
    pub device: u8,
    /// The link of each pin, 0 where it isn't connected. Pins with one link are wired together.
    pub links: [u8; 4],
    /// The IRQs to which each pin's link can be routed, a bit each.
    pub irqs: [u16; 4],
    /// The slot number, 0 for a device on the board.
    pub number: u8,
    /// Reserved byte 15.
    pub reserved: u8,
}

/// A PCI IRQ routing table of version 1.0. Its size and its checksum are determined by these.
#[derive(Drop)]
pub struct Pir {
    /// The bus of the interrupt router.
    pub router_bus: u8,
    /// The device of the interrupt router in bits 7 to 3, its function in bits 2 to 0.
    pub router_function: u8,
    /// The IRQs that are for PCI alone, a bit each.
    pub exclusive: u16,
    /// The vendor and device id of a compatible router.
    pub compatible: u32,
    /// Data for the miniport driver.
    pub miniport: u32,
    /// Reserved bytes 20 to 30.
    pub reserved: [u8; 11],
    /// The slots, in table order. A table in bytes has at most 4,093.
    pub slots: Sequence<Slot>,
}

/// A reason for which bytes are refused. Its discriminant is the number that is printed.
///
/// The numbers and their order are this project's own.
#[derive(Clone, Copy, Debug, PartialEq, Eq)]
pub enum PirReason {
    /// There are fewer than the 32 bytes of the header.
    Short = 31,
    /// They don't begin with `$PIR`.
    BadSignature = 32,
    /// The version isn't 1.0.
    BadVersion = 33,
    /// The size is no multiple of 16, or not the number of the bytes.
    BadSize = 34,
    /// The bytes don't sum to zero.
    BadSum = 35,
}

/// Why bytes aren't read.
#[derive(Clone, Copy, Debug, PartialEq, Eq)]
pub enum PirRefusal {
    /// They are no table.
    Fault {
        /// The offset of the fault, in bytes.
        at: u64,
        /// The reason.
        why: PirReason,
    },
    /// Memory ran out.
    NoMemory,
}

impl From<AllocError> for PirRefusal {
    ghost from_gives = { λ _ e. e ≡ refusal.NoMemory };

    fn from(_: AllocError) -> PirRefusal {
        PirRefusal::NoMemory
    }
}

impl<T: Drop> From<AllocFailed<T>> for PirRefusal {
    ghost from_gives = { λ _ e. e ≡ refusal.NoMemory };

    fn from(_failed: AllocFailed<T>) -> PirRefusal {
        PirRefusal::NoMemory
    }
}
