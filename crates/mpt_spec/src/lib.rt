//! What is true of the tables of MultiProcessor Specification 1.4: their values as plain types, and,
//! in `specs/`, the definitions that every contract cites. Nothing here reads, writes or searches.
#![tactic(auto)]

mod entry;
mod flags;
mod interrupt;
mod pointer;
mod reserved;
mod revision;
mod sequence;
mod tables;

pub use entry::{
    ALL_APICS, Base, Bus, Ext, Hierarchy, IO_APIC_PINS, IntEntry, IoApic, LOCAL_APIC_PINS,
    Modifier, Opaque, Processor, Space,
};
pub use interrupt::{Kind, Polarity, Trigger};
pub use pointer::{Area, Pointer};
pub use revision::{OLD_REVISION, REVISION, is_known_revision};
pub use sequence::Sequence;
pub use tables::{Body, Table, Tables};
