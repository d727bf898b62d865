//! The entries of the MP configuration table: their bytes as values, and where they stand end to end
//! (MultiProcessor Specification 1.4, sections 4.3 and 4.4).
#![tactic(auto)]

mod base;
mod base_writing;
mod extended;
mod extended_writing;
mod layouts;
mod pci;
mod stop;

pub use base::read_base;
pub use base_writing::write_base;
pub use extended::read_ext;
pub use extended_writing::write_ext;
pub use mpt_spec::{
    Base, Bus, Ext, Hierarchy, IntEntry, IoApic, Kind, Modifier, Opaque, Polarity, Processor,
    Space, Trigger,
};
pub use pci::{pci_device, pci_pin};
pub use stop::Stop;
