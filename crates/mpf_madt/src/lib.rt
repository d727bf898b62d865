//! The Multiple APIC Description Table (MADT) of the ACPI Specification, section 5.2.12: its bytes as a
//! value, read and written, one that says what the tables of MultiProcessor Specification 1.4 say, and
//! the ISA interrupts in which the two differ.
#![tactic(auto)]

mod entries;
mod entry_writing;
mod judging;
mod laws;
mod layouts;
mod line;
mod madt;
mod reading;
mod refusal;
mod routed;
mod translation;
mod values;
mod writing;

pub use judging::madt_ok;
pub use laws::{
    bytes_are_one_madt, first_madt_fault_is_one, madt_bytes_are_the_madt, madt_has_one_spelling,
    translated_madt_has_the_sources,
};
pub use line::{Line, isa};
pub use madt::{Madt, MadtEntry};
pub use mpt_spec::{Opaque, Sequence};
pub use reading::read_madt;
pub use refusal::{MadtReason, MadtRefusal};
pub use routed::{differ, source};
pub use translation::{TranslateFault, translate};
pub use writing::write_madt;
