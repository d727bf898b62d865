//! Laws of the firmware tables, the MADT (ACPI Specification, section 5.2.12) and the PCI IRQ routing
//! table: every list of bytes is a table or has a first fault, the tables that are made have bytes, and
//! every table has its differences. A law is the contract of a function that does nothing.
#![tactic(auto)]

mod examples;
mod laws;

pub use examples::{madt_of_a_board, other_madts_of_a_board, pirs_of_a_board};
pub use laws::{
    bytes_are_a_madt_or_refused, bytes_are_a_pir_or_refused, differences_are_there,
    first_pir_fault_is_one, made_pir_has_bytes, translated_madt_has_bytes,
};
