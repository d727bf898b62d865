//! The tables of firmware, a MADT and a PCI IRQ routing table, as texts of lines: why one is refused or
//! can't be made, and where it differs from the MP tables. The formats are this project's own.
#![tactic(auto)]

mod differing_lines;
mod fault_lines;
mod pin_lines;

pub use differing_lines::{LineDifference, line_differences, print_line_differences};
pub use fault_lines::{madt_fault_line, make_fault_line, many_processors_line, pir_fault_line};
pub use pin_lines::print_pin_differences;
