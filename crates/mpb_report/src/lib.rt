//! The report of a run: its entries, the log of each device, and the state that the entries leave, as a
//! text of lines. The format is this project's own.
#![tactic(auto)]

mod digits;
mod entry_lines;
mod laws;
mod log_lines;
mod parts;
mod printing;
mod state_lines;
mod vectors;

pub use entry_lines::push_entry_line;
pub use laws::sets_are_printed_whole;
pub use printing::report_text;
pub use vectors::{Register, members};
