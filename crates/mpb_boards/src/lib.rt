//! The board that tables and a script describe, what reports a boot of it, and the lines for a script, a board
//! or a report that is refused (this project's own).
#![tactic(auto)]

mod lines;
mod setup;

pub use lines::{board_fault_line, script_fault_line, verdict_line};
pub use setup::board;
