//! A drill: a board of a number, by which runs of many sizes are made without any file (this project's
//! own).
#![tactic(auto)]

mod laws;
mod script;
mod tables;

pub use laws::drills_have_boards;
pub use script::drill_script;
pub use tables::drill_tables;
