//! Calls of the pair of 8259A played behind the round robin of a board: its text (this project's own).
#![tactic(auto)]

mod played;

pub use played::play_behind;
