//! The round robin of a board (this project's own; docs/PROFILE.md): all agents take turns on one thread,
//! to the board's end.
#![tactic(auto)]

mod lists;
mod ran;
mod robin;
mod run;
mod turns;

pub use ran::Ran;
pub use robin::round_robin;
