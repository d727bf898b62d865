//! Boards that the tests of several crates run, and the parts that they make more of.
#![tactic(auto)]

mod boards;
mod parts;

pub use boards::{one_absent, three_pulses, two_processors, with_one_io};
pub use parts::{one_device, one_processor, pair, processor};
