//! The state of a board as code keeps it, and the steps of its agents, each exactly that of the definition
//! (this project's own). Only its opening takes memory.
#![tactic(auto)]

mod asking;
mod cpu;
mod cpus;
mod device;
mod devices;
mod machine;
mod making;
mod opening;
mod place;
mod places;
mod telling;

pub use machine::Machine;
pub use making::make;
