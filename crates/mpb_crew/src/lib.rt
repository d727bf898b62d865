//! A board's run by threads (this project's own; docs/THREADS.md): a worker for each agent, each with its
//! own seats on the bus and on the latch.
#![tactic(auto)]

mod answer;
mod assembly;
mod by_threads;
mod closing;
mod collectors;
mod crew;
mod devices;
mod gate;
mod opening;
mod turns;
mod worker;

pub use by_threads::threads;
pub use gate::{Gate, NoGate};
