//! The top calls: the words of a command line, the walk over the files that they name, and the
//! delivery of the answer.
#![tactic(auto)]

mod boot;
mod calls;
mod giving;
mod trace;

pub use calls::{run, run_still, run_with};
pub use mpb_boot::{Gate, NoGate};
