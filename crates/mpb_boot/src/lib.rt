//! The report of a boot, by threads and by the round robin (this project's own; the start of processors is that
//! of MultiProcessor Specification 1.4, appendix B.4).
#![tactic(auto)]

mod reports;

pub use mpb_crew::{Gate, NoGate};
pub use reports::{boot, trace};
