//! The config of a board from a platform, its routes and a script: what the boot processor does before
//! its words, who is on the board, and why there may be no board (MultiProcessor Specification 1.4,
//! sections 3.6.2.1 and B.4).
#![tactic(auto)]

mod boot;
mod faults;
mod ids;
mod laws;
mod making;
mod programs;
mod setup;

pub use boot::boot_ops;
pub use laws::{
    absent_places_are_least, boards_have_who_is_enabled_and_present,
    boards_without_a_fault_are_configs, doubled_ids_are_least,
};
pub use setup::config;
