//! Whether parts make the config of a board (this project's own): each rule that the type of a config
//! keeps, tested.
#![tactic(auto)]

mod cpus;
mod making;
mod ops;
mod words;

pub use making::config_of;
