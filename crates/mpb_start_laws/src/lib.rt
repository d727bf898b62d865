//! Laws of complete boots: how a board ends, and that its boot program started each processor once.
//! A law is the contract of a function that does nothing: it holds of every config and every journal.
#![tactic(auto)]

mod example;
mod rest;
mod starts;

pub use example::small_boot_starts_both_once;
pub use rest::{boards_at_rest_are_quiet, complete_boots_are_at_rest, complete_boots_are_through};
pub use starts::{complete_boots_start_each_processor_once, journals_tell_each_start_once};
