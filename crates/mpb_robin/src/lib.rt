//! The round robin of a board and what every run accounts for, as definitions, and their laws: its end is
//! complete and accounted for, and there is one. A law is the contract of a function that does nothing.
#![tactic(auto)]

mod act;
mod laws;

pub use act::Act;
pub use laws::{
    latched_pins_can_be_collected, quiet_runs_are_complete, round_robins_are_complete,
    round_robins_have_one_end, rounds_go_on, turns_keep,
};
