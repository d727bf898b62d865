//! Laws of the routes over all platforms, each the contract of a function that does nothing.
#![tactic(auto)]

mod laws;

pub use laws::{
    answers_are_on_pins, pins_are_taken_once, raised_tables_have_the_platform, routes_are_one,
    routes_tell_reasons, rows_say_what_the_entry_asks,
};
