//! The shared bus (this project's own; docs/THREADS.md): threads take a board in turns, so that all
//! that they do is one history.
#![tactic(auto)]

mod bus;
mod closing;
mod holding;
mod laws;
mod opening;
mod rule;
mod seat;
mod threads;
mod turn;
mod view;

pub use bus::Bus;
pub use laws::agents_that_may_step_have_seats;
pub use seat::BusSeat;
pub use turn::Turn;
