//! Pulses that devices make on pins of the I/O APICs and that collectors take: a latch of one
//! thread, and one that any number of threads share, whose account balances in every schedule.
//! A device's edge on a pin stays latched until the I/O APIC takes it; that edges which meet there
//! become one is this project's own model of the input (82093AA datasheet, section 3.2.4).
#![tactic(auto)]

mod account;
mod closing;
mod latch;
mod opening;
mod plain;
mod rule;
mod seat;
mod threads;
mod view;

pub use account::add_pins;
pub use latch::Latch;
pub use mpb_spec::{Account, Hit, Pulse};
pub use plain::PlainLatch;
pub use seat::{ColSeat, DevSeat};
