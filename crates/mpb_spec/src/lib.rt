//! What is true of a board of local APICs and I/O APICs: its words as plain types, and, in `specs/`,
//! the definitions that every contract cites. Nothing here computes a board.
#![tactic(auto)]

mod account;
mod agent;
mod apic;
mod config;
mod entry;
mod fault;
mod pulse;

pub use account::Account;
pub use agent::{Agent, LONGEST_PAUSE, Offer, Op};
pub use apic::{
    Accept, Aim, CLASS_SIZE, CLUSTER, Collected, Delivery, Destination, ENTRY_TO_ALL, Effect,
    FIRST_VECTOR, FLAT, Message, PINS, Pin, TO_ALL,
};
pub use config::{
    Config, CpuConfig, DevWord, Imcr, Life, MOST_CPUS, MOST_DEVICES, MOST_IO_APICS, STARTUP_VERSION,
};
pub use entry::{Entry, Outcome, Outcomes, What};
pub use fault::BoardError;
pub use pulse::{Hit, Pulse};
