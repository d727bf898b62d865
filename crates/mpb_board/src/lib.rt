//! The board on one thread: one step of it at a time, each exactly that of the definition, with a journal
//! that is legal by its type.
#![tactic(auto)]

mod board;
mod bound;
mod roster;

pub use board::Board;
pub use bound::room;
pub use mpb_spec::{
    Agent, BoardError, Config, CpuConfig, DevWord, Entry, Imcr, Life, Offer, Op, Outcome, What,
};
pub use roster::agents;
