//! Two 8259A interrupt controllers in cascade, after the 8259A datasheet: which line they request of
//! the processor, and the vector that an acknowledgement gets. No call takes memory.
#![tactic(auto)]

mod bits;
mod controller;
mod pair;
mod port;
mod settings;

pub use pair::Pair;
pub use port::Port;
pub use settings::{Register, Settings, Side, Stage};
