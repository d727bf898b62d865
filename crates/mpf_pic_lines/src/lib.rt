//! Calls of the pair of 8259A as a text of lines: `out PP VV`, `in PP`, `irq N up`, `irq N down` and
//! `ack`. The format is this project's own.
#![tactic(auto)]

mod fields;
mod laws;
mod lines;
mod op;
mod parsing;

pub use laws::{texts_of_calls_are_judged, texts_of_calls_have_one_reading};
pub use op::{PicFault, PicOp};
pub use parsing::parse_pic;
