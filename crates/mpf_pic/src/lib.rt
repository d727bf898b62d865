//! Two 8259A interrupt controllers in cascade, and the way of their INTR to the boot processor in each
//! mode (MultiProcessor Specification 1.4, section 3.6.2), after the 8259A datasheet.
#![tactic(auto)]

mod laws;
mod path;
mod playing;
mod search;
mod wiring;

pub use laws::vectors_come_where_intr_comes;
pub use mpf_pair::{Pair, Port};
pub use mpf_pic_lines::{PicFault, PicOp, parse_pic};
pub use path::Path;
pub use playing::play;
pub use wiring::Wiring;
