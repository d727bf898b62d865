//! The MP floating pointer structure and the search for it (MultiProcessor Specification 1.4,
//! section 4.1).
#![tactic(auto)]

mod layout;
mod reading;
mod search;
mod writing;

pub use mpt_spec::{Area, Pointer};
pub use reading::{pointer_at, read_pointer};
pub use search::{areas, find, find_in};
pub use writing::write_pointer;
