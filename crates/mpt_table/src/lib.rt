//! The reader of an image: what tables it describes, or the first fault for which they are refused
//! (MultiProcessor Specification 1.4, chapter 4).
#![tactic(auto)]

mod header;
mod pointer_fault;
mod reading;
mod reading_from;
mod refusal;
mod search_from;
mod table_from;
mod window;

pub use mpt_spec::{Body, Pointer, Table, Tables};
pub use reading::read;
pub use reading_from::read_from;
pub use refusal::{FileRefusal, Refusal};
