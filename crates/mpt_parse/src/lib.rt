//! A listing read back: the tables of which a text is the listing, or the first of its lines that is none
//! of the grammar in its place. The format is this project's own.
#![tactic(auto)]

mod entries;
mod fault;
mod parsing;

pub use fault::{LineWhy, ListingFault};
pub use parsing::parse;
