//! A finite set of numbers in words of 64 bits, for any number of words up to 65,536. No call takes
//! memory.
#![tactic(auto)]

mod rows;
mod words;

pub use rows::Rows;
