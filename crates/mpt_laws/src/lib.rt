//! Laws of the definitions of the tables, and worked examples of them. A law is the contract of a
//! function that does nothing: it holds of every image, table and entry.
#![tactic(auto)]

pub mod examples;
pub mod laws;
