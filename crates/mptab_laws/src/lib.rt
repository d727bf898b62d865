//! Laws of the walk: what words and told files give. A law is the contract of a function that does
//! nothing.
#![tactic(auto)]

pub mod laws;
