//! Laws of the definitions of scripts. A law is the contract of a function that does nothing: it holds
//! of every text and every document.
#![tactic(auto)]

pub mod laws;
