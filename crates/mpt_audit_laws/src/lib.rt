//! Laws of the audit over all tables, each the contract of a function that does nothing.
#![tactic(auto)]

mod laws;

pub use laws::tables_have_findings;
