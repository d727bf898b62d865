//! The audit of tables (MultiProcessor Specification 1.4, chapters 3 and 4): each rule that they break,
//! and where. The rules are this project's own choice of the standard's sentences.
#![tactic(auto)]

mod findings;
mod laws;

pub use findings::audit;
pub use laws::findings_are_one;
pub use mpt_rules::Finding;
