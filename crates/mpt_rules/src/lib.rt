//! The audit rules: 24 sentences over one entry or two, from what MultiProcessor Specification 1.4 asks
//! of tables, and beside each a function that asks it of a place. The choice of rules is this project's
//! own.
#![tactic(auto)]

mod base_index;
mod base_rules;
mod ext_index;
mod ext_rules;
mod places;
mod rule;
mod rules;
mod table_rules;

pub use base_index::{BaseIndex, base_index_of};
pub use ext_index::{ExtIndex, Range, ext_index_of};
pub use rule::{BaseRule, ExtRule, Finding, Rule, TableRule};
pub use rules::other_of;
