//! What a run comes to in numbers, and the summary of a drill (this project's own).
#![tactic(auto)]

mod counting;
mod summary;
mod tally;

pub use counting::tally_of;
pub use summary::drill_summary;
pub use tally::Tally;
