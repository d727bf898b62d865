//! The replay of a report of any origin: its entries are made again on a board, and what it says is compared
//! with what the board says.
#![tactic(auto)]

mod able;
mod accounts;
mod entries;
mod lines;
mod logs;
mod made;
mod replaying;
mod waiting;

pub use mpb_replay_laws::{BadWhy, CpuLine, IoLine, Report, Verdict};
pub use replaying::replay;
