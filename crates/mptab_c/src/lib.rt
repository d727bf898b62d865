//! The commands for C: each reads its files from the caller's memory, and puts its text into the
//! caller's room (include/mptab.h, docs/C.md).
#![tactic(auto)]

mod calls;
mod exports;
mod lent_shelf;
#[cfg(test)]
mod tests;
mod text_sink;
mod words;

pub use exports::{
    mptab_audit, mptab_build, mptab_canon, mptab_drill, mptab_madt, mptab_madtcmp, mptab_pic,
    mptab_pircmp, mptab_pirmake, mptab_raise, mptab_replay, mptab_route, mptab_show, mptab_trace,
};
