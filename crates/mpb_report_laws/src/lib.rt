//! Laws of reports that are read back. Nothing computes on this crate.
#![tactic(auto)]

mod laws;

pub use laws::{
    boards_have_op_values, complete_runs_are_legal, report_has_one_run, runs_are_read_back,
    runs_are_short, texts_are_judged, traces_are_legal,
};
