//! The verdict on a report of any origin, as a definition, and its laws. A law is the contract of a function
//! that does nothing.
#![tactic(auto)]

mod laws;
mod verdict;

pub use laws::{legal_reports_are_complete, reports_have_one_verdict};
pub use mpb_report_line::{CpuLine, IoLine, Report};
pub use verdict::{BadWhy, Verdict};
