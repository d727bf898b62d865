//! A boot report read back: the report of which a text is the text, or the first of its lines that is out
//! of the grammar. The format is this project's own.
#![tactic(auto)]

mod fault;
mod laws;
mod lists;
mod parsing;

pub use fault::ReportFault;
pub use laws::{report_is_one, run_is_reported};
pub use mpb_report_line::{CpuLine, IoLine, Report};
pub use mpt_parse::LineWhy;
pub use parsing::parse_report;
