//! Why a text is no report.

use mpt_parse::LineWhy;

/// Why a text is refused.
#[derive(Clone, Copy, Debug, PartialEq, Eq)]
pub enum ReportFault {
    /// The first bad line.
    Line {
        /// Its number, counted from 1.
        line: u32,
        /// What is wrong.
        why: LineWhy,
    },
    /// Memory ran out.
    NoMemory,
}
