//! The lines of a boot report read from the left: each reader gives the value whose line begins a text,
//! and what follows that line. The format is this project's own.
#![tactic(auto)]

mod cpu_lines;
mod entry_lines;
mod io_lines;
mod log_lines;
mod numbers;
mod ops;
mod outcomes;
mod report;
mod vectors;

pub use cpu_lines::read_cpu_line;
pub use entry_lines::read_entry_line;
pub use io_lines::{read_imcr_line, read_io_line};
pub use log_lines::read_log_line;
pub use numbers::read_entry_count_line;
pub use report::{CpuLine, IoLine, Report};
