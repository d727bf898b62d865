//! The words of a script's programs: a name and its numbers, parted by one space (this project's own
//! format).
#![tactic(auto)]

mod cut;
mod meaning;
mod names;
mod numbers;
mod refusal;

pub use meaning::{read_cpu_word, read_device_word};
pub use refusal::WordWhy;
