//! Scripts: what the processors and devices of a board do, as a TOML document (this project's own format).
#![tactic(auto)]

mod document;
mod keys;
mod programs;
mod reading;
mod script;

pub use mpb_words::WordWhy;
pub use reading::parse;
pub use script::{CpuScript, KeyName, Script, ScriptFault};
