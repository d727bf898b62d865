//! The commands `trace`, `boot`, `replay` and `drill` through the top call: reports and refusals that were worked
//! out by hand from the formats and from the rules of both APICs, of the board and of the runs; boots whose
//! threads pass a gate, and calls that fail one by one.

mod boards;
mod drills;
mod failing;
mod gates;
mod harness;
mod levels;
mod messages;
mod pairs;
mod processors;
mod programs;
mod pulses;
mod replays;
mod scripts;
mod tables;
mod worked;
