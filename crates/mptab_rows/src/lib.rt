//! The top call on whole images and listings, its commands of firmware's tables and of the pair of 8259A, and those
//! that run a board or judge a run: rows whose answers were worked out by hand from the formats. It holds tests alone.
#![tactic(auto)]

#[cfg(test)]
mod board;
#[cfg(test)]
mod boots;
#[cfg(test)]
mod commands;
#[cfg(test)]
mod failing;
#[cfg(test)]
mod faults;
#[cfg(test)]
mod firmware;
#[cfg(test)]
mod firmware_differing;
#[cfg(test)]
mod firmware_failing;
#[cfg(test)]
mod firmware_faults;
#[cfg(test)]
mod firmware_many;
#[cfg(test)]
mod firmware_usual;
#[cfg(test)]
mod firmware_worked;
#[cfg(test)]
mod harness;
#[cfg(test)]
mod revisions;
#[cfg(test)]
mod sizes;
#[cfg(test)]
mod tables;
#[cfg(test)]
mod windows;
#[cfg(test)]
mod worked;
