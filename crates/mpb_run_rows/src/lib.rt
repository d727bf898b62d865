//! Tests of the runs by threads. It holds tests alone, so that no crate is proved twice for their sake.
#![tactic(auto)]

#[cfg(test)]
mod drills;
#[cfg(test)]
mod harness;
#[cfg(test)]
mod reports;
#[cfg(test)]
mod runs;
