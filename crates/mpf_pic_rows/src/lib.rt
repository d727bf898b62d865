//! Calls of the pair of 8259A whose answers were worked by hand, on each way of INTR. It holds tests alone,
//! so that no crate is proved twice for their sake.
#![tactic(auto)]

#[cfg(test)]
mod boards;
#[cfg(test)]
mod harness;
#[cfg(test)]
mod rows;
#[cfg(test)]
mod stages;
#[cfg(test)]
mod words;
