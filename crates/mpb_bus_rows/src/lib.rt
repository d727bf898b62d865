//! Tests of what threads share, the bus and the latch: worked boards by the turns of one thread, what a meeting
//! tells, the same calls on both latches, and threads that take a board or a latch to its end. It holds tests
//! alone, so that no crate is proved twice for their sake.
#![tactic(auto)]

#[cfg(test)]
mod alike;
#[cfg(test)]
mod beside;
#[cfg(test)]
mod boards;
#[cfg(test)]
mod crew;
#[cfg(test)]
mod crowd;
#[cfg(test)]
mod harness;
#[cfg(test)]
mod latch_crew;
#[cfg(test)]
mod latch_crowd;
#[cfg(test)]
mod latches;
#[cfg(test)]
mod meeting;
#[cfg(test)]
mod turns;
#[cfg(test)]
mod walk;
