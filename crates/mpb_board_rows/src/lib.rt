//! The public calls of the board on worked boards whose journals come from outside, and reports of boards that are
//! stepped one by one, whose text was written by hand from the format. It holds tests alone, so that no crate is
//! proved twice for their sake.
#![tactic(auto)]

#[cfg(test)]
mod boards;
#[cfg(test)]
mod calls;
#[cfg(test)]
mod configs;
#[cfg(test)]
mod harness;
#[cfg(test)]
mod journals;
#[cfg(test)]
mod refusals;
#[cfg(test)]
mod report_lines;
#[cfg(test)]
mod reports;
#[cfg(test)]
mod rows;
#[cfg(test)]
mod stepped;
