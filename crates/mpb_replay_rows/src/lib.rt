//! Reports read back, and the verdicts on a report and on the same with one change each: rows whose answers were
//! worked out by hand from the format. It holds tests alone, so that no crate is proved twice for their sake.
#![tactic(auto)]

#[cfg(test)]
mod example;
#[cfg(test)]
mod lines;
#[cfg(test)]
mod reading;
#[cfg(test)]
mod verdicts;
#[cfg(test)]
mod whole;
