//! Scripts and the answers of their reader, worked out by hand from the format. It holds tests alone.
#![tactic(auto)]

#[cfg(test)]
mod harness;
#[cfg(test)]
mod keys;
#[cfg(test)]
mod scripts;
#[cfg(test)]
mod sizes;
#[cfg(test)]
mod words;
