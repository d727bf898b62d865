//! Routes and audit of whole tables: rows whose answers were worked out by hand from the rules. It
//! holds tests alone.
#![tactic(auto)]

#[cfg(test)]
mod audits;
#[cfg(test)]
mod defaults;
#[cfg(test)]
mod harness;
#[cfg(test)]
mod routing;
#[cfg(test)]
mod tables;
#[cfg(test)]
mod usual;
