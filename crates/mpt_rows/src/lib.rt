//! The public calls of the crates for tables on rows whose answers come from outside, so that no crate is
//! proved twice for their sake; each file is named after its crate or its subject. Beside these tests stands
//! a plain program for the places of the search, by which worked cases are run against their definition.
#![tactic(auto)]

#[cfg(test)]
mod canonical;
#[cfg(test)]
mod entries;
#[cfg(test)]
mod file_shelf;
#[cfg(test)]
mod fitting;
#[cfg(test)]
mod harness;
#[cfg(test)]
mod listing;
#[cfg(test)]
mod outside;
#[cfg(test)]
mod places;
mod plain;
#[cfg(test)]
mod pointer;
#[cfg(test)]
mod reading;
#[cfg(test)]
mod spelled;
#[cfg(test)]
mod tables;
#[cfg(test)]
mod written;

pub use plain::search_places;
