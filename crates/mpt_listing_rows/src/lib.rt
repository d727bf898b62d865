//! Rows whose answers were worked out by hand from the format: listings read back; and tables of either revision
//! under a floating pointer of either, read from an image and by windows of a file, listed, audited, made
//! canonical, raised, and built from their listing. It holds tests alone, so that no crate is proved twice for
//! their sake.
#![tactic(auto)]

#[cfg(test)]
mod cuts;
#[cfg(test)]
mod harness;
#[cfg(test)]
mod lines;
#[cfg(test)]
mod places;
#[cfg(test)]
mod revision_faults;
#[cfg(test)]
mod revision_images;
#[cfg(test)]
mod revision_rows;
#[cfg(test)]
mod revisions;
#[cfg(test)]
mod texts;
#[cfg(test)]
mod values;
