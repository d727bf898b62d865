//! Firmware's tables, MADTs and PCI IRQ routing tables: rows whose bytes and answers were worked out by hand from
//! the layouts and the rules. It holds tests alone.
#![tactic(auto)]

#[cfg(test)]
mod harness;
#[cfg(test)]
mod madt_lines;
#[cfg(test)]
mod madts;
#[cfg(test)]
mod pir;
#[cfg(test)]
mod pir_layout;
#[cfg(test)]
mod pir_many;
#[cfg(test)]
mod pir_platforms;
#[cfg(test)]
mod pir_usual;
#[cfg(test)]
mod platforms;
#[cfg(test)]
mod translated;
