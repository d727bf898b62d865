//! What a run leaves beside its journal (this project's own).

use crate::pulse::{Hit, Pulse};

/// What the devices pulsed, and what was collected.
#[derive(Drop)]
pub struct Account {
    /// For each device its pulses in order, each with its answer.
    pub logs: Vec<Vec<(Pulse, Hit)>>,
    /// For each I/O APIC how often each of its 24 pins was collected.
    pub collected: Vec<Vec<u32>>,
}
