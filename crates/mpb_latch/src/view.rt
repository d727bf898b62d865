//! What the seats of a shared latch know. No value of these types is made: they stand in the rule of
//! the latch alone.

use mpb_spec::{Hit, Pulse};
use std::collections::LinkedList;

/// What is known of a device: its plan, the pulses that it made with their answers, and whether it
/// has ended.
pub struct DeviceView {
    pub plan: LinkedList<Pulse>,
    pub log: LinkedList<(Pulse, Hit)>,
    pub ended: bool,
}

/// What is known of the collector of an I/O APIC: its place, the plans of all devices, how often
/// each pin was collected, how often it collected and looked, whether its last look found all
/// devices ended, and whether a collection after such a look found nothing.
pub struct CollectorView {
    pub io: u64,
    pub plans: LinkedList<LinkedList<Pulse>>,
    pub counts: LinkedList<u64>,
    pub swaps: u64,
    pub looks: u64,
    pub full: bool,
    pub dry: bool,
}

/// The devices and the collectors that a seat stands for.
pub struct SeatView {
    pub devices: LinkedList<DeviceView>,
    pub collectors: LinkedList<CollectorView>,
}
