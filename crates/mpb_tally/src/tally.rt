//! The numbers of a run.

/// What a run comes to in numbers.
#[derive(Clone, Copy)]
pub struct Tally {
    /// The entries of its journal.
    pub entries: u64,
    /// The outcomes by which a processor starts.
    pub started: u64,
    /// The pulses of all devices.
    pub pulses: u64,
    /// Those that found their pin free.
    pub fresh: u64,
    /// Those that found it latched.
    pub merged: u64,
    /// The outcomes by which a vector is requested that wasn't before.
    pub sets: u64,
    /// The outcomes by which a vector is taken into service.
    pub takes: u64,
}
