//! The worker of an agent, which owns the agent's seats.

use mpb_bus::BusSeat;
use mpb_latch::{ColSeat, DevSeat};
use mpb_spec::Agent;

/// What a worker has beside its seat on the bus.
#[derive(Drop)]
pub(crate) enum Part {
    /// A processor has nothing.
    Cpu,
    /// An I/O APIC has its collector's seat.
    Io(ColSeat),
    /// A device has its number and its seat.
    Dev(u8, DevSeat),
}

/// The worker of an agent.
#[derive(Drop)]
pub(crate) struct Worker {
    pub(crate) agent: Agent,
    pub(crate) bus: BusSeat,
    pub(crate) part: Part,
}
