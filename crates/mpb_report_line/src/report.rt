//! What a report says.

use mpb_spec::{Entry, Hit, Imcr, Life, Pulse};
use mpt_spec::Sequence;

/// The state of a processor at the end of a run.
#[derive(Drop)]
pub struct CpuLine {
    /// Its local APIC id.
    pub id: u8,
    /// Whether it runs.
    pub life: Life,
    /// Its task priority.
    pub tpr: u8,
    /// The vectors that are requested, ascending.
    pub irr: Sequence<u8>,
    /// The vectors in service, ascending.
    pub isr: Sequence<u8>,
    /// The level-triggered vectors, ascending.
    pub tmr: Sequence<u8>,
}

/// The state of an I/O APIC at the end of a run, bit n for pin n.
#[derive(Clone, Copy, PartialEq)]
pub struct IoLine {
    /// The pins whose line is asserted.
    pub line: u32,
    /// The pins that are due.
    pub due: u32,
    /// The pins that have remote IRR set.
    pub remote: u32,
}

/// What a report of a run says.
#[derive(Drop)]
pub struct Report {
    /// The entries of the journal.
    pub entries: Sequence<Entry>,
    /// The log of each device: its pulses, each with the latch's answer.
    pub logs: Sequence<Sequence<(Pulse, Hit)>>,
    /// The interrupt mode register.
    pub imcr: Imcr,
    /// The processors, ascending by id.
    pub cpus: Sequence<CpuLine>,
    /// The I/O APICs, by place.
    pub ios: Sequence<IoLine>,
}
