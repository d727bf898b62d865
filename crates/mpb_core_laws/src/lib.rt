//! Laws of the definitions of both APICs, of the targets of messages, and of the state that a journal leaves. A law is the
//! contract of a function that does nothing: it holds of every local APIC, pin, list of pins and journal.
#![tactic(auto)]

pub mod boards;
pub mod ioapic;
pub mod lapic;
pub mod targets;
