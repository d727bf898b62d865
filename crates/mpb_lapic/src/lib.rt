//! A local APIC: which fixed interrupts it takes, in which order, and how their service ends
//! (Intel SDM volume 3, sections 10.8.3 to 10.8.5), and which logical destinations are its own
//! (section 10.6.2.2). It takes no memory.
#![tactic(auto)]

mod lapic;

pub use lapic::Lapic;
pub use mpb_spec::Accept;
