//! What a kernel asks of the tables: which pin of which I/O APIC each interrupt reaches, with what
//! vector, edge or level, high or low (MultiProcessor Specification 1.4, sections 4.3 and 5; 82093AA
//! datasheet, section 3.2.4).
#![tactic(auto)]

mod bus;
mod by_kind;
mod defaults;
mod pins;
mod platform;
mod route;
mod routing;

pub use bus::{BusKind, bus_kind};
pub use platform::{Platform, boot_processor_of, platform_of};
pub use route::{Answer, ROUTED_IO_APICS, Route, Why};
pub use routing::{first_buses, routes};
