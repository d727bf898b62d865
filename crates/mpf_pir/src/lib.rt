//! The PCI IRQ routing table, `$PIR` (PCI IRQ Routing Table Specification 1.0): its bytes and its
//! values, the table that says what a platform's interrupt entries say of the PCI pins, and where a
//! table and a platform differ.
#![tactic(auto)]

mod comparing;
mod laws;
mod layout;
mod making;
mod pins;
mod reading;
mod table;
mod writing;

pub use comparing::{Difference, Odd, compare};
pub use laws::{
    bytes_are_one, differences_are_one, made_table_agrees, made_table_connects, made_table_links,
    table_is_one,
};
pub use making::{MakeFault, make};
pub use reading::read_pir;
pub use table::{Pir, PirReason, PirRefusal, Slot};
pub use writing::write_pir;
