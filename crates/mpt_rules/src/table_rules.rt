//! The rules on the whole table, one function each.

ghost use Rattle.std.specs.Prelude.{◌≡◌, ◌↔◌, IsTrue};
ghost use Rattle.mpt_rules.specs.Places.{HoldsNowhere};
ghost use Rattle.mpt_rules.specs.Entries.{IsBootProcessor, IsEnabledIoApic};
ghost use Rattle.mpt_rules.specs.Rules.{BreaksTableRule};

use crate::rule::TableRule;
use mpt_spec::{Base, Pointer, Table};

fn is_boot_processor(entry: &Base) -> bool
    ensures { IsTrue result ↔ IsBootProcessor entry.now }
{
    match entry {
        Base::Processor(e) => e.is_boot_processor(),
        _ => false,
    }
}

fn is_enabled_io_apic(entry: &Base) -> bool
    ensures { IsTrue result ↔ IsEnabledIoApic entry.now }
{
    match entry {
        Base::IoApic(e) => e.is_enabled(),
        _ => false,
    }
}

fn lacks_boot_processor(entries: &[Base]) -> bool
    ensures { IsTrue result ↔ HoldsNowhere IsBootProcessor entries.now }
{
    for i in 0..entries.len() {
        if is_boot_processor(&entries[i]) {
            return false;
        }
    }
    true
}

fn lacks_io_apic(entries: &[Base]) -> bool
    ensures { IsTrue result ↔ HoldsNowhere IsEnabledIoApic entries.now }
{
    for i in 0..entries.len() {
        if is_enabled_io_apic(&entries[i]) {
            return false;
        }
    }
    true
}

/// Whether the table breaks a rule.
pub fn breaks(pointer: &Pointer, table: &Table, rule: TableRule) -> bool
    ensures { IsTrue result ↔ BreaksTableRule pointer.now table.now rule }
{
    match rule {
        TableRule::NoBootProcessor => lacks_boot_processor(table.base.as_slice()),
        TableRule::NoIoApic => lacks_io_apic(table.base.as_slice()),
        TableRule::ReservedHeaderBits => { !pointer.has_clear_bits() || !table.has_clear_header() }
        TableRule::TwoRevisions => pointer.revision != table.revision,
    }
}
