//! The bytes of base entries (MultiProcessor Specification 1.4, section 4.3, figures 4-4 to 4-8).

ghost use Rattle.std.specs.Prelude.{◌≡◌, ◌+◌, ◌++◌, length, OnOk, OnErr};
ghost use Rattle.mpt_spec.specs.Entries.{base_length};
ghost use Rattle.mpt_spec.specs.Image.{interrupt_bytes, base_bytes};
ghost use Rattle.mpt_spec.specs.declared.entry.Base.TheVariants as base;

use crate::base::{BUS, IO_APIC, IO_INTERRUPT, LOCAL_INTERRUPT, PROCESSOR};
use crate::layouts::{bus_layout, interrupt_layout, io_apic_layout, processor_layout};
use mpt_base::{NoMemory, append, put_fields};
use mpt_spec::{Base, Bus, IntEntry, IoApic, Processor};

fn processor_bytes(entry: &Processor) -> [u8; 20]
    ensures { result ≡ base_bytes (base.Processor entry.now) }
{
    let mut bytes = [0; 20];
    bytes[0] = PROCESSOR;
    processor_layout!(put_fields, bytes, entry);
    bytes
}

fn bus_bytes(entry: &Bus) -> [u8; 8]
    ensures { result ≡ base_bytes (base.Bus entry.now) }
{
    let mut bytes = [0; 8];
    bytes[0] = BUS;
    bus_layout!(put_fields, bytes, entry);
    bytes
}

fn io_apic_bytes(entry: &IoApic) -> [u8; 8]
    ensures { result ≡ base_bytes (base.IoApic entry.now) }
{
    let mut bytes = [0; 8];
    bytes[0] = IO_APIC;
    io_apic_layout!(put_fields, bytes, entry);
    bytes
}

// the bytes of an interrupt entry of this type, I/O or local
fn interrupt_bytes(type_byte: u8, entry: &IntEntry) -> [u8; 8]
    ensures { result ≡ interrupt_bytes type_byte entry.now }
{
    let mut bytes = [0; 8];
    bytes[0] = type_byte;
    interrupt_layout!(put_fields, bytes, entry);
    bytes
}

/// Appends the bytes of a base entry, 20 of a processor and 8 of any other. After want of memory `out`
/// is unchanged.
pub fn write_base(out: &mut Vec<u8>, entry: &Base) -> Result<(), NoMemory>
    ensures ok { OnOk result (out.new.items ≡ out.old.items ++ base_bytes entry.now) }
    ensures size { OnOk result (length out.new.items ≡ length out.old.items + base_length entry.now) }
    ensures err { OnErr result (out.new.items ≡ out.old.items) }
{
    match entry {
        Base::Processor(processor) => append(out, &processor_bytes(processor)),
        Base::Bus(bus) => append(out, &bus_bytes(bus)),
        Base::IoApic(io_apic) => append(out, &io_apic_bytes(io_apic)),
        Base::IoInt(interrupt) => append(out, &interrupt_bytes(IO_INTERRUPT, interrupt)),
        Base::LocalInt(interrupt) => append(out, &interrupt_bytes(LOCAL_INTERRUPT, interrupt)),
    }
}
