//! The lines of the entries of the base table and of the extended part.

ghost use Rattle.std.specs.Prelude.{◌≡◌, ◌++◌, OnOk, codes};
ghost use Rattle.mpt_listing.specs.Listing.{interrupt_line, base_line, rest_field, ext_line};
ghost use Rattle.mpt_listing.specs.Part.{part_text};
ghost use Rattle.mpt_spec.specs.declared.entry.Base.TheVariants as base;
ghost use Rattle.mpt_spec.specs.declared.entry.Ext.TheVariants as ext;

use crate::text::{Part, push_line};
use mpt_spec::{Base, Bus, Ext, Hierarchy, IntEntry, IoApic, Modifier, Opaque, Processor, Space};
use std::alloc::AllocError;

/// Writes the line of a base entry.
pub(crate) fn push_base_line(out: &mut Vec<u8>, entry: &Base) -> Result<(), AllocError>
    ensures { OnOk result (out.new.items ≡ out.old.items ++ base_line entry.now) }
{
    match entry {
        Base::Processor(processor) => push_processor_line(out, processor),
        Base::Bus(bus) => push_bus_line(out, bus),
        Base::IoApic(io_apic) => push_io_apic_line(out, io_apic),
        Base::IoInt(interrupt) => push_interrupt_line(out, b"ioint", interrupt),
        Base::LocalInt(interrupt) => push_interrupt_line(out, b"localint", interrupt),
    }
}

fn push_processor_line(out: &mut Vec<u8>, entry: &Processor) -> Result<(), AllocError>
    ensures { OnOk result (out.new.items ≡ out.old.items ++ base_line (base.Processor entry.now)) }
{
    push_line(
        out,
        &[
            Part::Text(b"processor id "),
            Part::Hex(2, entry.apic as u64),
            Part::Text(b" version "),
            Part::Hex(2, entry.version as u64),
            Part::Text(b" flags "),
            Part::Hex(2, entry.flags as u64),
            Part::Text(b" signature "),
            Part::Hex(8, entry.signature as u64),
            Part::Text(b" features "),
            Part::Hex(8, entry.features as u64),
            Part::Text(b" reserved "),
            Part::HexBytes(&entry.reserved),
        ],
    )
}

fn push_bus_line(out: &mut Vec<u8>, entry: &Bus) -> Result<(), AllocError>
    ensures { OnOk result (out.new.items ≡ out.old.items ++ base_line (base.Bus entry.now)) }
{
    push_line(
        out,
        &[
            Part::Text(b"bus id "),
            Part::Hex(2, entry.id as u64),
            Part::Text(b" name "),
            Part::Quoted(&entry.name),
        ],
    )
}

fn push_io_apic_line(out: &mut Vec<u8>, entry: &IoApic) -> Result<(), AllocError>
    ensures { OnOk result (out.new.items ≡ out.old.items ++ base_line (base.IoApic entry.now)) }
{
    push_line(
        out,
        &[
            Part::Text(b"ioapic id "),
            Part::Hex(2, entry.id as u64),
            Part::Text(b" version "),
            Part::Hex(2, entry.version as u64),
            Part::Text(b" flags "),
            Part::Hex(2, entry.flags as u64),
            Part::Text(b" address "),
            Part::Hex(8, entry.address as u64),
        ],
    )
}

// The line of an interrupt entry, I/O or local by its first word.
fn push_interrupt_line(out: &mut Vec<u8>, word: &[u8], entry: &IntEntry) -> Result<(), AllocError>
    ensures { OnOk result (out.new.items ≡ out.old.items ++ interrupt_line word.now entry.now) }
{
    push_line(
        out,
        &[
            Part::Text(word),
            Part::Text(b" kind "),
            Part::Hex(2, entry.kind as u64),
            Part::Text(b" flags "),
            Part::Hex(4, entry.flags as u64),
            Part::Text(b" bus "),
            Part::Hex(2, entry.bus as u64),
            Part::Text(b" irq "),
            Part::Hex(2, entry.irq as u64),
            Part::Text(b" dest "),
            Part::Hex(2, entry.dest as u64),
            Part::Text(b" pin "),
            Part::Hex(2, entry.pin as u64),
        ],
    )
}

/// Writes the line of an extended entry.
pub(crate) fn push_ext_line(out: &mut Vec<u8>, entry: &Ext) -> Result<(), AllocError>
    ensures { OnOk result (out.new.items ≡ out.old.items ++ ext_line entry.now) }
{
    match entry {
        Ext::Space(space) => push_space_line(out, space),
        Ext::Hierarchy(hierarchy) => push_hierarchy_line(out, hierarchy),
        Ext::Modifier(modifier) => push_modifier_line(out, modifier),
        Ext::Opaque(opaque) => push_opaque_line(out, opaque),
    }
}

fn push_space_line(out: &mut Vec<u8>, entry: &Space) -> Result<(), AllocError>
    ensures { OnOk result (out.new.items ≡ out.old.items ++ ext_line (ext.Space entry.now)) }
{
    push_line(
        out,
        &[
            Part::Text(b"space bus "),
            Part::Hex(2, entry.bus as u64),
            Part::Text(b" kind "),
            Part::Hex(2, entry.kind as u64),
            Part::Text(b" base "),
            Part::Hex(16, entry.base),
            Part::Text(b" length "),
            Part::Hex(16, entry.length),
        ],
    )
}

fn push_hierarchy_line(out: &mut Vec<u8>, entry: &Hierarchy) -> Result<(), AllocError>
    ensures { OnOk result (out.new.items ≡ out.old.items ++ ext_line (ext.Hierarchy entry.now)) }
{
    push_line(
        out,
        &[
            Part::Text(b"hierarchy bus "),
            Part::Hex(2, entry.bus as u64),
            Part::Text(b" info "),
            Part::Hex(2, entry.info as u64),
            Part::Text(b" parent "),
            Part::Hex(2, entry.parent as u64),
            Part::Text(b" reserved "),
            Part::HexBytes(&entry.reserved),
        ],
    )
}

fn push_modifier_line(out: &mut Vec<u8>, entry: &Modifier) -> Result<(), AllocError>
    ensures { OnOk result (out.new.items ≡ out.old.items ++ ext_line (ext.Modifier entry.now)) }
{
    push_line(
        out,
        &[
            Part::Text(b"modifier bus "),
            Part::Hex(2, entry.bus as u64),
            Part::Text(b" flags "),
            Part::Hex(2, entry.flags as u64),
            Part::Text(b" ranges "),
            Part::Hex(8, entry.ranges as u64),
        ],
    )
}

fn push_opaque_line(out: &mut Vec<u8>, entry: &Opaque) -> Result<(), AllocError>
    ensures { OnOk result (out.new.items ≡ out.old.items ++ ext_line (ext.Opaque entry.now)) }
{
    push_line(
        out,
        &[
            Part::Text(b"opaque kind "),
            Part::Hex(2, entry.kind as u64),
            Part::Text(b" rest "),
            rest_part(entry.rest.as_slice()),
        ],
    )
}

// The bytes of an opaque entry, or `-` where there are none.
fn rest_part(rest: &[u8]) -> Part
    ensures { part_text result ≡ rest_field rest.now }
{
    if rest.is_empty() {
        Part::Text(b"-")
    } else {
        Part::HexBytes(rest)
    }
}
