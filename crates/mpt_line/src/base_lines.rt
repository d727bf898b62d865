//! The lines of base entries, each read from the left.

ghost use Rattle.std.specs.Prelude.{◌≡◌, IfSome, IfNone, codes};
ghost use Rattle.mpt_spec.specs.Values.{IsBaseValue};
ghost use Rattle.mpt_listing.specs.Listing.{base_line};
ghost use Rattle.mpt_line.specs.Reading.{Gives, field_in, bytes_field_in, both, ended};
ghost use Rattle.mpt_line.specs.Forms.{processor_in, bus_in, io_apic_in, interrupt_in, base_in};
ghost use Rattle.mpt_line.specs.Lines.{BeginsWith, BeginsWithNone};

use crate::byte_fields::{read_bytes_field, read_quoted_field};
use crate::fields::{read_end, read_part, read_u8_field, read_u16_field, read_u32_field};
use mpt_spec::{Base, Bus, IntEntry, IoApic, Processor};

/// The base entry whose line begins the text, and what follows that line; `None` exactly where the text
/// begins with the line of none.
pub fn read_base_line(text: &[u8]) -> Option<(Base, &[u8])>
    ensures some { IfSome result (λ x. BeginsWith base_line IsBaseValue text.now x.0 x.1.now) }
    ensures none { IfNone result (BeginsWithNone base_line IsBaseValue text.now) }
{
    read_base(text)
}

// The first of the five forms that reads.
#[tactic(auto, unfolding(crate::specs::Forms::base_in))]
fn read_base(line: &[u8]) -> Option<(Base, &[u8])>
    ensures { Gives (λ x. (x.0, x.1.now)) result (base_in line.now) }
{
    if let Some((entry, rest)) = read_processor(line) {
        return Some((Base::Processor(entry), rest));
    }
    if let Some((entry, rest)) = read_bus(line) {
        return Some((Base::Bus(entry), rest));
    }
    if let Some((entry, rest)) = read_io_apic(line) {
        return Some((Base::IoApic(entry), rest));
    }
    if let Some((entry, rest)) = read_interrupt(line, b"ioint") {
        return Some((Base::IoInt(entry), rest));
    }
    let Some((entry, rest)) = read_interrupt(line, b"localint") else {
        return None;
    };
    Some((Base::LocalInt(entry), rest))
}

#[tactic(auto, unfolding(crate::specs::Forms::processor_in))]
fn read_processor(line: &[u8]) -> Option<(Processor, &[u8])>
    ensures { Gives (λ x. (x.0, x.1.now)) result (processor_in line.now) }
{
    let Some((apic, rest)) = read_u8_field(line, b"processor id ") else {
        return None;
    };
    let Some((version, rest)) = read_u8_field(rest, b" version ") else {
        return None;
    };
    let Some((flags, rest)) = read_u8_field(rest, b" flags ") else {
        return None;
    };
    let Some((cpuid, rest)) = read_cpuid(rest) else {
        return None;
    };
    let (signature, features, reserved) = cpuid;
    Some((
        Processor {
            apic,
            version,
            flags,
            signature,
            features,
            reserved,
        },
        rest,
    ))
}

// What ends a processor's line: the CPU signature, the feature flags and the reserved bytes.
fn read_cpuid(line: &[u8]) -> Option<((u32, u32, [u8; 8]), &[u8])>
    ensures { Gives (λ x. ((x.0.0, (x.0.1, x.0.2)), x.1.now)) result
        (both (field_in (codes " signature ") 8) (both (field_in (codes " features ") 8)
        (ended (bytes_field_in (codes " reserved ") 8))) line.now) }
{
    let Some((signature, rest)) = read_u32_field(line, b" signature ") else {
        return None;
    };
    let Some((features, rest)) = read_u32_field(rest, b" features ") else {
        return None;
    };
    let mut reserved = [0; 8];
    let Some(rest) = read_bytes_field(&mut reserved, rest, b" reserved ") else {
        return None;
    };
    let Some(rest) = read_end(rest) else {
        return None;
    };
    Some(((signature, features, reserved), rest))
}

#[tactic(auto, unfolding(crate::specs::Forms::bus_in))]
fn read_bus(line: &[u8]) -> Option<(Bus, &[u8])>
    ensures { Gives (λ x. (x.0, x.1.now)) result (bus_in line.now) }
{
    let Some((id, rest)) = read_u8_field(line, b"bus id ") else {
        return None;
    };
    let mut name = [0; 6];
    let Some(rest) = read_quoted_field(&mut name, rest, b" name ") else {
        return None;
    };
    let Some(rest) = read_end(rest) else {
        return None;
    };
    Some((Bus { id, name }, rest))
}

#[tactic(auto, unfolding(crate::specs::Forms::io_apic_in))]
fn read_io_apic(line: &[u8]) -> Option<(IoApic, &[u8])>
    ensures { Gives (λ x. (x.0, x.1.now)) result (io_apic_in line.now) }
{
    let Some((id, rest)) = read_u8_field(line, b"ioapic id ") else {
        return None;
    };
    let Some((version, rest)) = read_u8_field(rest, b" version ") else {
        return None;
    };
    let Some((flags, rest)) = read_u8_field(rest, b" flags ") else {
        return None;
    };
    let Some((address, rest)) = read_u32_field(rest, b" address ") else {
        return None;
    };
    let Some(rest) = read_end(rest) else {
        return None;
    };
    Some((
        IoApic {
            id,
            version,
            flags,
            address,
        },
        rest,
    ))
}

// An interrupt entry behind a word that says whether it is I/O or local
#[tactic(auto, unfolding(crate::specs::Forms::interrupt_in))]
fn read_interrupt<'a>(line: &'a [u8], word: &[u8]) -> Option<(IntEntry, &'a [u8])>
    ensures { Gives (λ x. (x.0, x.1.now)) result (interrupt_in word.now line.now) }
{
    let Some(rest) = read_part(line, word) else {
        return None;
    };
    let Some((kind, rest)) = read_u8_field(rest, b" kind ") else {
        return None;
    };
    let Some((flags, rest)) = read_u16_field(rest, b" flags ") else {
        return None;
    };
    let Some((bus, rest)) = read_u8_field(rest, b" bus ") else {
        return None;
    };
    let Some((irq, rest)) = read_u8_field(rest, b" irq ") else {
        return None;
    };
    let Some((dest, rest)) = read_u8_field(rest, b" dest ") else {
        return None;
    };
    let Some((pin, rest)) = read_u8_field(rest, b" pin ") else {
        return None;
    };
    let Some(rest) = read_end(rest) else {
        return None;
    };
    Some((
        IntEntry {
            kind,
            flags,
            bus,
            irq,
            dest,
            pin,
        },
        rest,
    ))
}
