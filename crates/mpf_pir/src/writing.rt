//! The writing of a table (PCI IRQ Routing Table Specification 1.0).

ghost use Rattle.std.specs.Prelude.{◌≡◌, ◌+◌, ◌*◌, ◌^◌, ◌<◌, ◌≤◌, ◌++◌, ◌∷◌, [], ℕ, List, length, IfOk, OnOk, slice_index};
ghost use Rattle.mpt_base.specs.Bytes.{IsByteList};
ghost use Rattle.mpf_pir.specs.Layout.{AreSlots, IsPir};
ghost use Rattle.mpf_pir.specs.Spelling.{IsHeaderValue, IsOpenPir, IsSlotValue, header_bytes, slot_bytes};

use crate::layout::{
    CHECKSUM_AT, HEADER_SIZE, SIGNATURE, SIZE_AT, SLOT_SIZE, VERSION, VERSION_AT, header_layout,
    put_pins, put_slot, slot_layout,
};
use crate::table::{Pir, Slot};
use mpt_base::{NoMemory, append, put_bytes, put_field, put_fields, put_u16, seal8};
use std::alloc::Global;

fn links_value(links: [u8; 4])
    ensures { length links ≡ 4 }
{
    let _value = links;
}

fn irqs_value(irqs: [u16; 4])
    ensures irqs { length irqs ≡ 4 }
    ensures small { (pin : ℕ) → slice_index irqs pin < 2 ^ 16 }
{
    let _value = irqs;
}

// that the slot's fields fit
fn slot_value(slot: Slot)
    ensures { IsSlotValue slot }
{
    links_value(slot.links);
    irqs_value(slot.irqs);
}

fn slot_bytes(slot: Slot) -> [u8; 16]
    ensures { result ≡ slot_bytes slot }
{
    let mut bytes = [0; 16];
    slot_layout!(put_slot, bytes, slot);
    bytes
}

// the slots end to end
fn slots_bytes(alloc: Global, slots: &[Slot]) -> Result<Vec<u8>, NoMemory>
    ensures slots { IfOk result (λ bytes. AreSlots slots.now bytes.items 0 (length bytes.items)) }
    ensures size { IfOk result (λ bytes. length bytes.items ≡ 16 * length slots.now) }
{
    let mut out = Vec::new(alloc);
    for slot in slots {
        slot_value(*slot);
        let Ok(()) = append(&mut out, &slot_bytes(*slot)) else {
            return Err(NoMemory);
        };
    }
    Ok(out)
}

// the header but for its last byte, the checksum
fn header_bytes(pir: &Pir, size: u16) -> [u8; 31]
    ensures { result ≡ header_bytes pir.now size }
{
    let mut bytes = [0; 31];
    put_bytes(&mut bytes, 0, &SIGNATURE);
    put_bytes(&mut bytes, VERSION_AT, &VERSION);
    put_u16(&mut bytes, SIZE_AT, size);
    header_layout!(put_fields, bytes, pir);
    bytes
}

fn numbers_value(exclusive: u16, compatible: u32, miniport: u32)
    ensures exclusive { exclusive < 2 ^ 16 }
    ensures compatible { compatible < 2 ^ 32 }
    ensures miniport { miniport < 2 ^ 32 }
{
    let _values = (exclusive, compatible, miniport);
}

fn reserved_value(reserved: [u8; 11])
    ensures { length reserved ≡ 11 }
{
    let _value = reserved;
}

// that the header's fields fit
fn header_value(pir: &Pir)
    ensures { IsHeaderValue pir.now }
{
    numbers_value(pir.exclusive, pir.compatible, pir.miniport);
    reserved_value(pir.reserved);
}

// appends a header, its checksum still zero, and what follows it
fn push_pieces(out: &mut Vec<u8>, header: &[u8], slots: &[u8]) -> Result<(), NoMemory>
    ensures { OnOk result (out.new.items ≡ ((out.old.items ++ header.now) ++ 0 ∷ []) ++ slots.now) }
{
    let Ok(()) = append(out, header) else {
        return Err(NoMemory);
    };
    let Ok(()) = append(out, &[0]) else {
        return Err(NoMemory);
    };
    append(out, slots)
}

// the bytes of the table, its checksum still zero
fn open_bytes(alloc: Global, pir: &Pir) -> Result<Vec<u8>, NoMemory>
    requires few { length pir.now.slots ≤ 4093 }
    ensures whole { IfOk result (λ bytes. IsOpenPir pir.now bytes.items) }
{
    header_value(pir);
    let slots = pir.slots.as_slice();
    let size = HEADER_SIZE + SLOT_SIZE * slots.len();
    let Ok(slots) = slots_bytes(alloc, slots) else {
        return Err(NoMemory);
    };
    let mut out = Vec::new(alloc);
    let header = header_bytes(pir, size as u16);
    match push_pieces(&mut out, &header, slots.as_slice()) {
        Ok(()) => Ok(out),
        Err(_) => Err(NoMemory),
    }
}

// the bytes of the table, with its checksum
fn sealed_bytes(alloc: Global, pir: &Pir) -> Result<Vec<u8>, NoMemory>
    requires few { length pir.now.slots ≤ 4093 }
    ensures { IfOk result (λ bytes. IsPir pir.now bytes.items) }
{
    let Ok(mut bytes) = open_bytes(alloc, pir) else {
        return Err(NoMemory);
    };
    seal8(bytes.as_mut_slice(), CHECKSUM_AT);
    Ok(bytes)
}

fn byte_list(bytes: &[u8])
    ensures { IsByteList bytes.now }
{
    let _value = bytes;
}

/// The bytes of the table, with its size and its checksum. There are no others that are this table.
/// It has at most 4,093 slots, so that its size fits its field. It fails only where memory runs out.
pub fn write_pir(alloc: Global, pir: &Pir) -> Result<Vec<u8>, NoMemory>
    requires few { length pir.now.slots ≤ 4093 }
    ensures table { IfOk result (λ bytes. IsPir pir.now bytes.items) }
    ensures size { IfOk result (λ bytes. length bytes.items ≡ 32 + 16 * length pir.now.slots) }
    ensures only { (bytes : List ℕ) → IsByteList bytes → IsPir pir.now bytes → IfOk result (λ written. written.items ≡ bytes) }
{
    let Ok(bytes) = sealed_bytes(alloc, pir) else {
        return Err(NoMemory);
    };
    byte_list(bytes.as_slice());
    Ok(bytes)
}
