//! The reading of a table (PCI IRQ Routing Table Specification 1.0).

ghost use Rattle.std.specs.Prelude.{◌≡◌, ◌+◌, ◌≤◌, ◌<◌, ◌*◌, ℕ, length, IfOk, IfSome, IfNone, IsTrue, ◌↔◌};
ghost use Rattle.mpt_base.specs.Bytes.{part};
ghost use Rattle.mpf_pir.specs.declared.table.Pir.{Pir as RoutingTable};
ghost use Rattle.mpf_pir.specs.declared.table.PirReason.{PirReason};
ghost use Rattle.mpf_pir.specs.Layout.{IsSlotAt, AreSlots, IsPir};
ghost use Rattle.mpf_pir.specs.Faults.{IsFirstPirFault, IsFaultless};
ghost use Rattle.mpf_pir.specs.Answers.{IfPirFault, AnswersPir, AnswersPirFault};

use crate::layout::{
    HEADER_SIZE, SIGNATURE, SIZE_AT, SLOT_SIZE, VERSION, VERSION_AT, header_layout, read_header,
    read_pins, read_slot, slot_layout,
};
use crate::table::{Pir, PirReason, PirRefusal, Slot};
use mpt_base::{part_at, read_field, sum8, u16_at};
use mpt_spec::Sequence;
use std::alloc::Global;

// whether the bytes at a place are these
fn has_part(bytes: &[u8], at: usize, piece: &[u8]) -> bool
    requires { at + length piece.now ≤ length bytes.now }
    ensures { IsTrue result ↔ (part bytes.now at (length piece.now) ≡ piece.now) }
{
    part_at(bytes, at, piece.len()) == piece
}

// the first fault of the bytes, with its offset
fn fault_of(bytes: &[u8]) -> Option<(u64, PirReason)>
    ensures some { IfSome result (λ f. IsFirstPirFault bytes.now f.0 f.1) }
    ensures none { IfNone result (IsFaultless bytes.now) }
{
    if bytes.len() < HEADER_SIZE {
        return Some((0, PirReason::Short));
    }
    if !has_part(bytes, 0, &SIGNATURE) {
        return Some((0, PirReason::BadSignature));
    }
    if !has_part(bytes, VERSION_AT, &VERSION) {
        return Some((4, PirReason::BadVersion));
    }
    let size = u16_at(bytes, SIZE_AT);
    if size % 16 != 0 || usize::from(size) != bytes.len() {
        return Some((6, PirReason::BadSize));
    }
    if sum8(bytes) != 0 {
        return Some((31, PirReason::BadSum));
    }
    None
}

fn slot_at(bytes: &[u8], at: usize) -> Slot
    requires inside { at + 16 ≤ length bytes.now }
    ensures { IsSlotAt result bytes.now at }
{
    slot_layout!(read_slot, bytes, at)
}

// the slots of a table without a fault
fn slots_of(alloc: Global, bytes: &[u8]) -> Result<Vec<Slot>, PirRefusal>
    requires { IsFaultless bytes.now }
    ensures slots { IfOk result (λ slots. AreSlots slots.items bytes.now 32 (length bytes.now)) }
    ensures memory { IfPirFault result (λ at why. ⊥) }
{
    let mut slots = Vec::new(alloc);
    let mut at = HEADER_SIZE;
    while at < bytes.len() {
        let Ok(()) = slots.push(slot_at(bytes, at)) else {
            return Err(PirRefusal::NoMemory);
        };
        at += SLOT_SIZE;
    }
    Ok(slots)
}

/// The table that the bytes are, all of them; or the first fault, by its offset and then by its number.
/// It takes memory for the slots alone.
pub fn read_pir(alloc: Global, bytes: &[u8]) -> Result<Pir, PirRefusal>
    ensures table { IfOk result (λ t. IsPir t bytes.now) }
    ensures fault { IfPirFault result (λ at why. IsFirstPirFault bytes.now at why) }
    ensures only_table { (t : RoutingTable) → IsPir t bytes.now → AnswersPir result t }
    ensures only_fault { (at : ℕ) (why : PirReason) → IsFirstPirFault bytes.now at why → AnswersPirFault result at why }
{
    if let Some((at, why)) = fault_of(bytes) {
        return Err(PirRefusal::Fault { at, why });
    }
    let slots = match slots_of(alloc, bytes) {
        Ok(slots) => slots,
        Err(refusal) => return Err(refusal),
    };
    Ok(header_layout!(read_header, bytes, slots))
}
