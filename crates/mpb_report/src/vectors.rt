//! The vectors of a register of a local APIC, and lists of vectors as texts.

ghost use Rattle.std.specs.Prelude.{◌≡◌, ◌++◌, OnOk};
ghost use Rattle.std.specs.List.{flat_map};
ghost use Rattle.mpb_spec.specs.Numbers.{has};
ghost use Rattle.mpb_report_spec.specs.StateLines.{members, further_vector, vectors_text};
ghost use Rattle.mpb_report.specs.Found.{register_of};

use arrayvec::ArrayVec;
use mpb_lapic::Lapic;
use mpt_listing::{push_hex, push_text};
use std::alloc::AllocError;

/// One of the three registers of a local APIC that hold vectors.
#[derive(Clone, Copy)]
pub enum Register {
    /// Vectors that are requested.
    Irr,
    /// Vectors in service.
    Isr,
    /// Level-triggered vectors.
    Tmr,
}

/// Writes the vectors of a register, parted by commas, `-` where there are none.
pub fn push_register(out: &mut Vec<u8>, lapic: &Lapic, register: Register) -> Result<(), AllocError>
    ensures { OnOk result (out.new.items ≡ out.old.items ++ vectors_text (members (register_of register lapic.now))) }
{
    let vectors = members(lapic, register);
    push_vectors(out, vectors.as_slice())
}

/// The vectors of a register, ascending.
#[tactic(auto, using(crate::proofs::MemberLemmas::members_none, crate::proofs::MemberLemmas::members_with, crate::proofs::MemberLemmas::members_without, crate::proofs::MemberLemmas::members_all))]
pub fn members(lapic: &Lapic, register: Register) -> ArrayVec<u8, 256>
    ensures { result.items ≡ members (register_of register lapic.now) }
{
    let mut vectors = ArrayVec::new();
    for vector in 0..256u16 {
        if has(lapic, register, vector as u8) {
            vectors.push(vector as u8);
        }
    }
    vectors
}

// whether the vector is in the register
fn has(lapic: &Lapic, register: Register, vector: u8) -> bool
    ensures { result ≡ has vector (register_of register lapic.now) }
{
    match register {
        Register::Irr => lapic.irr(vector),
        Register::Isr => lapic.isr(vector),
        Register::Tmr => lapic.tmr(vector),
    }
}

fn push_vectors(out: &mut Vec<u8>, vectors: &[u8]) -> Result<(), AllocError>
    ensures { OnOk result (out.new.items ≡ out.old.items ++ vectors_text vectors.now) }
{
    match vectors {
        [] => push_text(out, b"-"),
        [first, rest @ ..] => {
            if let Err(error) = push_hex(out, 2, *first as u64) {
                return Err(error);
            }
            push_further_vectors(out, rest)
        }
    }
}

// each after a comma
fn push_further_vectors(out: &mut Vec<u8>, vectors: &[u8]) -> Result<(), AllocError>
    ensures { OnOk result (out.new.items ≡ out.old.items ++ flat_map further_vector vectors.now) }
{
    for vector in vectors {
        if let Err(error) = push_further_vector(out, *vector) {
            return Err(error);
        }
    }
    Ok(())
}

fn push_further_vector(out: &mut Vec<u8>, vector: u8) -> Result<(), AllocError>
    ensures { OnOk result (out.new.items ≡ out.old.items ++ further_vector vector) }
{
    match push_text(out, b",") {
        Ok(()) => push_hex(out, 2, vector as u64),
        Err(error) => Err(error),
    }
}
