//! The lines for a table of firmware that is refused, or can't be made.

ghost use Rattle.std.specs.Prelude.{◌≡◌, ◌≢◌, ◌∷◌, [], map, decimal, IfOk};
ghost use Rattle.mpt_listing.specs.Listing.{line};
ghost use Rattle.mpt_listing.specs.Part.{part_text};
ghost use Rattle.mpf_madt.specs.Faults.{madt_reason_number};
ghost use Rattle.mpf_pir.specs.Faults.{pir_reason_number};
ghost use Rattle.mpf_pir.specs.declared.making.MakeFault.TheVariants as unmade;
ghost use Rattle.mpf_answers.specs.FaultLines.{madt_reason_name, pir_reason_name, madt_fault_line, pir_fault_line, many_processors_line, make_fault_line};

use mpf_madt::MadtReason;
use mpf_pir::{MakeFault, PirReason};
use mpt_base::NoMemory;
use mpt_listing::{Part, push_line};
use std::alloc::Global;

// a text of one line
fn line_of(alloc: Global, parts: &[Part]) -> Result<Vec<u8>, NoMemory>
    ensures { IfOk result (λ text. text.items ≡ line (map part_text parts.now)) }
{
    let mut text = Vec::new(alloc);
    match push_line(&mut text, parts) {
        Ok(()) => Ok(text),
        Err(_) => Err(NoMemory),
    }
}

// a line that ends with a count
fn count_line(alloc: Global, text: &[u8], n: u32) -> Result<Vec<u8>, NoMemory>
    ensures { IfOk result (λ t. t.items ≡ line (text.now ∷ decimal n ∷ [])) }
{
    line_of(alloc, &[Part::Text(text), Part::Decimal(u64::from(n))])
}

/// The line for a MADT that is refused: number and name of the reason, and the offset in the file.
pub fn madt_fault_line(alloc: Global, at: u64, why: MadtReason) -> Result<Vec<u8>, NoMemory>
    ensures { IfOk result (λ text. text.items ≡ madt_fault_line at why) }
{
    line_of(
        alloc,
        &[
            Part::Text(b"mptab: madt fault "),
            Part::Decimal(u64::from(madt_number(why))),
            Part::Text(b" "),
            Part::Text(madt_name(why)),
            Part::Text(b" at "),
            Part::Hex(8, at),
        ],
    )
}

fn madt_number(why: MadtReason) -> u8
    ensures { result ≡ madt_reason_number why }
{
    why as u8
}

fn madt_name(why: MadtReason) -> &'static [u8]
    ensures { result.now ≡ madt_reason_name why }
{
    match why {
        MadtReason::Short => b"Short",
        MadtReason::BadSignature => b"BadSignature",
        MadtReason::BadLength => b"BadLength",
        MadtReason::BadSum => b"BadSum",
        MadtReason::CutEntry => b"CutEntry",
        MadtReason::BadEntryLength => b"BadEntryLength",
    }
}

/// The line for a platform of which no MADT is made: how many processors it has.
pub fn many_processors_line(alloc: Global, n: u32) -> Result<Vec<u8>, NoMemory>
    ensures { IfOk result (λ text. text.items ≡ many_processors_line n) }
{
    count_line(alloc, b"mptab: madt many processors ", n)
}

/// The line for a PCI IRQ routing table that is refused: number and name of the reason, and the offset in
/// the file.
pub fn pir_fault_line(alloc: Global, at: u64, why: PirReason) -> Result<Vec<u8>, NoMemory>
    ensures { IfOk result (λ text. text.items ≡ pir_fault_line at why) }
{
    line_of(
        alloc,
        &[
            Part::Text(b"mptab: pir fault "),
            Part::Decimal(u64::from(pir_number(why))),
            Part::Text(b" "),
            Part::Text(pir_name(why)),
            Part::Text(b" at "),
            Part::Hex(8, at),
        ],
    )
}

fn pir_number(why: PirReason) -> u8
    ensures { result ≡ pir_reason_number why }
{
    why as u8
}

fn pir_name(why: PirReason) -> &'static [u8]
    ensures { result.now ≡ pir_reason_name why }
{
    match why {
        PirReason::Short => b"Short",
        PirReason::BadSignature => b"BadSignature",
        PirReason::BadVersion => b"BadVersion",
        PirReason::BadSize => b"BadSize",
        PirReason::BadSum => b"BadSum",
    }
}

/// The line for a platform of which no PCI IRQ routing table is made: how many slots or links it would
/// have. Want of memory has none, and is answered by itself.
pub fn make_fault_line(alloc: Global, fault: MakeFault) -> Result<Vec<u8>, NoMemory>
    ensures line { IfOk result (λ text. text.items ≡ make_fault_line fault) }
    ensures fault { IfOk result (λ _. fault ≢ unmade.NoMemory) }
{
    match fault {
        MakeFault::ManySlots { n } => count_line(alloc, b"mptab: pir many slots ", n),
        MakeFault::ManyLinks { n } => count_line(alloc, b"mptab: pir many links ", n),
        MakeFault::NoMemory => Err(NoMemory),
    }
}
