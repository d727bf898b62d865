//! From a platform and its routes to a MADT that says the same (MultiProcessor Specification 1.4,
//! section 4.3; ACPI Specification, section 5.2.12).

ghost use Rattle.std.specs.Prelude.{◌≡◌, ◌<◌, ◌≤◌, ◌++◌, ℕ, length, position, ◌==◌, Err, IfOk, IfErr, IfSome, OnOk};
ghost use Rattle.mpf_madt.specs.Lawful.{IsLawfulMadt};
ghost use Rattle.mpf_madt.specs.Translation.{is_plain, flags_of, override_for, uid_of, nmi_of, locals_of, ios_of, overrides_of, nmis_of, apics_of, interrupts_of, madt_of};
ghost use Rattle.mpt_route.specs.Platform.{IsSmallPlatform};
ghost use Rattle.mpf_madt.specs.Causes.{IsTranslateCause};
ghost use Rattle.mpf_madt.specs.declared.translation.TranslateFault.TheVariants as fault;

use crate::line::{Line, PINS};
use crate::madt::{Madt, MadtEntry};
use crate::routed::source;
use mpt_route::{Answer, Platform};
use mpt_spec::{ALL_APICS, IntEntry, IoApic, Processor, Sequence};
use std::alloc::{AllocError, Global};

/// The most processors of which a MADT has place for a UID each.
const MOST_PROCESSORS: usize = 255;
/// The kind of an interrupt entry for an NMI.
const NMI: u8 = 1;

/// Why a platform has no MADT.
#[derive(Clone, Copy, Debug, PartialEq, Eq)]
pub enum TranslateFault {
    /// There are more than 255 processors.
    ManyProcessors {
        /// How many there are.
        n: u32,
    },
    /// Memory ran out.
    NoMemory,
}

// each processor, its place its UID
fn locals(alloc: Global, processors: &[Processor]) -> Result<Vec<MadtEntry>, AllocError>
    requires few { length processors.now ≤ 255 }
    ensures { IfOk result (λ es. es.items ≡ locals_of processors.now) }
{
    let mut locals = Vec::new(alloc);
    for e in processors {
        let uid = locals.len() as u8;
        let local = MadtEntry::Local {
            uid,
            apic: e.apic,
            flags: u32::from(e.flags % 2),
        };
        let Ok(()) = locals.push(local) else {
            return Err(AllocError);
        };
    }
    Ok(locals)
}

// each enabled I/O APIC, with the interrupt of its pin 0
fn ios(alloc: Global, ios: &[IoApic]) -> Result<Vec<MadtEntry>, AllocError>
    requires few { length ios.now < 32768 }
    ensures { IfOk result (λ es. es.items ≡ ios_of ios.now) }
{
    let mut entries = Vec::new(alloc);
    for io in ios {
        if io.is_enabled() {
            let place = entries.len() as u32;
            let entry = MadtEntry::Io {
                id: io.id,
                reserved: 0,
                address: io.address,
                base: PINS * place,
            };
            let Ok(()) = entries.push(entry) else {
                return Err(AllocError);
            };
        }
    }
    Ok(entries)
}

// the flags of a line
fn flags_of(line: Line) -> u16
    ensures { result ≡ flags_of line }
{
    let polarity = if line.low { 3 } else { 1 };
    let trigger = if line.level { 3 } else { 1 };
    polarity + 4 * trigger
}

// whether a line is that which an interrupt has without an override
fn is_plain(irq: u8, line: Line) -> bool
    ensures { result ≡ is_plain irq line }
{
    line.gsi == u32::from(irq) && !line.level && !line.low
}

// the override that an ISA interrupt with this line needs
fn override_for(irq: u8, line: Option<Line>) -> Option<MadtEntry>
    ensures { result ≡ override_for irq line }
{
    match line {
        Some(line) if !is_plain(irq, line) => Some(MadtEntry::Override {
            bus: 0,
            source: irq,
            gsi: line.gsi,
            flags: flags_of(line),
        }),
        _ => None,
    }
}

// appends an override for each ISA interrupt that needs one
fn push_overrides(
    out: &mut Vec<MadtEntry>,
    p: &Platform,
    answers: &[Answer],
) -> Result<(), AllocError>
    ensures { OnOk result (out.new.items ≡ out.old.items ++ overrides_of p.now answers.now) }
{
    for irq in 0..16u8 {
        if let Some(entry) = override_for(irq, source(p, answers, irq)) {
            let Ok(()) = out.push(entry) else {
                return Err(AllocError);
            };
        }
    }
    Ok(())
}

// the place of the first processor with this id
fn place_of(processors: &[Processor], id: u8) -> Option<usize>
    ensures value { result ≡ position (λ x. x.apic == id) processors.now }
    ensures within { IfSome result (λ place. place < length processors.now) }
{
    processors.iter().position(|x| x.apic == id)
}

// the UID of a destination
fn uid_of(processors: &[Processor], dest: u8) -> Option<u8>
    requires few { length processors.now ≤ 255 }
    ensures { result ≡ uid_of processors.now dest }
{
    if dest == ALL_APICS {
        return Some(ALL_APICS);
    }
    match place_of(processors, dest) {
        Some(place) => Some(place as u8),
        None => None,
    }
}

// the NMI of a local interrupt entry
fn nmi_of(processors: &[Processor], e: IntEntry) -> Option<MadtEntry>
    requires few { length processors.now ≤ 255 }
    ensures { result ≡ nmi_of processors.now e }
{
    if e.kind != NMI {
        return None;
    }
    match uid_of(processors, e.dest) {
        Some(uid) => Some(MadtEntry::Nmi {
            uid,
            flags: e.flags % 16,
            lint: e.pin,
        }),
        None => None,
    }
}

// appends each local NMI to a processor
fn push_nmis(
    out: &mut Vec<MadtEntry>,
    processors: &[Processor],
    lints: &[IntEntry],
) -> Result<(), AllocError>
    requires few { length processors.now ≤ 255 }
    ensures { OnOk result (out.new.items ≡ out.old.items ++ nmis_of processors.now lints.now) }
{
    for e in lints {
        if let Some(entry) = nmi_of(processors, *e) {
            let Ok(()) = out.push(entry) else {
                return Err(AllocError);
            };
        }
    }
    Ok(())
}

// the entries of both, in their order
fn joined(mut front: Vec<MadtEntry>, mut back: Vec<MadtEntry>) -> Result<Vec<MadtEntry>, AllocError>
    ensures { IfOk result (λ es. es.items ≡ front.items ++ back.items) }
{
    match front.append(&mut back) {
        Ok(()) => Ok(front),
        Err(_) => Err(AllocError),
    }
}

// the APICs
fn apics(alloc: Global, p: &Platform) -> Result<Vec<MadtEntry>, AllocError>
    requires few { length p.now.processors ≤ 255 }
    requires small { IsSmallPlatform p.now }
    ensures { IfOk result (λ es. es.items ≡ apics_of p.now) }
{
    let Ok(locals) = locals(alloc, p.processors.as_slice()) else {
        return Err(AllocError);
    };
    let Ok(ios) = ios(alloc, p.ios.as_slice()) else {
        return Err(AllocError);
    };
    match joined(locals, ios) {
        Ok(apics) => Ok(apics),
        Err(_) => Err(AllocError),
    }
}

// appends the interrupts
fn push_interrupts(
    out: &mut Vec<MadtEntry>,
    p: &Platform,
    answers: &[Answer],
) -> Result<(), AllocError>
    requires few { length p.now.processors ≤ 255 }
    ensures { OnOk result (out.new.items ≡ out.old.items ++ interrupts_of p.now answers.now) }
{
    let Ok(()) = push_overrides(out, p, answers) else {
        return Err(AllocError);
    };
    push_nmis(out, p.processors.as_slice(), p.lints.as_slice())
}

// the entries, in their order
fn entries(alloc: Global, p: &Platform, answers: &[Answer]) -> Result<Vec<MadtEntry>, AllocError>
    requires few { length p.now.processors ≤ 255 }
    requires small { IsSmallPlatform p.now }
    ensures { IfOk result (λ es. es.items ≡ apics_of p.now ++ interrupts_of p.now answers.now) }
{
    let Ok(mut entries) = apics(alloc, p) else {
        return Err(AllocError);
    };
    match push_interrupts(&mut entries, p, answers) {
        Ok(()) => Ok(entries),
        Err(_) => Err(AllocError),
    }
}

/// The table that says what the platform and its routes say: each processor, each enabled I/O APIC, an
/// override for each ISA interrupt that isn't edge and high on the interrupt of its own number, and each
/// local NMI to a processor. The platform has fewer than 32,768 entries of each kind. It takes memory
/// for the entries alone.
pub fn translate(alloc: Global, p: &Platform, answers: &[Answer]) -> Result<Madt, TranslateFault>
    requires small { IsSmallPlatform p.now }
    ensures table { IfOk result (λ m. m ≡ madt_of p.now answers.now) }
    ensures lawful { IfOk result (λ m. IsLawfulMadt m) }
    ensures cause { IfErr result (λ f. IsTranslateCause p.now f) }
    ensures only_many { 255 < length p.now.processors → result ≡ Err (fault.ManyProcessors (length p.now.processors)) }
{
    let count = p.processors.as_slice().len();
    if count > MOST_PROCESSORS {
        return Err(TranslateFault::ManyProcessors { n: count as u32 });
    }
    match entries(alloc, p, answers) {
        Ok(entries) => Ok(Madt {
            revision: 1,
            oem: *b"MPTAB ",
            table: *b"MPTABLE ",
            oem_revision: 1,
            creator: *b"MPTB",
            creator_revision: 1,
            local_address: p.local_address,
            flags: 1,
            entries: Sequence::new(entries),
        }),
        Err(_) => Err(TranslateFault::NoMemory),
    }
}
