//! The base entries (MultiProcessor Specification 1.4, section 4.3, figures 4-4 to 4-8).

ghost use Rattle.std.specs.Prelude.{◌≡◌, ◌+◌, ◌≤◌, ◌<◌, ℕ, List, length, slice_index, IfOk, IfErr};
ghost use Rattle.mpt_base.specs.declared.fault.Reason.{Reason};
ghost use Rattle.mpt_spec.specs.declared.entry.Base.{Base};
ghost use Rattle.mpt_spec.specs.Entries.{IsProcessorAt, IsBusAt, IsIoApicAt, IsInterruptAt, IsBaseEntryAt, AreBaseEntries, IsBaseFaultIn, base_length};
ghost use Rattle.mpt_entries.specs.Answers.{IfFault, AnswersEntries, AnswersFault};

use crate::layouts::{bus_layout, interrupt_layout, io_apic_layout, processor_layout};
use crate::stop::{Stop, fault_at};
use mpt_base::{Fault, Reason, read_fields};
use mpt_spec::{Base, Bus, IntEntry, IoApic, Processor};
use std::alloc::Global;

/// The type byte of a processor entry.
pub(crate) const PROCESSOR: u8 = 0;
/// The type byte of a bus entry.
pub(crate) const BUS: u8 = 1;
/// The type byte of an I/O APIC entry.
pub(crate) const IO_APIC: u8 = 2;
/// The type byte of an I/O interrupt assignment entry.
pub(crate) const IO_INTERRUPT: u8 = 3;
/// The type byte of a local interrupt assignment entry.
pub(crate) const LOCAL_INTERRUPT: u8 = 4;
/// The length of a processor entry in bytes.
const PROCESSOR_LENGTH: usize = 20;
/// The length of any other base entry in bytes.
const OTHER_LENGTH: usize = 8;

fn processor_at(bytes: &[u8], at: usize) -> Processor
    requires inside { at + 20 ≤ length bytes.now }
    requires type_byte { slice_index bytes.now at ≡ 0 }
    ensures { IsProcessorAt result bytes.now at }
{
    processor_layout!(read_fields, bytes, at)
}

fn bus_at(bytes: &[u8], at: usize) -> Bus
    requires inside { at + 8 ≤ length bytes.now }
    requires type_byte { slice_index bytes.now at ≡ 1 }
    ensures { IsBusAt result bytes.now at }
{
    bus_layout!(read_fields, bytes, at)
}

fn io_apic_at(bytes: &[u8], at: usize) -> IoApic
    requires inside { at + 8 ≤ length bytes.now }
    requires type_byte { slice_index bytes.now at ≡ 2 }
    ensures { IsIoApicAt result bytes.now at }
{
    io_apic_layout!(read_fields, bytes, at)
}

fn interrupt_at(bytes: &[u8], at: usize) -> IntEntry
    requires inside { at + 8 ≤ length bytes.now }
    ensures { IsInterruptAt (slice_index bytes.now at) result bytes.now at }
{
    interrupt_layout!(read_fields, bytes, at)
}

fn length_of(entry: &Base) -> usize
    ensures { result ≡ base_length entry.now }
{
    match entry {
        Base::Processor(_) => PROCESSOR_LENGTH,
        _ => OTHER_LENGTH,
    }
}

// the entry at `at` of those that end at `to`, or the fault there
fn entry_at(bytes: &[u8], at: usize, to: usize) -> Result<Base, Fault>
    requires more { at < to }
    requires inside { to ≤ length bytes.now }
    ensures entry { IfOk result (λ e. IsBaseEntryAt e bytes.now at) }
    ensures whole { IfOk result (λ e. at + base_length e ≤ to) }
    ensures fault { IfErr result (λ f. IsBaseFaultIn bytes.now at to f.at f.why) }
{
    let left = to - at;
    match bytes[at] {
        PROCESSOR if left >= PROCESSOR_LENGTH => Ok(Base::Processor(processor_at(bytes, at))),
        BUS if left >= OTHER_LENGTH => Ok(Base::Bus(bus_at(bytes, at))),
        IO_APIC if left >= OTHER_LENGTH => Ok(Base::IoApic(io_apic_at(bytes, at))),
        IO_INTERRUPT if left >= OTHER_LENGTH => Ok(Base::IoInt(interrupt_at(bytes, at))),
        LOCAL_INTERRUPT if left >= OTHER_LENGTH => Ok(Base::LocalInt(interrupt_at(bytes, at))),
        PROCESSOR..=LOCAL_INTERRUPT => Err(fault_at(at, Reason::CutEntry)),
        _ => Err(fault_at(at, Reason::UnknownEntry)),
    }
}

/// The base entries that stand end to end from `from` to `to`, with nothing left; or the fault of the
/// first that is of no known type or passes `to`. A fault's place is an offset in `bytes`.
pub fn read_base(alloc: Global, bytes: &[u8], from: usize, to: usize) -> Result<Vec<Base>, Stop>
    requires order { from ≤ to }
    requires inside { to ≤ length bytes.now }
    ensures entries { IfOk result (λ es. AreBaseEntries es.items bytes.now from to) }
    ensures fault { IfFault result (λ f. IsBaseFaultIn bytes.now from to f.at f.why) }
    ensures only_entries { (es : List Base) → AreBaseEntries es bytes.now from to → AnswersEntries result es }
    ensures only_fault { (k : ℕ) (why : Reason) → IsBaseFaultIn bytes.now from to k why → AnswersFault result k why }
{
    let mut entries = Vec::new(alloc);
    let mut at = from;
    while at < to {
        let entry = match entry_at(bytes, at, to) {
            Ok(entry) => entry,
            Err(fault) => return Err(Stop::Fault(fault)),
        };
        at += length_of(&entry);
        let Ok(()) = entries.push(entry) else {
            return Err(Stop::NoMemory);
        };
    }
    Ok(entries)
}
