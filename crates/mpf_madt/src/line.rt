//! The lines of the ISA interrupts in a MADT (ACPI Specification, section 5.2.12.5).

ghost use Rattle.std.specs.Prelude.{◌≡◌};
ghost use Rattle.mpf_madt.specs.Lines.{first_some, override_of, isa_of};

use crate::madt::{Madt, MadtEntry};
use mpt_spec::IO_APIC_PINS;

/// How many global system interrupts each I/O APIC has, one for each pin.
pub(crate) const PINS: u32 = IO_APIC_PINS as u32;

/// The line of an interrupt.
#[derive(Clone, Copy, Debug, PartialEq, Eq)]
pub struct Line {
    /// The interrupt that it raises, 24 for each I/O APIC.
    pub gsi: u32,
    /// Level triggered, and not edge.
    pub level: bool,
    /// Active low, and not high.
    pub low: bool,
}

// the line of an override of an ISA interrupt
fn override_of(irq: u8, entry: &MadtEntry) -> Option<Line>
    ensures { result ≡ override_of irq entry.now }
{
    match entry {
        MadtEntry::Override {
            bus,
            source,
            gsi,
            flags,
        } if *bus == 0 && *source == irq => Some(Line {
            gsi: *gsi,
            level: *flags / 4 % 4 == 3,
            low: *flags % 4 == 3,
        }),
        _ => None,
    }
}

// the line of the first override of an ISA interrupt
fn first_override(irq: u8, entries: &[MadtEntry]) -> Option<Line>
    ensures { result ≡ first_some (override_of irq) entries.now }
{
    for entry in entries {
        if let Some(line) = override_of(irq, entry) {
            return Some(line);
        }
    }
    None
}

/// The line of an ISA interrupt: that of its first override, active low exactly where the polarity is
/// 11 and level triggered exactly where the trigger mode is 11; or else the interrupt of its own number,
/// edge and high.
pub fn isa(madt: &Madt, irq: u8) -> Line
    ensures { result ≡ isa_of madt.now irq }
{
    match first_override(irq, madt.entries.as_slice()) {
        Some(line) => line,
        None => Line {
            gsi: u32::from(irq),
            level: false,
            low: false,
        },
    }
}
