//! Entries by kind, while they are gathered. What gathers them has no other list at hand, so that a
//! want of memory drops nothing there.

ghost use Rattle.std.specs.Prelude.{◌≡◌, ◌++◌, ◌∷◌, [], List, OnOk};
ghost use Rattle.mpt_spec.specs.declared.entry.Base.{Base as BaseOf};
ghost use Rattle.mpt_route.specs.ByKind.{AreByKind, platform_with};

use crate::platform::Platform;
use mpt_spec::{Base, Bus, IntEntry, IoApic, Processor, Sequence};
use std::alloc::{AllocError, Global};

/// Entries by kind.
#[derive(Drop)]
pub struct ByKind {
    /// The processors.
    pub processors: Vec<Processor>,
    /// The buses.
    pub buses: Vec<Bus>,
    /// The I/O APICs.
    pub ios: Vec<IoApic>,
    /// The I/O interrupts.
    pub ints: Vec<IntEntry>,
    /// The local interrupts.
    pub lints: Vec<IntEntry>,
}

/// No entries.
pub fn no_entries(alloc: Global) -> ByKind
    ensures { AreByKind [] result }
{
    ByKind {
        processors: Vec::new(alloc),
        buses: Vec::new(alloc),
        ios: Vec::new(alloc),
        ints: Vec::new(alloc),
        lints: Vec::new(alloc),
    }
}

// one entry more
fn gather_entry(kinds: &mut ByKind, entry: Base) -> Result<(), AllocError>
    ensures { OnOk result ((es : List BaseOf) → AreByKind es kinds.old → AreByKind (es ++ entry ∷ []) kinds.new) }
{
    match entry {
        Base::Processor(e) => {
            let Ok(()) = kinds.processors.push(e) else {
                return Err(AllocError);
            };
        }
        Base::Bus(e) => {
            let Ok(()) = kinds.buses.push(e) else {
                return Err(AllocError);
            };
        }
        Base::IoApic(e) => {
            let Ok(()) = kinds.ios.push(e) else {
                return Err(AllocError);
            };
        }
        Base::IoInt(e) => {
            let Ok(()) = kinds.ints.push(e) else {
                return Err(AllocError);
            };
        }
        Base::LocalInt(e) => {
            let Ok(()) = kinds.lints.push(e) else {
                return Err(AllocError);
            };
        }
    }
    Ok(())
}

/// Puts entries where there are none yet, each by its kind.
pub fn gather(kinds: &mut ByKind, entries: &[Base]) -> Result<(), AllocError>
    requires { AreByKind [] kinds.old }
    ensures { OnOk result (AreByKind entries.now kinds.new) }
{
    for entry in entries {
        let Ok(()) = gather_entry(kinds, *entry) else {
            return Err(AllocError);
        };
    }
    Ok(())
}

/// The platform with these entries.
pub fn platform_with(kinds: ByKind, imcr: bool, local_address: u32) -> Platform
    ensures { result ≡ platform_with kinds imcr local_address }
{
    Platform {
        processors: Sequence::new(kinds.processors),
        buses: Sequence::new(kinds.buses),
        ios: Sequence::new(kinds.ios),
        ints: Sequence::new(kinds.ints),
        lints: Sequence::new(kinds.lints),
        imcr,
        local_address,
    }
}
