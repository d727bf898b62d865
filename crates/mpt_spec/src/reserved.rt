//! The reserved bits of floating pointers, headers and entries (MultiProcessor Specification 1.4, sections
//! 4.1 to 4.4): whether they are zero, and the same without them.

ghost use Rattle.std.specs.Prelude.{◌≡◌, ◌↔◌, IsTrue};
ghost use Rattle.mpt_spec.specs.Canonical.{HasClearPointerBits, HasClearBits, HasClearExtBits, HasClearHeader, canonical_pointer, canonical_base, canonical_ext};

use crate::entry::{Base, Ext, Hierarchy, IntEntry, IoApic, Modifier, Processor};
use crate::pointer::Pointer;
use crate::revision::OLD_REVISION;
use crate::tables::Table;

/// Bits 6 and 7 alone of feature byte 2 have a meaning: the multiples of this.
const FEATURE_2_UNIT: u8 = 64;

/// EN and BP: the flags of a processor without reserved bits are below this.
const PROCESSOR_FLAGS: u8 = 4;

/// EN: the flags of an I/O APIC without reserved bits are below this.
const IO_APIC_FLAGS: u8 = 2;

/// Polarity and trigger mode: the flags of an interrupt without reserved bits are below this.
const INTERRUPT_FLAGS: u16 = 16;

/// Subtractive decode: the information of a hierarchy without reserved bits is below this.
const HIERARCHY_INFO: u8 = 2;

/// The flags of a modifier without reserved bits are below this.
const MODIFIER_FLAGS: u8 = 2;

impl Pointer {
    /// Whether the reserved bits are zero: bits 0 to 5 of feature byte 2, and feature bytes 3 to 5.
    pub fn has_clear_bits(&self) -> bool
        ensures { IsTrue result ↔ HasClearPointerBits self.now }
    {
        self.features[1] % FEATURE_2_UNIT == 0
            && self.features[2] == 0
            && self.features[3] == 0
            && self.features[4] == 0
    }

    /// The floating pointer without its reserved bits.
    pub fn cleared(self) -> Pointer
        ensures { result ≡ canonical_pointer self }
    {
        let feature_2 = FEATURE_2_UNIT * (self.features[1] / FEATURE_2_UNIT);
        Pointer {
            features: [self.features[0], feature_2, 0, 0, 0],
            ..self
        }
    }
}

impl Base {
    /// Whether the reserved bits are zero.
    pub fn has_clear_bits(&self) -> bool
        ensures { IsTrue result ↔ HasClearBits self.now }
    {
        match self {
            Base::Processor(e) => e.flags < PROCESSOR_FLAGS && e.reserved == [0; 8],
            Base::Bus(_) => true,
            Base::IoApic(e) => e.flags < IO_APIC_FLAGS,
            Base::IoInt(e) => e.flags < INTERRUPT_FLAGS,
            Base::LocalInt(e) => e.flags < INTERRUPT_FLAGS,
        }
    }

    /// The entry without its reserved bits.
    pub fn cleared(self) -> Base
        ensures { result ≡ canonical_base self }
    {
        match self {
            Base::Processor(e) => Base::Processor(Processor {
                flags: e.flags % PROCESSOR_FLAGS,
                reserved: [0; 8],
                ..e
            }),
            Base::Bus(e) => Base::Bus(e),
            Base::IoApic(e) => Base::IoApic(IoApic {
                flags: e.flags % IO_APIC_FLAGS,
                ..e
            }),
            Base::IoInt(e) => Base::IoInt(IntEntry {
                flags: e.flags % INTERRUPT_FLAGS,
                ..e
            }),
            Base::LocalInt(e) => Base::LocalInt(IntEntry {
                flags: e.flags % INTERRUPT_FLAGS,
                ..e
            }),
        }
    }
}

impl Ext {
    /// Whether the reserved bits are zero.
    pub fn has_clear_bits(&self) -> bool
        ensures { IsTrue result ↔ HasClearExtBits self.now }
    {
        match self {
            Ext::Hierarchy(e) => e.info < HIERARCHY_INFO && e.reserved == [0; 3],
            Ext::Modifier(e) => e.flags < MODIFIER_FLAGS,
            _ => true,
        }
    }

    /// The entry without its reserved bits.
    pub fn cleared(self) -> Ext
        ensures { result ≡ canonical_ext self }
    {
        match self {
            Ext::Hierarchy(e) => Ext::Hierarchy(Hierarchy {
                info: e.info % HIERARCHY_INFO,
                reserved: [0; 3],
                ..e
            }),
            Ext::Modifier(e) => Ext::Modifier(Modifier {
                flags: e.flags % MODIFIER_FLAGS,
                ..e
            }),
            Ext::Space(e) => Ext::Space(e),
            Ext::Opaque(e) => Ext::Opaque(e),
        }
    }
}

impl Table {
    /// Whether the reserved bits of the header are zero: byte 43, or at revision 1 bytes 40 to 43.
    pub fn has_clear_header(&self) -> bool
        ensures { IsTrue result ↔ HasClearHeader self.now }
    {
        if self.revision == OLD_REVISION {
            self.old == [0; 4]
        } else {
            self.reserved == 0
        }
    }
}
