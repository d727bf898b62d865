//! What the low bits of the flags say (MultiProcessor Specification 1.4, sections 4.3.1 and 4.3.3).

ghost use Rattle.std.specs.Prelude.{◌≡◌};
ghost use Rattle.mpt_spec.specs.Flags.{is_enabled_processor, has_boot_flag, is_boot_processor, is_disabled_boot, is_enabled_io_apic};

use crate::entry::{IoApic, Processor};

impl Processor {
    /// Whether the processor is usable: EN, bit 0 of the flags.
    pub fn is_enabled(&self) -> bool
        ensures { result ≡ is_enabled_processor self.now }
    {
        self.flags % 2 == 1
    }

    /// Whether BP, bit 1 of the flags, is set.
    pub fn has_boot_flag(&self) -> bool
        ensures { result ≡ has_boot_flag self.now }
    {
        self.flags / 2 % 2 == 1
    }

    /// Whether the processor is usable and boots: EN and BP.
    pub fn is_boot_processor(&self) -> bool
        ensures { result ≡ is_boot_processor self.now }
    {
        self.flags % 4 == 3
    }

    /// Whether the processor has BP and isn't usable.
    pub fn is_disabled_boot(&self) -> bool
        ensures { result ≡ is_disabled_boot self.now }
    {
        self.flags % 4 == 2
    }
}

impl IoApic {
    /// Whether the I/O APIC is usable: EN, bit 0 of the flags.
    pub fn is_enabled(&self) -> bool
        ensures { result ≡ is_enabled_io_apic self.now }
    {
        self.flags % 2 == 1
    }
}
