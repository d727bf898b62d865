//! The source bus IRQ of a PCI interrupt (MultiProcessor Specification 1.4, section D.3).

ghost use Rattle.std.specs.Prelude.{◌≡◌, ◌/◌, ◌%◌};

/// The interrupt pin of a PCI source bus IRQ, from 0 for INTA# to 3 for INTD#: bits 0 to 1.
pub fn pci_pin(irq: u8) -> u8
    ensures { result ≡ irq % 4 }
{
    irq % 4
}

/// The device number of a PCI source bus IRQ, from 0 to 31: bits 2 to 6.
pub fn pci_device(irq: u8) -> u8
    ensures { result ≡ irq / 4 % 32 }
{
    irq / 4 % 32
}
