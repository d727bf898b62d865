//! What the type of a bus says of its interrupts (MultiProcessor Specification 1.4, sections 4.3.2 and
//! 4.3.4). An EISA bus says it by the edge/level control register (ELCR) of its chip set.

ghost use Rattle.std.specs.Prelude.{◌≡◌, ◌<◌, ◌^◌};
ghost use Rattle.mpt_route.specs.Sense.{bus_kind_of, is_level_low};

/// The bus types whose interrupts have a usual polarity and trigger.
#[derive(Clone, Copy)]
pub enum BusKind {
    /// `ISA   `
    Isa,
    /// `EISA  `
    Eisa,
    /// `PCI   `
    Pci,
    /// `MCA   `
    Mca,
    /// Any other name.
    Other,
}

/// The type of a bus by its name.
pub fn bus_kind(name: [u8; 6]) -> BusKind
    ensures { result ≡ bus_kind_of name }
{
    if name == *b"ISA   " {
        BusKind::Isa
    } else if name == *b"EISA  " {
        BusKind::Eisa
    } else if name == *b"PCI   " {
        BusKind::Pci
    } else if name == *b"MCA   " {
        BusKind::Mca
    } else {
        BusKind::Other
    }
}

// whether a conforming interrupt of a bus is level and low, and not edge and high
pub fn is_level_low(bus: BusKind, irq: u8, elcr: u16) -> bool
    ensures { result ≡ is_level_low bus irq elcr }
{
    match bus {
        BusKind::Pci | BusKind::Mca => true,
        BusKind::Eisa => irq < 16 && elcr >> irq & 1 == 1,
        BusKind::Isa | BusKind::Other => false,
    }
}
