//! What the fields of an interrupt entry say (MultiProcessor Specification 1.4, section 4.3.4).

ghost use Rattle.std.specs.Prelude.{◌≡◌};
ghost use Rattle.mpt_spec.specs.Interrupts.{kind_of, polarity_of, trigger_of};

use crate::entry::IntEntry;

/// The interrupt type of an entry.
#[derive(Clone, Copy)]
pub enum Kind {
    /// A vectored interrupt.
    Int,
    /// A nonmaskable interrupt.
    Nmi,
    /// A system management interrupt.
    Smi,
    /// A vectored interrupt whose vector an external 8259A gives.
    ExtInt,
}

/// The polarity of an interrupt input.
#[derive(Clone, Copy)]
pub enum Polarity {
    /// As the source bus has it.
    Conforms,
    /// Active high.
    High,
    /// The reserved value 10.
    Reserved,
    /// Active low.
    Low,
}

/// The trigger mode of an interrupt input.
#[derive(Clone, Copy)]
pub enum Trigger {
    /// As the source bus has it.
    Conforms,
    /// Edge triggered.
    Edge,
    /// The reserved value 10.
    Reserved,
    /// Level triggered.
    Level,
}

impl IntEntry {
    /// The interrupt type, `None` exactly where the kind byte is above 3.
    pub fn int_kind(&self) -> Option<Kind>
        ensures { result ≡ kind_of self.now.kind }
    {
        match self.kind {
            0 => Some(Kind::Int),
            1 => Some(Kind::Nmi),
            2 => Some(Kind::Smi),
            3 => Some(Kind::ExtInt),
            _ => None,
        }
    }

    /// The polarity, bits 0 to 1 of the flags.
    pub fn polarity(&self) -> Polarity
        ensures { result ≡ polarity_of self.now.flags }
    {
        match self.flags % 4 {
            0 => Polarity::Conforms,
            1 => Polarity::High,
            2 => Polarity::Reserved,
            _ => Polarity::Low,
        }
    }

    /// The trigger mode, bits 2 to 3 of the flags.
    pub fn trigger(&self) -> Trigger
        ensures { result ≡ trigger_of self.now.flags }
    {
        match self.flags / 4 % 4 {
            0 => Trigger::Conforms,
            1 => Trigger::Edge,
            2 => Trigger::Reserved,
            _ => Trigger::Level,
        }
    }
}
