//! The audit rules.

/// A rule on the whole table.
#[derive(Clone, Copy)]
pub enum TableRule {
    /// No processor has EN and BP.
    NoBootProcessor,
    /// No I/O APIC has EN.
    NoIoApic,
    /// A reserved bit of the pointer or the header is set.
    ReservedHeaderBits,
    /// The revisions of the pointer and the header differ.
    TwoRevisions,
}

/// A rule on a base entry.
#[derive(Clone, Copy)]
pub enum BaseRule {
    /// A processor has BP, and an earlier one has too.
    SecondBootFlag,
    /// A processor has BP and not EN.
    DisabledBoot,
    /// An earlier processor has the same id.
    DuplicateProcessorId,
    /// An earlier I/O APIC has the same id.
    DuplicateIoApicId,
    /// A processor has the id of this I/O APIC.
    SharedId,
    /// The bus entry after k others hasn't the id k.
    BusOutOfOrder,
    /// The bus type is none of the known ones.
    UnknownBusName,
    /// The type is below that of the entry before.
    TypeBelow,
    /// No bus has the source bus id.
    UnknownBus,
    /// Nobody has the destination's id.
    UnknownDestination,
    /// INTIN is above 23, or LINTIN above 1.
    PinOutOfRange,
    /// A reserved bit is set.
    ReservedBits,
    /// A reserved value of kind, polarity, trigger or a PCI IRQ.
    ReservedValue,
    /// An earlier I/O interrupt has the same source.
    DuplicateSource,
    /// An earlier I/O interrupt has the same pin, and another kind or other flags.
    OtherSense,
}

/// A rule on an extended entry.
#[derive(Clone, Copy)]
pub enum ExtRule {
    /// A reserved bit or value.
    ReservedExt,
    /// A range passes 2^64.
    RangePastTop,
    /// An earlier range of the same kind meets this one.
    MeetingRange,
    /// No bus has the id or the parent.
    UnknownExtBus,
    /// The buses above this one come round to it.
    BusLoop,
}

/// An audit rule.
#[derive(Clone, Copy)]
pub enum Rule {
    /// On the whole table.
    Table(TableRule),
    /// On a base entry.
    Base(BaseRule),
    /// On an extended entry.
    Ext(ExtRule),
}

/// A finding: the rule's number, the entry and the other entry that it names, 65,535 where there is none.
#[derive(Clone, Copy, PartialEq, Eq)]
pub struct Finding {
    /// The rule, from 1 to 24.
    pub rule: u8,
    /// The entry.
    pub entry: u32,
    /// The other entry.
    pub other: u32,
}
