//! Who makes a step of a board, and what steps there are (this project's own).

/// The longest pause of a script in microseconds, a second.
pub const LONGEST_PAUSE: u32 = 1_000_000;

/// Who makes a step. Processors come before I/O APICs, these before devices, each by number.
#[derive(Clone, Copy, Debug, PartialEq)]
pub enum Agent {
    /// The processor with this local APIC id.
    Cpu(u8),
    /// The I/O APIC at this place: the number of enabled I/O APICs before it.
    Io(u8),
    /// The device of this number.
    Dev(u8),
}

/// One operation of an agent: processors make those up to `Pause`, devices those from `Begin` to
/// `End`, I/O APICs the rest.
#[derive(Clone, Copy, PartialEq)]
pub enum Op {
    /// Connects the APICs by the interrupt mode register: 70h to port 22h, 01h to port 23h
    /// (MultiProcessor Specification 1.4, section 3.6.2.1).
    Imcr,
    /// Sets the warm-reset vector to this page, for 40:67h and CMOS shutdown code 0Ah
    /// (MultiProcessor Specification 1.4, appendix B.4).
    Warm(u8),
    /// An INIT message to this destination.
    Init(u8),
    /// A STARTUP message to this destination, with the page at which it starts.
    Startup(u8, u8),
    /// Looks whether the processor with this id runs.
    Check(u8),
    /// A fixed message: its destination, 255 for all, and its vector.
    Ipi(u8, u8),
    /// A fixed message to a logical destination: that, and its vector.
    Ipl(u8, u8),
    /// An NMI message to this destination, 255 for all.
    Nmi(u8),
    /// Takes the next interrupt, and waits until there is one.
    Take,
    /// Takes the next interrupt, where there is one.
    Poll,
    /// Ends the interrupt in service.
    Eoi,
    /// Sets the task priority.
    Tpr(u8),
    /// Sets the logical destination: bits 31:24 of the LDR.
    Ldr(u8),
    /// Sets the model of logical destinations, 15 for flat or 0 for cluster: bits 31:28 of the DFR.
    Dfr(u8),
    /// Selects a register: the place of the I/O APIC, and the index.
    IoSel(u8, u8),
    /// Writes the selected register: the place of the I/O APIC, and the value.
    IoWin(u8, u32),
    /// Reads the selected register of the I/O APIC at this place.
    IoRead(u8),
    /// Waits this many microseconds.
    Pause(u32),
    /// A device begins, once the boot program is through.
    Begin,
    /// Asserts a line: the place of the I/O APIC, and the pin, below 24.
    High(u8, u8),
    /// Releases a line: the place of the I/O APIC, and the pin, below 24.
    Low(u8, u8),
    /// A device ends.
    End,
    /// An I/O APIC collects pulses on these pins, bit n for pin n.
    Collect(u32),
    /// It sends the message of this pin, below 24.
    Send(u8),
    /// It has nothing more to collect.
    Sweep,
}

/// What an agent is offered to do next.
#[derive(Clone, Copy)]
pub enum Offer {
    /// The next op of its program; of an I/O APIC the send of its least due pin.
    Next,
    /// A collection of these pins, bit n for pin n.
    Collect(u32),
    /// A sweep.
    Sweep,
}
