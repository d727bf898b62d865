//! The tables of firmware that say what the usual board's tables say, and the files beside them.

use mptab_cases::usual::{END, FIRST, POINTER};

/// The MADT that says what the board says.
pub(crate) const MADT: &[u8] =
    b"APIC\x58\x00\x00\x00\x01\xC1MPTAB MPTABLE \x01\x00\x00\x00MPTB\x01\x00\x00\x00\x00\x00\xE0\xFE\x01\x00\x00\x00\x00\x08\x00\x00\x01\x00\x00\x00\x00\x08\x01\x01\x01\x00\x00\x00\x01\x0C\x00\x00\x00\x00\xC0\xFE\x00\x00\x00\x00\x02\x0A\x00\x00\x02\x00\x00\x00\x05\x00\x04\x06\xFF\x00\x00\x01";

/// The PCI IRQ routing table that says what the board says.
pub(crate) const PIR: &[u8] =
    b"$PIR\x00\x01\x30\x00\x00\x00\x00\x00\x00\x00\x00\x00\x00\x00\x00\x00\x00\x00\x00\x00\x00\x00\x00\x00\x00\x00\x00\xAF\x00\x10\x01\x00\x00\x00\x00\x00\x00\x00\x00\x00\x00\x00\x00\x00";

/// Two processors, and nothing else.
pub(crate) const TWO_PROCESSORS: &[&str] = &[
    FIRST,
    POINTER,
    "header revision 04 oem \"MPTAB   \" product \"BOARD       \" oemtable 00000000 oemsize 0000 local FEE00000 reserved 00
processor id 00 version 10 flags 03 signature 00000000 features 00000000 reserved 0000000000000000
processor id 01 version 10 flags 01 signature 00000000 features 00000000 reserved 0000000000000000
",
    END,
];

/// A script without words.
pub(crate) const SCRIPT: &[u8] = b"page = 0x9F\n";

/// Calls: both controllers are initialized, lines 1 and 12 rise, and INTR is acknowledged three times.
pub(crate) const CALLS: &[u8] = b"out 20 11
out 21 20
out 21 04
out 21 01
out A0 11
out A1 28
out A1 02
out A1 01
irq 1 up
irq 12 up
ack
ack
out 20 20
ack
out 20 0B
in 20
";
