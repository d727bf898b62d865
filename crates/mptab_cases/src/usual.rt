//! A usual board of two processors, as a listing in parts: lines can be put between them, or left out. Its routes.
//! Long texts are given by functions: a constant is proved anew wherever it is named.

/// The first line.
pub const FIRST: &str = "mptable 1\n";

/// The line of its floating pointer.
pub const POINTER: &str = "pointer at 000F0000 table 000F0010 revision 04 features 0000000000\n";

/// The same, with an interrupt mode register.
pub const IMCR_POINTER: &str =
    "pointer at 000F0000 table 000F0010 revision 04 features 0080000000\n";

/// Up to the last I/O interrupt.
pub const TO_INTERRUPTS: &str =
    "header revision 04 oem \"MPTAB   \" product \"BOARD       \" oemtable 00000000 oemsize 0000 local FEE00000 reserved 00
processor id 00 version 14 flags 03 signature 00000600 features 00000201 reserved 0000000000000000
processor id 01 version 14 flags 01 signature 00000600 features 00000201 reserved 0000000000000000
bus id 00 name \"PCI   \"
bus id 01 name \"ISA   \"
ioapic id 00 version 11 flags 01 address FEC00000
ioint kind 00 flags 0000 bus 00 irq 08 dest 00 pin 10
ioint kind 03 flags 0000 bus 01 irq 00 dest 00 pin 00
ioint kind 00 flags 0000 bus 01 irq 00 dest 00 pin 02
ioint kind 00 flags 0000 bus 01 irq 01 dest 00 pin 01
ioint kind 00 flags 0000 bus 01 irq 03 dest 00 pin 03
ioint kind 00 flags 0000 bus 01 irq 04 dest 00 pin 04
ioint kind 00 flags 0000 bus 01 irq 05 dest 00 pin 05
ioint kind 00 flags 0000 bus 01 irq 06 dest 00 pin 06
ioint kind 00 flags 0000 bus 01 irq 07 dest 00 pin 07
ioint kind 00 flags 0000 bus 01 irq 08 dest 00 pin 08
ioint kind 00 flags 0000 bus 01 irq 09 dest 00 pin 09
ioint kind 00 flags 0000 bus 01 irq 0A dest 00 pin 0A
ioint kind 00 flags 0000 bus 01 irq 0B dest 00 pin 0B
ioint kind 00 flags 0000 bus 01 irq 0C dest 00 pin 0C
ioint kind 00 flags 0000 bus 01 irq 0D dest 00 pin 0D
ioint kind 00 flags 0000 bus 01 irq 0E dest 00 pin 0E
ioint kind 00 flags 0000 bus 01 irq 0F dest 00 pin 0F
";

/// The local interrupt INTR at LINTIN 0 of the boot processor.
pub const LOCAL_INTR: &str = "localint kind 03 flags 0000 bus 01 irq 00 dest 00 pin 00\n";

/// The local interrupt NMI at LINTIN 1 of all processors.
pub const LOCAL_NMI: &str = "localint kind 01 flags 0000 bus 01 irq 00 dest FF pin 01\n";

/// The last line.
pub const END: &str = "end\n";

/// Its listing.
const USUAL: &[&str] = &[FIRST, POINTER, TO_INTERRUPTS, LOCAL_INTR, LOCAL_NMI, END];

/// Its routes, without the ELCR.
const ROUTES: &str = "route 0 io 0 pin 16 vector 30 low 0000A030 high 00000000
route 1 io 0 pin 0 vector 00 low 00000700 high 00000000
route 2 io 0 pin 2 vector 22 low 00000022 high 00000000
route 3 io 0 pin 1 vector 21 low 00000021 high 00000000
route 4 io 0 pin 3 vector 23 low 00000023 high 00000000
route 5 io 0 pin 4 vector 24 low 00000024 high 00000000
route 6 io 0 pin 5 vector 25 low 00000025 high 00000000
route 7 io 0 pin 6 vector 26 low 00000026 high 00000000
route 8 io 0 pin 7 vector 27 low 00000027 high 00000000
route 9 io 0 pin 8 vector 28 low 00000028 high 00000000
route 10 io 0 pin 9 vector 29 low 00000029 high 00000000
route 11 io 0 pin 10 vector 2A low 0000002A high 00000000
route 12 io 0 pin 11 vector 2B low 0000002B high 00000000
route 13 io 0 pin 12 vector 2C low 0000002C high 00000000
route 14 io 0 pin 13 vector 2D low 0000002D high 00000000
route 15 io 0 pin 14 vector 2E low 0000002E high 00000000
route 16 io 0 pin 15 vector 2F low 0000002F high 00000000
";

/// Up to the last I/O interrupt.
pub fn to_interrupts() -> &'static str {
    TO_INTERRUPTS
}

/// The whole listing, in its parts.
pub fn usual() -> &'static [&'static str] {
    USUAL
}

/// Its routes, without the ELCR.
pub fn routes() -> &'static str {
    ROUTES
}
