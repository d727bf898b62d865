//! The listings that the rows start from, each by a function: a constant is proved anew wherever it is named.

/// A table of one processor, with the floating pointer at F0000h: a block of 64 bytes.
const ONE_PROCESSOR: &[u8] = b"mptable 1
pointer at 000F0000 table 000F0010 revision 04 features 0000000000
header revision 04 oem \"MPTAB   \" product \"BOARD       \" oemtable 00000000 oemsize 0000 local FEE00000 reserved 00
processor id 00 version 10 flags 03 signature 00000520 features 000001BF reserved 0000000000000000
end
";

/// A default configuration.
const DEFAULT: &[u8] = b"mptable 1
pointer at 0009FC00 table 00000000 revision 04 features 0580000001
end
";

/// A usual board of two processors: 28 lines, a block of 260 bytes.
const USUAL_BOARD: &[u8] = b"mptable 1
pointer at 000F0000 table 000F0010 revision 04 features 0000000000
header revision 04 oem \"MPTAB   \" product \"BOARD       \" oemtable 00000000 oemsize 0000 local FEE00000 reserved 00
processor id 00 version 14 flags 03 signature 00000600 features 00000201 reserved 0000000000000000
processor id 01 version 14 flags 01 signature 00000600 features 00000201 reserved 0000000000000000
bus id 00 name \"PCI   \"
bus id 01 name \"ISA   \"
ioapic id 00 version 11 flags 01 address FEC00000
ioint kind 00 flags 0000 bus 00 irq 08 dest 00 pin 10
ioint kind 03 flags 0000 bus 01 irq 00 dest 00 pin 00
ioint kind 00 flags 0000 bus 01 irq 00 dest 00 pin 02
ioint kind 00 flags 0000 bus 01 irq 01 dest 00 pin 01
ioint kind 00 flags 0000 bus 01 irq 03 dest 00 pin 03
ioint kind 00 flags 0000 bus 01 irq 04 dest 00 pin 04
ioint kind 00 flags 0000 bus 01 irq 05 dest 00 pin 05
ioint kind 00 flags 0000 bus 01 irq 06 dest 00 pin 06
ioint kind 00 flags 0000 bus 01 irq 07 dest 00 pin 07
ioint kind 00 flags 0000 bus 01 irq 08 dest 00 pin 08
ioint kind 00 flags 0000 bus 01 irq 09 dest 00 pin 09
ioint kind 00 flags 0000 bus 01 irq 0A dest 00 pin 0A
ioint kind 00 flags 0000 bus 01 irq 0B dest 00 pin 0B
ioint kind 00 flags 0000 bus 01 irq 0C dest 00 pin 0C
ioint kind 00 flags 0000 bus 01 irq 0D dest 00 pin 0D
ioint kind 00 flags 0000 bus 01 irq 0E dest 00 pin 0E
ioint kind 00 flags 0000 bus 01 irq 0F dest 00 pin 0F
localint kind 03 flags 0000 bus 01 irq 00 dest 00 pin 00
localint kind 01 flags 0000 bus 01 irq 00 dest FF pin 01
end
";

/// A line of each form: 14 lines.
const EVERY_FORM: &[u8] = b"mptable 1
pointer at 000F0000 table 000E0000 revision 04 features 0080FF0001
header revision 04 oem \"OEM \\x1F ~\\x80\" product \"a'b\\x22c\\x5Cd\\x0Aef g\" oemtable 00ABCDEF oemsize 03A0 local FEE00000 reserved 5A
processor id 1E version 14 flags 82 signature DEADBEEF features 12345678 reserved 01020304A50607F8
bus id AB name \"\\x22\\x5C\\x7F\\x00 ~\"
ioapic id 08 version 11 flags 01 address FEC01000
ioint kind 03 flags 1F0D bus 02 irq 4C dest FF pin 17
localint kind FE flags FFFF bus FD irq FC dest FB pin FA
space bus 01 kind 02 base FEDCBA9876543210 length 8000000000001000
hierarchy bus 01 info 03 parent 02 reserved 00C009
modifier bus 00 flags 81 ranges 80000001
opaque kind 83 rest -
opaque kind FF rest 0FA022
end
";

/// A table of one processor, with the floating pointer at F0000h: a block of 64 bytes.
pub(crate) fn one_processor_text() -> &'static [u8] {
    ONE_PROCESSOR
}

/// A default configuration.
pub(crate) fn default_text() -> &'static [u8] {
    DEFAULT
}

/// A usual board of two processors: 28 lines, a block of 260 bytes.
pub(crate) fn usual_board_text() -> &'static [u8] {
    USUAL_BOARD
}

/// A line of each form: 14 lines.
pub(crate) fn every_form_text() -> &'static [u8] {
    EVERY_FORM
}

/// All four.
pub(crate) fn all_texts() -> [&'static [u8]; 4] {
    [
        one_processor_text(),
        default_text(),
        usual_board_text(),
        every_form_text(),
    ]
}
