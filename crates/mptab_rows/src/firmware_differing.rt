//! Platforms whose tables of firmware have more than one line: an EISA bus with a level interrupt, and two PCI
//! devices with two wires.

use crate::firmware::{Row, are_answered};
use crate::firmware_usual::MADT;
use mptab_cases::usual::{END, FIRST};
use std::test::Fail;

/// Default configuration 3, whose bus is EISA.
const EISA: &[&str] = &[
    FIRST,
    "pointer at 000F0000 table 00000000 revision 04 features 0300000000\n",
    END,
];

/// IRQ 5 is level and low by bit 5 of the ELCR; the NMI of all is at LINTIN 1.
const EISA_ROWS: &[Row] = &[
    Row {
        name: "the MADT of EISA interrupts",
        words: &["madt", "image", "0020"],
        file: b"",
        status: 0,
        text: b"APIC\x62\x00\x00\x00\x01\x90MPTAB MPTABLE \x01\x00\x00\x00MPTB\x01\x00\x00\x00\x00\x00\xE0\xFE\x01\x00\x00\x00\x00\x08\x00\x00\x01\x00\x00\x00\x00\x08\x01\x01\x01\x00\x00\x00\x01\x0C\x02\x00\x00\x00\xC0\xFE\x00\x00\x00\x00\x02\x0A\x00\x00\x02\x00\x00\x00\x05\x00\x02\x0A\x00\x05\x05\x00\x00\x00\x0F\x00\x04\x06\xFF\x00\x00\x01",
    },
    Row {
        name: "a MADT in which IRQ 5 is edge and high",
        words: &["madtcmp", "image", "0020", "file"],
        file: MADT,
        status: 1,
        text: b"irq 5 mp 5 level low madt 5 edge high\ndiffers 1\n",
    },
    Row {
        name: "a MADT without overrides",
        words: &["madtcmp", "image", "0020", "file"],
        file: b"APIC\x2C\x00\x00\x00\x01\xE9MPTAB MPTABLE \x01\x00\x00\x00MPTB\x01\x00\x00\x00\x00\x00\xE0\xFE\x01\x00\x00\x00",
        status: 1,
        text: b"irq 0 mp 2 edge high madt 0 edge high\nirq 5 mp 5 level low madt 5 edge high\ndiffers 2\n",
    },
    Row {
        name: "no PCI pin",
        words: &["pirmake", "image"],
        file: b"",
        status: 0,
        text: b"$PIR\x00\x01\x20\x00\x00\x00\x00\x00\x00\x00\x00\x00\x00\x00\x00\x00\x00\x00\x00\x00\x00\x00\x00\x00\x00\x00\x00\xD0",
    },
];

/// INTA# and INTB# of device 1 on wires 16 and 17, and INTC# of device 2 on wire 16.
const TWO_WIRES: &[&str] = &[
    FIRST,
    "pointer at 000F0000 table 000F0010 revision 04 features 0000000000\n",
    "header revision 04 oem \"MPTAB   \" product \"BOARD       \" oemtable 00000000 oemsize 0000 local FEE00000 reserved 00
bus id 00 name \"PCI   \"
ioapic id 02 version 11 flags 01 address FEC00000
ioint kind 00 flags 0000 bus 00 irq 04 dest 02 pin 10
ioint kind 00 flags 0000 bus 00 irq 05 dest 02 pin 11
ioint kind 00 flags 0000 bus 00 irq 0A dest 02 pin 10
",
    END,
];

const TWO_WIRES_ROWS: &[Row] = &[
    Row {
        name: "the routing table of two wires",
        words: &["pirmake", "image"],
        file: b"",
        status: 0,
        text: b"$PIR\x00\x01\x40\x00\x00\x00\x00\x00\x00\x00\x00\x00\x00\x00\x00\x00\x00\x00\x00\x00\x00\x00\x00\x00\x00\x00\x00\x94\x00\x08\x01\x00\x00\x02\x00\x00\x00\x00\x00\x00\x00\x00\x00\x00\x00\x10\x00\x00\x00\x00\x00\x00\x01\x00\x00\x00\x00\x00\x00\x00",
    },
    Row {
        name: "one link for three pins of device 1",
        words: &["pircmp", "image", "file"],
        file: b"$PIR\x00\x01\x30\x00\x00\x00\x00\x00\x00\x00\x00\x00\x00\x00\x00\x00\x00\x00\x00\x00\x00\x00\x00\x00\x00\x00\x00\xA3\x00\x08\x07\x00\x00\x07\x00\x00\x00\x00\x00\x07\x00\x00\x00\x00",
        status: 1,
        text: b"bus 00 device 01 pin B link\nbus 00 device 01 pin D onlypir\nbus 00 device 02 pin C onlymp\ndiffers 3\n",
    },
];

#[test]
fn differences(rt: HostRuntime) -> Result<(), Fail> {
    are_answered(
        &rt,
        rt.alloc(),
        "the first wrong row of EISA",
        EISA,
        EISA_ROWS,
    )?;
    are_answered(
        &rt,
        rt.alloc(),
        "the first wrong row of two wires",
        TWO_WIRES,
        TWO_WIRES_ROWS,
    )
}
