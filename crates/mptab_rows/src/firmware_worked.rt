//! The usual board: its tables of firmware, what a changed one differs in, and calls of the pair of 8259A on
//! each way of INTR.

use crate::firmware::{Row, are_answered};
use crate::firmware_usual::{CALLS, MADT, PIR, TWO_PROCESSORS};
use mptab_cases::usual::{
    END, FIRST, IMCR_POINTER, LOCAL_INTR, LOCAL_NMI, POINTER, to_interrupts, usual,
};
use std::test::Fail;

const ROWS: &[Row] = &[
    Row {
        name: "the MADT",
        words: &["madt", "image", "0000"],
        file: b"",
        status: 0,
        text: MADT,
    },
    Row {
        name: "the MADT of the board differs nowhere",
        words: &["madtcmp", "image", "0000", "file"],
        file: MADT,
        status: 0,
        text: b"differs 0\n",
    },
    Row {
        name: "an override that is level and low",
        words: &["madtcmp", "image", "0000", "file"],
        file: b"APIC\x58\x00\x00\x00\x01\xB7MPTAB MPTABLE \x01\x00\x00\x00MPTB\x01\x00\x00\x00\x00\x00\xE0\xFE\x01\x00\x00\x00\x00\x08\x00\x00\x01\x00\x00\x00\x00\x08\x01\x01\x01\x00\x00\x00\x01\x0C\x00\x00\x00\x00\xC0\xFE\x00\x00\x00\x00\x02\x0A\x00\x00\x02\x00\x00\x00\x0F\x00\x04\x06\xFF\x00\x00\x01",
        status: 1,
        text: b"irq 0 mp 2 edge high madt 2 level low\ndiffers 1\n",
    },
    Row {
        name: "the PCI IRQ routing table",
        words: &["pirmake", "image"],
        file: b"",
        status: 0,
        text: PIR,
    },
    Row {
        name: "the routing table of the board differs nowhere",
        words: &["pircmp", "image", "file"],
        file: PIR,
        status: 0,
        text: b"differs 0\n",
    },
    Row {
        name: "a routing table of device 3",
        words: &["pircmp", "image", "file"],
        file: b"$PIR\x00\x01\x30\x00\x00\x00\x00\x00\x00\x00\x00\x00\x00\x00\x00\x00\x00\x00\x00\x00\x00\x00\x00\x00\x00\x00\x00\xA7\x00\x18\x01\x00\x00\x00\x00\x00\x00\x00\x00\x00\x00\x00\x00\x00",
        status: 1,
        text: b"bus 00 device 02 pin A onlymp\nbus 00 device 03 pin A onlypir\ndiffers 2\n",
    },
    Row {
        name: "calls by LINTIN 0",
        words: &["pic", "image", "script", "file"],
        file: CALLS,
        status: 0,
        text: b"ack 21 lint\nack none\nack 2C lint\nin 20 = 04\nend\n",
    },
    Row {
        name: "no interrupt mode register to write",
        words: &["pic", "image", "script", "file"],
        file: b"out 22 70\nout 23 00\nout 20 11\nout 21 20\nout 21 04\nout 21 01\nirq 1 up\nack\n",
        status: 0,
        text: b"ack 21 lint\nend\n",
    },
    Row {
        name: "no calls",
        words: &["pic", "image", "script", "file"],
        file: b"",
        status: 0,
        text: b"end\n",
    },
];

#[test]
fn usual_board(rt: HostRuntime) -> Result<(), Fail> {
    are_answered(&rt, rt.alloc(), "the first wrong row", usual(), ROWS)
}

/// The calls where INTR isn't wired to LINTIN 0: they come by pin 0 of the I/O APIC.
const BY_PIN: &[Row] = &[Row {
    name: "calls by a pin",
    words: &["pic", "image", "script", "file"],
    file: CALLS,
    status: 0,
    text: b"ack 21 io 0 0\nack none\nack 2C io 0 0\nin 20 = 04\nend\n",
}];

/// The calls where no way is open.
const CLOSED: &[Row] = &[Row {
    name: "calls on a closed way",
    words: &["pic", "image", "script", "file"],
    file: CALLS,
    status: 0,
    text: b"ack none\nack none\nack none\nin 20 = 00\nend\n",
}];

/// The calls behind a write of the interrupt mode register.
const DIRECT: &[Row] = &[Row {
    name: "calls in PIC mode",
    words: &["pic", "image", "script", "file"],
    file: b"out 22 70\nout 23 00\nout 20 11\nout 21 20\nout 21 04\nout 21 01\nirq 1 up\nack\n",
    status: 0,
    text: b"ack 21 direct\nend\n",
}];

/// The board whose LINTIN 0 isn't wired.
fn without_intr() -> [&'static str; 5] {
    [FIRST, POINTER, to_interrupts(), LOCAL_NMI, END]
}

/// The board with an interrupt mode register.
fn with_imcr() -> [&'static str; 6] {
    [
        FIRST,
        IMCR_POINTER,
        to_interrupts(),
        LOCAL_INTR,
        LOCAL_NMI,
        END,
    ]
}

#[test]
fn ways_of_intr(rt: HostRuntime) -> Result<(), Fail> {
    are_answered(&rt, rt.alloc(), "by a pin", &without_intr(), BY_PIN)?;
    are_answered(&rt, rt.alloc(), "closed", TWO_PROCESSORS, CLOSED)?;
    are_answered(&rt, rt.alloc(), "direct", &with_imcr(), DIRECT)
}
