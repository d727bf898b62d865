//! Files that are refused, for each reason alone, and which of two comes first.

use crate::firmware::{Row, are_answered};
use crate::firmware_usual::{CALLS, MADT};
use mptab_cases::usual::usual;
use std::test::Fail;

/// Each reason of a MADT, and the earlier of two.
const MADTS: &[Row] = &[
    Row {
        name: "no bytes",
        words: &["madtcmp", "image", "0000", "file"],
        file: b"",
        status: 13,
        text: b"mptab: madt fault 21 Short at 00000000\n",
    },
    Row {
        name: "no signature, a wrong length and a wrong sum",
        words: &["madtcmp", "image", "0000", "file"],
        file: b"APIX\x2D\x00\x00\x00\x01\x00\x00\x00\x00\x00\x00\x00\x00\x00\x00\x00\x00\x00\x00\x00\x00\x00\x00\x00\x00\x00\x00\x00\x00\x00\x00\x00\x00\x00\x00\x00\x00\x00\x00\x00",
        status: 13,
        text: b"mptab: madt fault 22 BadSignature at 00000000\n",
    },
    Row {
        name: "a byte is missing",
        words: &["madtcmp", "image", "0000", "file"],
        file: b"APIC\x58\x00\x00\x00\x01\xC1MPTAB MPTABLE \x01\x00\x00\x00MPTB\x01\x00\x00\x00\x00\x00\xE0\xFE\x01\x00\x00\x00\x00\x08\x00\x00\x01\x00\x00\x00\x00\x08\x01\x01\x01\x00\x00\x00\x01\x0C\x00\x00\x00\x00\xC0\xFE\x00\x00\x00\x00\x02\x0A\x00\x00\x02\x00\x00\x00\x05\x00\x04\x06\xFF\x00\x00",
        status: 13,
        text: b"mptab: madt fault 23 BadLength at 00000004\n",
    },
    Row {
        name: "a wrong sum, and a cut entry",
        words: &["madtcmp", "image", "0000", "file"],
        file: b"APIC\x2D\x00\x00\x00\x01\x00MPTAB MPTABLE \x01\x00\x00\x00MPTB\x01\x00\x00\x00\x00\x00\xE0\xFE\x01\x00\x00\x00\x00",
        status: 13,
        text: b"mptab: madt fault 24 BadSum at 00000009\n",
    },
    Row {
        name: "one byte of an entry",
        words: &["madtcmp", "image", "0000", "file"],
        file: b"APIC\x2D\x00\x00\x00\x01\xE8MPTAB MPTABLE \x01\x00\x00\x00MPTB\x01\x00\x00\x00\x00\x00\xE0\xFE\x01\x00\x00\x00\x00",
        status: 13,
        text: b"mptab: madt fault 25 CutEntry at 0000002C\n",
    },
    Row {
        name: "an entry of type 4 with 7 bytes",
        words: &["madtcmp", "image", "0000", "file"],
        file: b"APIC\x33\x00\x00\x00\x01\xD7MPTAB MPTABLE \x01\x00\x00\x00MPTB\x01\x00\x00\x00\x00\x00\xE0\xFE\x01\x00\x00\x00\x04\x07\x00\x00\x00\x00\x00",
        status: 13,
        text: b"mptab: madt fault 26 BadEntryLength at 0000002D\n",
    },
];

/// Each reason of a routing table, and the earlier of two.
const ROUTING_TABLES: &[Row] = &[
    Row {
        name: "no bytes",
        words: &["pircmp", "image", "file"],
        file: b"",
        status: 15,
        text: b"mptab: pir fault 31 Short at 00000000\n",
    },
    Row {
        name: "no signature, and a wrong sum",
        words: &["pircmp", "image", "file"],
        file: b"%PIR\x00\x01\x30\x00\x00\x00\x00\x00\x00\x00\x00\x00\x00\x00\x00\x00\x00\x00\x00\x00\x00\x00\x00\x00\x00\x00\x00\xAF\x00\x10\x01\x00\x00\x00\x00\x00\x00\x00\x00\x00\x00\x00\x00\x00",
        status: 15,
        text: b"mptab: pir fault 32 BadSignature at 00000000\n",
    },
    Row {
        name: "version 1.1, and a wrong size",
        words: &["pircmp", "image", "file"],
        file: b"$PIR\x01\x01\x21\x00\x00\x00\x00\x00\x00\x00\x00\x00\x00\x00\x00\x00\x00\x00\x00\x00\x00\x00\x00\x00\x00\x00\x00\x00",
        status: 15,
        text: b"mptab: pir fault 33 BadVersion at 00000004\n",
    },
    Row {
        name: "a size of 48 where there are 32 bytes, and a wrong sum",
        words: &["pircmp", "image", "file"],
        file: b"$PIR\x00\x01\x30\x00\x00\x00\x00\x00\x00\x00\x00\x00\x00\x00\x00\x00\x00\x00\x00\x00\x00\x00\x00\x00\x00\x00\x00\x00",
        status: 15,
        text: b"mptab: pir fault 34 BadSize at 00000006\n",
    },
    Row {
        name: "a wrong sum",
        words: &["pircmp", "image", "file"],
        file: b"$PIR\x00\x01\x20\x00\x00\x00\x00\x00\x00\x00\x00\x00\x00\x00\x00\x00\x00\x00\x00\x00\x00\x00\x00\x00\x00\x00\x00\x00",
        status: 15,
        text: b"mptab: pir fault 35 BadSum at 0000001F\n",
    },
];

/// Calls that are none.
const CALLS_REFUSED: &[Row] = &[
    Row {
        name: "line 2 of the master",
        words: &["pic", "image", "script", "file"],
        file: b"irq 2 up\n",
        status: 14,
        text: b"mptab: pic line 1 Form\n",
    },
    Row {
        name: "a lower-case digit, and a line without its line feed",
        words: &["pic", "image", "script", "file"],
        file: b"ack\nin a0\nack",
        status: 14,
        text: b"mptab: pic line 2 Form\n",
    },
    Row {
        name: "a last line without its line feed",
        words: &["pic", "image", "script", "file"],
        file: b"ack\nack",
        status: 14,
        text: b"mptab: pic line 2 Form\n",
    },
    Row {
        name: "an empty line",
        words: &["pic", "image", "script", "file"],
        file: b"\n",
        status: 14,
        text: b"mptab: pic line 1 Form\n",
    },
];

/// The earlier file comes first; a file that isn't there before one that is refused behind it.
const EARLIER: &[Row] = &[
    Row {
        name: "an image without tables, and a MADT that isn't there",
        words: &["madtcmp", "script", "0000", "x"],
        file: b"",
        status: 6,
        text: b"mptab: no floating pointer\n",
    },
    Row {
        name: "an image without tables, and a routing table that is refused",
        words: &["pircmp", "script", "file"],
        file: b"",
        status: 6,
        text: b"mptab: no floating pointer\n",
    },
    Row {
        name: "no MADT",
        words: &["madtcmp", "image", "0000", "x"],
        file: b"",
        status: 3,
        text: b"mptab: no file x\n",
    },
    Row {
        name: "no routing table",
        words: &["pircmp", "image", "x"],
        file: b"",
        status: 3,
        text: b"mptab: no file x\n",
    },
    Row {
        name: "no calls",
        words: &["pic", "image", "script", "x"],
        file: b"",
        status: 3,
        text: b"mptab: no file x\n",
    },
    Row {
        name: "a script that is refused, and calls that are",
        words: &["pic", "image", "file", "file"],
        file: b"page =",
        status: 8,
        text: b"mptab: script not toml\n",
    },
    Row {
        name: "a board without its boot processor, and calls that aren't there",
        words: &["pic", "image", "file", "x"],
        file: b"page = 0x9F\npresent = [1]\n",
        status: 11,
        text: b"mptab: board boot absent 00\n",
    },
    Row {
        name: "a board without its boot processor, and calls that are refused",
        words: &["pic", "image", "file", "file"],
        file: b"page = 0x9F\npresent = [1]\n",
        status: 11,
        text: b"mptab: board boot absent 00\n",
    },
    Row {
        name: "a MADT where a routing table is wanted",
        words: &["pircmp", "image", "file"],
        file: MADT,
        status: 15,
        text: b"mptab: pir fault 32 BadSignature at 00000000\n",
    },
    Row {
        name: "calls where a MADT is wanted",
        words: &["madtcmp", "image", "0000", "file"],
        file: CALLS,
        status: 13,
        text: b"mptab: madt fault 22 BadSignature at 00000000\n",
    },
    Row {
        name: "an ELCR of three digits",
        words: &["madt", "image", "000"],
        file: b"",
        status: 2,
        text: b"mptab: usage\n",
    },
    Row {
        name: "a comparison without an ELCR",
        words: &["madtcmp", "image", "file"],
        file: b"",
        status: 2,
        text: b"mptab: usage\n",
    },
    Row {
        name: "a routing table with an ELCR",
        words: &["pirmake", "image", "0000"],
        file: b"",
        status: 2,
        text: b"mptab: usage\n",
    },
];

#[test]
fn refused_tables(rt: HostRuntime) -> Result<(), Fail> {
    are_answered(&rt, rt.alloc(), "the first wrong MADT", usual(), MADTS)?;
    are_answered(
        &rt,
        rt.alloc(),
        "the first wrong routing table",
        usual(),
        ROUTING_TABLES,
    )
}

#[test]
fn refused_calls_and_earlier_files(rt: HostRuntime) -> Result<(), Fail> {
    are_answered(
        &rt,
        rt.alloc(),
        "the first wrong calls",
        usual(),
        CALLS_REFUSED,
    )?;
    are_answered(&rt, rt.alloc(), "the first wrong order", usual(), EARLIER)
}
