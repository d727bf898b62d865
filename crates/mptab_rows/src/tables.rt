//! Tables of every entry: each form shown, each type cut at each of its bytes, and opaque entries of the
//! least and the greatest length.

use crate::board::{HEAD, board_with};
use crate::harness::{Answer, same, shown};
use std::alloc::Global;
use std::test::Fail;

/// The answer of `show` to a board of these entries.
fn answer_with(alloc: Global, base: &[u8], count: u8, ext: &[u8]) -> Result<Answer, Fail> {
    let image = board_with(alloc, base, count, ext)?;
    shown(alloc, image.as_slice())
}

/// An entry, with its line.
struct Entry {
    bytes: &'static [u8],
    line: &'static str,
}

/// An entry of each base type.
const BASE: &[Entry] = &[
    Entry {
        bytes: b"\x04\x03\x0D\x1F\x02\x4C\xFF\x17",
        line: "localint kind 03 flags 1F0D bus 02 irq 4C dest FF pin 17\n",
    },
    Entry {
        bytes: b"\x01\x00PCI   ",
        line: "bus id 00 name \"PCI   \"\n",
    },
    Entry {
        bytes: b"\x01\xAB\"\\\x7F\x00 ~",
        line: "bus id AB name \"\\x22\\x5C\\x7F\\x00 ~\"\n",
    },
    Entry {
        bytes: b"\x02\x08\x11\x01\x00\x10\xC0\xFE",
        line: "ioapic id 08 version 11 flags 01 address FEC01000\n",
    },
    Entry {
        bytes: b"\x03\x00\x05\x80\x01\x0A\x08\x10",
        line: "ioint kind 00 flags 8005 bus 01 irq 0A dest 08 pin 10\n",
    },
    Entry {
        bytes: b"\x00\x1E\x14\x82\xEF\xBE\xAD\xDE\x78\x56\x34\x12\x01\x02\x03\x04\xA5\x06\x07\xF8",
        line: "processor id 1E version 14 flags 82 signature DEADBEEF features 12345678 reserved 01020304A50607F8\n",
    },
    Entry {
        bytes: b"\x03\xFE\xFF\xFF\xFD\xFC\xFB\xFA",
        line: "ioint kind FE flags FFFF bus FD irq FC dest FB pin FA\n",
    },
];

/// An entry of each extended form.
const EXT: &[Entry] = &[
    Entry {
        bytes: b"\x83\x02",
        line: "opaque kind 83 rest -\n",
    },
    Entry {
        bytes: b"\x80\x14\x01\x02\x10\x32\x54\x76\x98\xBA\xDC\xFE\x00\x10\x00\x00\x00\x00\x00\x80",
        line: "space bus 01 kind 02 base FEDCBA9876543210 length 8000000000001000\n",
    },
    Entry {
        bytes: b"\x81\x08\x01\x03\x02\x00\xC0\x09",
        line: "hierarchy bus 01 info 03 parent 02 reserved 00C009\n",
    },
    Entry {
        bytes: b"\x82\x08\x00\x81\x01\x00\x00\x80",
        line: "modifier bus 00 flags 81 ranges 80000001\n",
    },
    Entry {
        bytes: b"\xFF\x05\x0F\xA0\x22",
        line: "opaque kind FF rest 0FA022\n",
    },
];

fn base_entries() -> &'static [Entry] {
    BASE
}

fn ext_entries() -> &'static [Entry] {
    EXT
}

/// The bytes of these entries, end to end.
fn joined(alloc: Global, entries: &[Entry]) -> Result<Vec<u8>, Fail> {
    let mut bytes = Vec::new(alloc);
    for entry in entries {
        bytes.extend_from_slice(entry.bytes)?;
    }
    Ok(bytes)
}

/// Writes the lines of these entries.
fn push_lines(text: &mut Vec<u8>, entries: &[Entry]) -> Result<(), Fail> {
    for entry in entries {
        text.extend_from_slice(entry.line.as_bytes())?;
    }
    Ok(())
}

/// The answer to a board of both.
fn answer_of_all(alloc: Global) -> Result<Answer, Fail> {
    let base = joined(alloc, base_entries())?;
    let ext = joined(alloc, ext_entries())?;
    answer_with(alloc, base.as_slice(), 7, ext.as_slice())
}

/// The listing of that board.
fn listing_of_all(alloc: Global) -> Result<Vec<u8>, Fail> {
    let mut text = Vec::from_slice(alloc, HEAD.as_bytes())?;
    push_lines(&mut text, base_entries())?;
    push_lines(&mut text, ext_entries())?;
    text.extend_from_slice(b"end\n")?;
    Ok(text)
}

#[test]
fn every_form(rt: HostRuntime) -> Result<(), Fail> {
    let answer = answer_of_all(rt.alloc())?;
    let text = listing_of_all(rt.alloc())?;
    same(&rt, "the status", answer.status, 0);
    same(&rt, "the listing", answer.text.as_slice(), text.as_slice());
    Ok(())
}

/// Entries of one part of a table, and the answer to one that is cut.
#[derive(Drop)]
struct Part {
    is_base: bool,
    entries: &'static [Entry],
    cut: &'static [u8],
}

fn base_part() -> Part {
    Part {
        is_base: true,
        entries: base_entries(),
        cut: b"mptab: fault 11 CutEntry at 0000053C\n",
    }
}

fn ext_part() -> Part {
    Part {
        is_base: false,
        entries: ext_entries(),
        cut: b"mptab: fault 16 CutExtEntry at 0000053C\n",
    }
}

/// The answer to a board with these bytes of an entry in that part alone.
fn answer_in(alloc: Global, part: &Part, bytes: &[u8]) -> Result<Answer, Fail> {
    if part.is_base {
        answer_with(alloc, bytes, 1, &[])
    } else {
        answer_with(alloc, &[], 0, bytes)
    }
}

/// Whether the first bytes of an entry, so many of them, are a cut entry.
fn is_cut(alloc: Global, part: &Part, bytes: &[u8], kept: usize) -> Result<bool, Fail> {
    let first = bytes.get(..kept).unwrap_or(bytes);
    let answer = answer_in(alloc, part, first)?;
    Ok(answer.is(7, part.cut))
}

/// Whether every beginning of an entry is a cut entry, and the whole is accepted.
fn is_each_cut(alloc: Global, part: &Part, bytes: &[u8]) -> Result<bool, Fail> {
    for kept in 1..bytes.len() {
        if !is_cut(alloc, part, bytes, kept)? {
            return Ok(false);
        }
    }
    let whole = answer_in(alloc, part, bytes)?;
    Ok(whole.status == 0)
}

/// The first entry of which some beginning has another answer than a cut entry, or which isn't accepted whole.
fn first_uncut(alloc: Global, part: &Part) -> Result<Option<&'static str>, Fail> {
    for entry in part.entries {
        if !is_each_cut(alloc, part, entry.bytes)? {
            return Ok(Some(entry.line));
        }
    }
    Ok(None)
}

#[test]
fn every_cut(rt: HostRuntime) -> Result<(), Fail> {
    let uncut = first_uncut(rt.alloc(), &base_part())?;
    same(&rt, "a base entry", uncut, None);
    let uncut = first_uncut(rt.alloc(), &ext_part())?;
    same(&rt, "an extended entry", uncut, None);
    Ok(())
}

/// The answer to a board with the longest opaque entry: 253 bytes behind type and length.
fn answer_of_greatest(alloc: Global) -> Result<Answer, Fail> {
    let mut entry = Vec::from_slice(alloc, b"\x84\xFF")?;
    for _ in 0..253 {
        entry.push(0x5A)?;
    }
    answer_with(alloc, &[], 0, entry.as_slice())
}

/// The listing of that board.
fn listing_of_greatest(alloc: Global) -> Result<Vec<u8>, Fail> {
    let mut text = Vec::from_slice(alloc, HEAD.as_bytes())?;
    text.extend_from_slice(b"opaque kind 84 rest ")?;
    for _ in 0..253 {
        text.extend_from_slice(b"5A")?;
    }
    text.extend_from_slice(b"\nend\n")?;
    Ok(text)
}

#[test]
fn greatest_opaque_entry(rt: HostRuntime) -> Result<(), Fail> {
    let answer = answer_of_greatest(rt.alloc())?;
    let text = listing_of_greatest(rt.alloc())?;
    same(&rt, "the status", answer.status, 0);
    same(&rt, "the listing", answer.text.as_slice(), text.as_slice());
    Ok(())
}

/// Types and lengths that don't go together.
const LENGTHS: &[(u8, u8)] = &[
    (0x80, 0),
    (0x80, 1),
    (0x80, 8),
    (0x80, 19),
    (0x80, 21),
    (0x81, 7),
    (0x81, 9),
    (0x81, 20),
    (0x82, 7),
    (0x82, 9),
    (0x83, 0),
    (0x83, 1),
    (0xFF, 0),
    (0xFF, 1),
];

#[test]
fn wrong_lengths(rt: HostRuntime) -> Result<(), Fail> {
    for (kind, length) in LENGTHS {
        let answer = answer_with(rt.alloc(), &[], 0, &[*kind, *length])?;
        let text = b"mptab: fault 15 BadExtLength at 0000053D\n";
        assert!(rt; answer.is(7, text), "length {length} of type {kind}");
    }
    Ok(())
}
