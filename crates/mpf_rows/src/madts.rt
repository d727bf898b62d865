//! Tables spelled out by hand from the ACPI Specification, section 5.2.12: read, refused, judged and
//! written again.

use crate::harness::same;
use crate::platforms::{BOARD, with_entries};
use mpf_madt::{
    Madt, MadtEntry, MadtReason, MadtRefusal, Opaque, Sequence, madt_ok, read_madt, write_madt,
};
use std::alloc::{AllocError, Global};
use std::process::Abort;
use std::test::Fail;

// the refusal of the bytes
fn refusal_of(alloc: Global, bytes: &[u8]) -> Option<MadtRefusal> {
    if bytes.len() > 1_048_576 {
        return None;
    }
    read_madt(alloc, bytes).err()
}

// the bytes have this first fault
fn refused(rt: &impl Abort, alloc: Global, name: &str, bytes: &[u8], at: u64, why: MadtReason) {
    let want = Some(MadtRefusal::Fault { at, why });
    same(rt, name, refusal_of(alloc, bytes), want);
}

// the bytes that are written for what is read of the bytes
fn written_again(alloc: Global, bytes: &[u8]) -> Option<Vec<u8>> {
    if bytes.len() > 1_048_576 {
        return None;
    }
    let Ok(madt) = read_madt(alloc, bytes) else {
        return None;
    };
    if !madt_ok(&madt) {
        return None;
    }
    write_madt(alloc, &madt).ok()
}

fn same_again(rt: &impl Abort, alloc: Global, bytes: &[u8]) {
    let again = written_again(alloc, bytes).expect(rt, "not read and written");
    same(rt, "the bytes again", again.as_slice(), bytes);
}

// the table with these entries is read and written again
fn entries_same_again(rt: &impl Abort, alloc: Global, entries: &[u8]) {
    let bytes = with_entries(rt, alloc, entries);
    same_again(rt, alloc, bytes.as_slice());
}

// the entries are refused for this
fn entries_refused(
    rt: &impl Abort,
    alloc: Global,
    name: &str,
    entries: &[u8],
    at: u64,
    why: MadtReason,
) {
    let bytes = with_entries(rt, alloc, entries);
    refused(rt, alloc, name, bytes.as_slice(), at, why);
}

// the board's table with four bytes in the place of others
fn with_bytes(places: [(usize, u8); 4]) -> [u8; 88] {
    let mut bytes = BOARD;
    for (at, byte) in places {
        if at < 88 {
            bytes[at] = byte;
        }
    }
    bytes
}

/// The name of a row, the bytes that are put into the board's table, and its first fault.
type HeaderRow = (&'static str, [(usize, u8); 4], u64, MadtReason);

/// No byte: its place is behind the table.
const NONE: (usize, u8) = (88, 0);
/// A wrong signature.
const SIGNATURE: (usize, u8) = (0, b'B');
/// A wrong length.
const LENGTH: (usize, u8) = (4, 0x57);
/// A wrong length of an entry.
const ENTRY: (usize, u8) = (61, 0x0D);
/// The type of an entry of type 9.
const OTHER: (usize, u8) = (82, 9);
/// Its length: seven bytes, which pass the end.
const SEVEN: (usize, u8) = (83, 7);

const SIGNATURE_ROWS: &[HeaderRow] = &[
    (
        "signature",
        [SIGNATURE, (9, 0xC0), NONE, NONE],
        0,
        MadtReason::BadSignature,
    ),
    (
        "signature, checksum",
        [SIGNATURE, NONE, NONE, NONE],
        0,
        MadtReason::BadSignature,
    ),
    (
        "signature, length",
        [SIGNATURE, LENGTH, NONE, NONE],
        0,
        MadtReason::BadSignature,
    ),
    (
        "signature, entry",
        [SIGNATURE, ENTRY, (9, 0xBF), NONE],
        0,
        MadtReason::BadSignature,
    ),
    (
        "signature, cut entry",
        [SIGNATURE, OTHER, SEVEN, (9, 0xBA)],
        0,
        MadtReason::BadSignature,
    ),
];

const LENGTH_ROWS: &[HeaderRow] = &[
    (
        "length",
        [LENGTH, (9, 0xC2), NONE, NONE],
        4,
        MadtReason::BadLength,
    ),
    (
        "length, checksum",
        [LENGTH, NONE, NONE, NONE],
        4,
        MadtReason::BadLength,
    ),
    (
        "length, entry",
        [LENGTH, ENTRY, NONE, NONE],
        4,
        MadtReason::BadLength,
    ),
    (
        "length, cut entry",
        [LENGTH, OTHER, SEVEN, (9, 0xBC)],
        4,
        MadtReason::BadLength,
    ),
    (
        "length of 2^24 more",
        [(7, 1), NONE, NONE, NONE],
        4,
        MadtReason::BadLength,
    ),
];

const CHECKSUM_AND_ENTRY_ROWS: &[HeaderRow] = &[
    (
        "checksum",
        [(9, 0xC2), NONE, NONE, NONE],
        9,
        MadtReason::BadSum,
    ),
    (
        "checksum, entry",
        [ENTRY, NONE, NONE, NONE],
        9,
        MadtReason::BadSum,
    ),
    (
        "checksum, cut entry",
        [OTHER, SEVEN, NONE, NONE],
        9,
        MadtReason::BadSum,
    ),
    (
        "cut entry",
        [OTHER, SEVEN, (9, 0xBB), NONE],
        82,
        MadtReason::CutEntry,
    ),
    (
        "entry",
        [ENTRY, (9, 0xC0), NONE, NONE],
        61,
        MadtReason::BadEntryLength,
    ),
];

// the table of each row has this first fault
fn headers_refused(rt: &impl Abort, alloc: Global, rows: &[HeaderRow]) {
    for (name, places, at, why) in rows {
        refused(rt, alloc, name, &with_bytes(*places), *at, *why);
    }
}

// faults of the header, each alone and before each that stands beside it: a wrong signature, length or
// checksum, at 61 the length of an entry, and at 82 an entry of type 9 whose seven bytes pass the end
#[test]
fn headers_have_their_first_fault(rt: HostRuntime) {
    headers_refused(&rt, rt.alloc(), SIGNATURE_ROWS);
    headers_refused(&rt, rt.alloc(), LENGTH_ROWS);
    headers_refused(&rt, rt.alloc(), CHECKSUM_AND_ENTRY_ROWS);
}

// bytes that are too few, and a table without its last byte
#[test]
fn cut_tables_have_their_first_fault(rt: HostRuntime) -> Result<(), Fail> {
    let alloc = rt.alloc();
    refused(&rt, alloc, "no bytes", &[], 0, MadtReason::Short);
    refused(&rt, alloc, "43 zeros", &[0; 43], 0, MadtReason::Short);
    refused(&rt, alloc, "43 bytes", &BOARD[..43], 0, MadtReason::Short);
    refused(
        &rt,
        alloc,
        "44 bytes",
        &BOARD[..44],
        4,
        MadtReason::BadLength,
    );
    refused(
        &rt,
        alloc,
        "without the last",
        &BOARD[..87],
        4,
        MadtReason::BadLength,
    );
    Ok(())
}

/// The name of a row, the bytes of its entries, and where they are refused.
type EntryRow = (&'static str, &'static [u8], u64);

fn cut_entries() -> &'static [EntryRow] {
    &[
        ("one byte", &[0], 44),
        ("one byte behind an entry", &[9, 3, 0, 7], 47),
        ("opaque, cut", &[9, 3], 44),
        ("type 1, cut", &[1, 12, 0, 0, 0, 0, 0, 0, 0, 0, 0], 44),
        ("type 2, cut", &[9, 3, 0, 2, 10, 0, 0], 47),
    ]
}

fn wrong_lengths() -> &'static [EntryRow] {
    &[
        ("length 0", &[9, 0], 45),
        ("length 1", &[9, 1], 45),
        ("type 0 of 9 bytes", &[0, 9, 0, 0, 0, 0, 0, 0, 0], 45),
        ("type 0 of 255 bytes, cut", &[0, 255], 45),
        ("type 1 of 8 bytes", &[1, 8, 0, 0, 0, 0, 0, 0], 45),
        (
            "type 2 of 12 bytes",
            &[2, 12, 0, 0, 0, 0, 0, 0, 0, 0, 0, 0],
            45,
        ),
        ("type 4 of 7 bytes", &[9, 2, 4, 7, 0, 0, 0, 0, 0], 47),
        ("the first of two", &[4, 6, 0, 0, 0, 0, 4, 7, 0], 51),
    ]
}

// the entries of each row are refused for this
fn each_refused(rt: &impl Abort, alloc: Global, rows: &[EntryRow], why: MadtReason) {
    for (name, entries, at) in rows {
        entries_refused(rt, alloc, name, entries, *at, why);
    }
}

// entries that are cut or have a wrong length, behind right ones
#[test]
fn entries_have_their_first_fault(rt: HostRuntime) {
    let length = MadtReason::BadEntryLength;
    each_refused(&rt, rt.alloc(), cut_entries(), MadtReason::CutEntry);
    each_refused(&rt, rt.alloc(), wrong_lengths(), length);
}

// what is read is written again, opaque entries too
#[test]
fn tables_are_written_again(rt: HostRuntime) {
    let alloc = rt.alloc();
    same_again(&rt, alloc, &BOARD);
    entries_same_again(&rt, alloc, &[]);
    let each = [
        0, 8, 1, 2, 3, 4, 5, 6, 1, 12, 7, 8, 9, 10, 11, 12, 13, 14, 15, 16, 2, 10, 17, 18, 19, 20,
        21, 22, 23, 24, 4, 6, 25, 26, 27, 28, 3, 2, 255, 5, 29, 30, 31,
    ];
    entries_same_again(&rt, alloc, &each);
}

// a table of these entries
fn table(entries: Vec<MadtEntry>) -> Madt {
    Madt {
        revision: 1,
        oem: *b"MPTAB ",
        table: *b"MPTABLE ",
        oem_revision: 1,
        creator: *b"MPTB",
        creator_revision: 1,
        local_address: 0,
        flags: 0,
        entries: Sequence::new(entries),
    }
}

// puts an opaque entry of this type, with a rest of so many bytes, behind these
fn push_opaque(
    alloc: Global,
    entries: &mut Vec<MadtEntry>,
    kind: u8,
    size: usize,
) -> Result<(), AllocError> {
    let rest = vec![in alloc; 0u8; size]?;
    let rest = Sequence::new(rest);
    entries.push(MadtEntry::Other(Opaque { kind, rest }))?;
    Ok(())
}

// a table with one opaque entry of this type, with a rest of so many bytes
fn opaque(alloc: Global, kind: u8, size: usize) -> Result<Madt, AllocError> {
    let mut entries = Vec::new(alloc);
    push_opaque(alloc, &mut entries, kind, size)?;
    Ok(table(entries))
}

// a table with 4,111 entries of 255 bytes, and one with a rest of so many: 1,048,351 bytes, and those
fn large(alloc: Global, size: usize) -> Result<Madt, AllocError> {
    let mut entries = Vec::new(alloc);
    for _ in 0..4111 {
        push_opaque(alloc, &mut entries, 3, 253)?;
    }
    push_opaque(alloc, &mut entries, 3, size)?;
    Ok(table(entries))
}

// whether an opaque entry of this type, with a rest of so many bytes, is lawful
fn is_lawful(rt: &impl Abort, alloc: Global, kind: u8, size: usize) -> bool {
    madt_ok(&opaque(alloc, kind, size).expect(rt, "no memory"))
}

/// The name of a row, the type of an opaque entry, how many bytes its rest has, and whether it is lawful.
const OPAQUE_ROWS: &[(&str, u8, usize, bool)] = &[
    ("type 3", 3, 253, true),
    ("254 bytes", 3, 254, false),
    ("type 0", 0, 6, false),
    ("type 1", 1, 10, false),
    ("type 2", 2, 8, false),
    ("type 4", 4, 4, false),
];

// opaque entries have a type of their own and a rest of at most 253 bytes
#[test]
fn opaque_entries_are_judged(rt: HostRuntime) {
    for (name, kind, size, want) in OPAQUE_ROWS {
        same(&rt, name, is_lawful(&rt, rt.alloc(), *kind, *size), *want);
    }
}

// whether the large table with a rest of so many bytes is lawful
fn large_is_lawful(rt: &impl Abort, alloc: Global, size: usize) -> bool {
    madt_ok(&large(alloc, size).expect(rt, "no memory"))
}

// a table has at most 1,048,576 bytes
#[test]
fn large_tables_are_judged(rt: HostRuntime) {
    let alloc = rt.alloc();
    same(&rt, "the most", large_is_lawful(&rt, alloc, 225), true);
    same(&rt, "one more", large_is_lawful(&rt, alloc, 226), false);
}
