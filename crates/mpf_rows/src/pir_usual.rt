//! A usual board with one PCI interrupt: its table, and where other tables differ from it.

use crate::harness::same;
use crate::pir::{made, platform, same_bytes, same_differences};
use crate::platforms::{board_ints, bus};
use mpf_pir::{Difference, Odd, PirReason, PirRefusal, read_pir};
use mpt_base::put_bytes;
use mpt_route::Platform;
use std::alloc::Global;
use std::process::Abort;
use std::test::Fail;

// INTA# of device 2 on bus 0, among the interrupts of an ISA bus
fn board(rt: &impl Abort, alloc: Global) -> Platform {
    let buses = [bus(0, *b"PCI   "), bus(1, *b"ISA   ")];
    let ints = board_ints(alloc).expect(rt, "no memory");
    platform(rt, alloc, &buses, ints.as_slice())
}

/// The 48 bytes of the board's table.
const TABLE: [u8; 48] = [
    0x24, 0x50, 0x49, 0x52, 0x00, 0x01, 0x30, 0x00, 0, 0, 0, 0, 0, 0, 0, 0, //
    0, 0, 0, 0, 0, 0, 0, 0, 0, 0, 0, 0, 0, 0, 0, 0xAF, //
    0x00, 0x10, 0x01, 0, 0, 0, 0, 0, 0, 0, 0, 0, 0, 0, 0, 0,
];

fn difference(device: u8, why: Odd) -> Difference {
    Difference {
        bus: 0,
        device,
        pin: 0,
        why,
    }
}

// the table made of the platform is the board's
fn makes_its_table(rt: &impl Abort, alloc: Global, p: &Platform) {
    let t = made(alloc, p).expect(rt, "no table");
    same_bytes(rt, alloc, &t, &TABLE);
}

// the platform differs in these from the table that the bytes are
fn differs(
    rt: &impl Abort,
    alloc: Global,
    name: &str,
    p: &Platform,
    bytes: &[u8],
    want: &[Difference],
) {
    let t = read_pir(alloc, bytes).expect(rt, "not read");
    same_differences(rt, alloc, name, p, &t, want);
}

#[test]
fn the_board_makes_its_table(rt: HostRuntime) {
    let p = board(&rt, rt.alloc());
    makes_its_table(&rt, rt.alloc(), &p);
    differs(&rt, rt.alloc(), "no differences", &p, &TABLE, &[]);
}

// the platform has device 2, and this table device 3
fn has_another_device(rt: &impl Abort, alloc: Global, p: &Platform) {
    let mut bytes = TABLE;
    bytes[33] = 0x18;
    bytes[31] = 0xA7;
    let want = [difference(2, Odd::OnlyMp), difference(3, Odd::OnlyPir)];
    differs(rt, alloc, "the differences", p, &bytes, &want);
}

#[test]
fn another_device_is_two_differences(rt: HostRuntime) {
    let p = board(&rt, rt.alloc());
    has_another_device(&rt, rt.alloc(), &p);
}

// the fault of bytes, and none where they are a table
fn fault_of(alloc: Global, bytes: &[u8]) -> Option<PirRefusal> {
    match read_pir(alloc, bytes) {
        Ok(_) => None,
        Err(refusal) => Some(refusal),
    }
}

fn fault(at: u64, why: PirReason) -> Option<PirRefusal> {
    Some(PirRefusal::Fault { at, why })
}

// the board's table with three bytes in the place of others
fn with_bytes(places: [(usize, u8); 3]) -> [u8; 48] {
    let mut bytes = TABLE;
    for (at, byte) in places {
        if at < 48 {
            bytes[at] = byte;
        }
    }
    bytes
}

/// The name of a row, the bytes that are put into the board's table, and its first fault.
type Row = (&'static str, [(usize, u8); 3], u64, PirReason);

/// No byte: its place is behind the table.
const NONE: (usize, u8) = (48, 0);

const SIGNATURE_ROWS: &[Row] = &[
    (
        "signature",
        [(0, 0x25), (31, 0xAE), NONE],
        0,
        PirReason::BadSignature,
    ),
    (
        "signature, sum",
        [(3, 0x53), NONE, NONE],
        0,
        PirReason::BadSignature,
    ),
    (
        "signature, version",
        [(0, 0x25), (5, 0x00), NONE],
        0,
        PirReason::BadSignature,
    ),
    (
        "signature, size",
        [(0, 0x25), (6, 0x20), (31, 0xBE)],
        0,
        PirReason::BadSignature,
    ),
];

const VERSION_ROWS: &[Row] = &[
    (
        "version 0.0",
        [(5, 0x00), (31, 0xB0), NONE],
        4,
        PirReason::BadVersion,
    ),
    (
        "version 1.1, sum",
        [(4, 0x01), NONE, NONE],
        4,
        PirReason::BadVersion,
    ),
    (
        "version, size",
        [(4, 0x01), (6, 0x31), (31, 0xAD)],
        4,
        PirReason::BadVersion,
    ),
];

const SIZE_AND_SUM_ROWS: &[Row] = &[
    (
        "a size of 32",
        [(6, 0x20), (31, 0xBF), NONE],
        6,
        PirReason::BadSize,
    ),
    (
        "a size of 49, sum",
        [(6, 0x31), NONE, NONE],
        6,
        PirReason::BadSize,
    ),
    (
        "a size of 304, sum",
        [(7, 0x01), NONE, NONE],
        6,
        PirReason::BadSize,
    ),
    ("sum", [(31, 0xAE), NONE, NONE], 31, PirReason::BadSum),
    (
        "a byte of a slot, sum",
        [(47, 0x01), NONE, NONE],
        31,
        PirReason::BadSum,
    ),
];

// the table of each row has this first fault
fn told(rt: &impl Abort, alloc: Global, rows: &[Row]) {
    for (name, places, at, why) in rows {
        let got = fault_of(alloc, &with_bytes(*places));
        same(rt, name, got, fault(*at, *why));
    }
}

// each fault alone and before each that stands beside it; where a byte is changed alone, the sum is wrong too
#[test]
fn the_first_fault_is_told(rt: HostRuntime) {
    told(&rt, rt.alloc(), SIGNATURE_ROWS);
    told(&rt, rt.alloc(), VERSION_ROWS);
    told(&rt, rt.alloc(), SIZE_AND_SUM_ROWS);
}

#[test]
fn cut_tables_have_their_first_fault(rt: HostRuntime) -> Result<(), Fail> {
    let alloc = rt.alloc();
    let (short, _) = TABLE.split_at(31);
    same(
        &rt,
        "31 bytes",
        fault_of(alloc, short),
        fault(0, PirReason::Short),
    );
    let (header, _) = TABLE.split_at(32);
    same(
        &rt,
        "32 bytes",
        fault_of(alloc, header),
        fault(6, PirReason::BadSize),
    );
    same(
        &rt,
        "31 zeros",
        fault_of(alloc, &[0; 31]),
        fault(0, PirReason::Short),
    );
    let mut odd = [0; 49];
    put_bytes(&mut odd, 0, &TABLE);
    odd[6] = 0x31;
    odd[31] = 0xAE;
    same(
        &rt,
        "49 bytes of size 49",
        fault_of(alloc, &odd),
        fault(6, PirReason::BadSize),
    );
    same(&rt, "the same bytes", fault_of(alloc, &TABLE), None);
    Ok(())
}
