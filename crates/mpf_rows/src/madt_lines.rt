//! The lines of ISA interrupts, in a table and by the routes of a platform.

use crate::harness::same;
use crate::platforms::{BOARD, answers, board, with_entries};
use mpf_madt::{Line, isa, read_madt, source};
use mpt_base::seal8;
use mpt_route::Platform;
use std::alloc::Global;
use std::process::Abort;

fn line(gsi: u32, level: bool, low: bool) -> Line {
    Line { gsi, level, low }
}

// the line of an interrupt in the table that the bytes are
fn isa_in(alloc: Global, bytes: &[u8], irq: u8) -> Option<Line> {
    if bytes.len() > 1_048_576 {
        return None;
    }
    let Ok(madt) = read_madt(alloc, bytes) else {
        return None;
    };
    Some(isa(&madt, irq))
}

// the line of an interrupt by the routes of a platform
fn source_of(alloc: Global, p: &Platform, irq: u8) -> Option<Option<Line>> {
    if irq >= 16 {
        return None;
    }
    let answers = answers(alloc, p, 0)?;
    Some(source(p, answers.as_slice(), irq))
}

fn interrupts_of_the_table(rt: &impl Abort, alloc: Global) {
    let edge = line(2, false, false);
    same(rt, "IRQ 0", isa_in(alloc, &BOARD, 0), Some(edge));
    let own = line(1, false, false);
    same(rt, "IRQ 1", isa_in(alloc, &BOARD, 1), Some(own));
    let mut bytes = BOARD;
    bytes[9] = 0xB7;
    bytes[80] = 0x0F;
    let level = line(2, true, true);
    same(rt, "level and low", isa_in(alloc, &bytes, 0), Some(level));
}

fn sources_of_the_board(rt: &impl Abort, alloc: Global, p: &Platform) {
    let edge = Some(line(2, false, false));
    let got = source_of(alloc, p, 0);
    same(rt, "source of IRQ 0", got, Some(edge));
    let got = source_of(alloc, p, 2);
    same(rt, "source of IRQ 2", got, Some(None));
    let own = Some(line(15, false, false));
    let got = source_of(alloc, p, 15);
    same(rt, "source of IRQ 15", got, Some(own));
}

#[test]
fn interrupts_have_their_lines(rt: HostRuntime) {
    interrupts_of_the_table(&rt, rt.alloc());
    let p = board(&rt, rt.alloc());
    sources_of_the_board(&rt, rt.alloc(), &p);
}

fn the_first_decides(rt: &impl Abort, alloc: Global, bytes: &[u8]) {
    let rows = [
        (0, line(3, false, false)),
        (1, line(1, false, false)),
        (200, line(0x1234_5678, false, true)),
        (255, line(255, false, false)),
    ];
    for (irq, want) in rows {
        same(rt, "the line", isa_in(alloc, bytes, irq), Some(want));
    }
}

// behind the board's header three overrides: IRQ 0 of bus 1, and twice IRQ 0 of bus 0, of which the first decides;
// then one of IRQ 200. IRQ 1 and 255 have none.
#[test]
fn the_first_override_of_bus_0_decides(rt: HostRuntime) {
    let overrides = [
        2, 10, 1, 0, 9, 0, 0, 0, 0x0F, 0, //
        2, 10, 0, 0, 3, 0, 0, 0, 0x05, 0, //
        2, 10, 0, 0, 4, 0, 0, 0, 0x0F, 0, //
        2, 10, 0, 200, 0x78, 0x56, 0x34, 0x12, 0x03, 0xFF,
    ];
    let bytes = with_entries(&rt, rt.alloc(), &overrides);
    the_first_decides(&rt, rt.alloc(), bytes.as_slice());
}

/// Flags, and whether they say level and low.
const FLAG_ROWS: &[(u8, bool, bool)] = &[
    (0x0, false, false),
    (0x1, false, false),
    (0x2, false, false),
    (0x3, false, true),
    (0x4, false, false),
    (0x7, false, true),
    (0x8, false, false),
    (0xB, false, true),
    (0xC, true, false),
    (0xD, true, false),
    (0xE, true, false),
    (0xF, true, true),
];

// bytes 80 and 81 of the board's table are the flags of its override: polarity 00, 01, 10, 11, and trigger
// mode 00, 01, 10, 11 in bits 2 to 3; only 11 says low or level
#[test]
fn only_11_is_low_or_level(rt: HostRuntime) {
    for (flags, level, low) in FLAG_ROWS {
        let mut bytes = BOARD;
        bytes[80] = *flags;
        seal8(&mut bytes, 9);
        let want = Some(line(2, *level, *low));
        same(&rt, "flags", isa_in(rt.alloc(), &bytes, 0), want);
    }
}
