//! The tables of platforms, and how they are written.

use crate::harness::same;
use crate::platforms::{BOARD, answers, board, bus, cpu, int, io, platform};
use mpf_madt::{Madt, TranslateFault, differ, madt_ok, read_madt, translate, write_madt};
use mpt_route::{Answer, Platform};
use std::alloc::Global;
use std::process::Abort;

// the table of a platform with less than 1,000 entries of each kind
fn madt_of(
    alloc: Global,
    p: &Platform,
    answers: &[Answer],
) -> Option<Result<Madt, TranslateFault>> {
    let small = p.processors.as_slice().len() < 1000
        && p.buses.as_slice().len() < 1000
        && p.ios.as_slice().len() < 1000
        && p.ints.as_slice().len() < 1000
        && p.lints.as_slice().len() < 1000;
    if small {
        Some(translate(alloc, p, answers))
    } else {
        None
    }
}

// the bytes of a lawful table
fn bytes_of(alloc: Global, madt: &Madt) -> Option<Vec<u8>> {
    if madt_ok(madt) {
        write_madt(alloc, madt).ok()
    } else {
        None
    }
}

// the bytes of the table of a platform
fn translated(alloc: Global, p: &Platform, elcr: u16) -> Option<Vec<u8>> {
    let answers = answers(alloc, p, elcr)?;
    match madt_of(alloc, p, answers.as_slice()) {
        Some(Ok(madt)) => bytes_of(alloc, &madt),
        _ => None,
    }
}

fn table_of(rt: &impl Abort, alloc: Global, p: Platform, elcr: u16) -> Vec<u8> {
    translated(alloc, &p, elcr).expect(rt, "no table")
}

// the entries of the table of a platform, behind the header
fn same_entries(rt: &impl Abort, alloc: Global, p: Platform, elcr: u16, want: &[u8]) {
    let bytes = table_of(rt, alloc, p, elcr);
    same(rt, "the entries of the table", bytes.get(44..), Some(want));
}

// the usual board: 88 bytes
#[test]
fn board_has_its_table(rt: HostRuntime) {
    let alloc = rt.alloc();
    let bytes = table_of(&rt, alloc, board(&rt, alloc), 0);
    let want = BOARD.as_slice();
    same(&rt, "the bytes of the table", bytes.as_slice(), want);
}

// five I/O APICs of which one is disabled and one has the id of another: each enabled one has its entry,
// 24 interrupts apart
#[test]
fn each_enabled_io_apic_has_an_entry(rt: HostRuntime) {
    let alloc = rt.alloc();
    let ios = [
        io(2, 1, 0x10),
        io(3, 0, 0x20),
        io(2, 3, 0x30),
        io(4, 1, 0x40),
        io(5, 1, 0x50),
        io(6, 1, 0x60),
    ];
    let p = platform(&rt, alloc, &[], &[], &ios, &[], &[]);
    let want = [
        1, 12, 2, 0, 0x10, 0, 0, 0, 0, 0, 0, 0, 1, 12, 2, 0, 0x30, 0, 0, 0, 24, 0, 0, 0, 1, 12, 4,
        0, 0x40, 0, 0, 0, 48, 0, 0, 0, 1, 12, 5, 0, 0x50, 0, 0, 0, 72, 0, 0, 0, 1, 12, 6, 0, 0x60,
        0, 0, 0, 96, 0, 0, 0,
    ];
    same_entries(&rt, alloc, p, 0, &want);
}

// local NMIs: to all, though a processor has the id FFh; to the first of two with one id; to none; and an
// entry of another kind
#[test]
fn local_nmis_go_to_uids(rt: HostRuntime) {
    let alloc = rt.alloc();
    let lints = [
        int(1, 0xFFFD, 0, 0, 0xFF, 1),
        int(1, 0x0F, 0, 0, 7, 0),
        int(1, 0, 0, 0, 8, 1),
        int(3, 0, 0, 0, 7, 0),
    ];
    let p = platform(
        &rt,
        alloc,
        &[cpu(0xFF, 2), cpu(7, 1), cpu(7, 3)],
        &[],
        &[],
        &[],
        &lints,
    );
    let want = [
        0, 8, 0, 0xFF, 0, 0, 0, 0, 0, 8, 1, 7, 1, 0, 0, 0, 0, 8, 2, 7, 1, 0, 0, 0, 4, 6, 0xFF,
        0x0D, 0, 1, 4, 6, 1, 0x0F, 0, 0,
    ];
    same_entries(&rt, alloc, p, 0, &want);
}

// EISA interrupts by the ELCR, and PCI ones left out: IRQ 5 is level and low, IRQ 9 goes to the second
// I/O APIC
#[test]
fn eisa_interrupts_follow_the_elcr(rt: HostRuntime) {
    let alloc = rt.alloc();
    let ints = [
        int(0, 0, 0, 4, 2, 4),
        int(0, 0, 0, 5, 2, 5),
        int(0, 0, 1, 6, 2, 6),
        int(0, 0, 0, 9, 3, 1),
    ];
    let p = platform(
        &rt,
        alloc,
        &[],
        &[bus(0, *b"EISA  "), bus(1, *b"PCI   ")],
        &[io(2, 1, 0x10), io(3, 1, 0x20)],
        &ints,
        &[],
    );
    let want = [
        1, 12, 2, 0, 0x10, 0, 0, 0, 0, 0, 0, 0, 1, 12, 3, 0, 0x20, 0, 0, 0, 24, 0, 0, 0, 2, 10, 0,
        5, 5, 0, 0, 0, 0x0F, 0, 2, 10, 0, 9, 25, 0, 0, 0, 0x05, 0,
    ];
    same_entries(&rt, alloc, p, 0x20, &want);
}

// ISA interrupts by their flags: IRQ 3 edge and high has no override; IRQ 4 is edge and low, IRQ 5 level and
// high, IRQ 6 level and low; IRQ 7 goes nowhere at first, then to pin 9, and the later entry says nothing; an
// NMI of IRQ 8, and IRQ 10 of an unknown bus, say nothing
#[test]
fn overrides_follow_the_routes(rt: HostRuntime) {
    let alloc = rt.alloc();
    let ints = [
        int(0, 0x0F, 0, 6, 2, 6),
        int(0, 0x05, 0, 3, 2, 3),
        int(0, 0x07, 0, 4, 2, 4),
        int(0, 0x0D, 0, 5, 2, 5),
        int(0, 0x0F, 0, 7, 9, 7),
        int(0, 0x00, 0, 7, 2, 9),
        int(0, 0x0F, 0, 7, 2, 10),
        int(1, 0x0F, 0, 8, 2, 8),
        int(0, 0x0F, 7, 10, 2, 11),
    ];
    let p = platform(
        &rt,
        alloc,
        &[],
        &[bus(0, *b"ISA   ")],
        &[io(2, 1, 0x10)],
        &ints,
        &[],
    );
    let want = [
        1, 12, 2, 0, 0x10, 0, 0, 0, 0, 0, 0, 0, 2, 10, 0, 4, 4, 0, 0, 0, 0x07, 0, 2, 10, 0, 5, 5,
        0, 0, 0, 0x0D, 0, 2, 10, 0, 6, 6, 0, 0, 0, 0x0F, 0, 2, 10, 0, 7, 9, 0, 0, 0, 0x05, 0,
    ];
    same_entries(&rt, alloc, p, 0, &want);
}

// two entries of bus 0, of which the first says ISA, and of bus 1, of which the first says PCI: IRQ 4 is one of ISA,
// IRQ 5 isn't
#[test]
fn the_first_bus_entry_decides(rt: HostRuntime) {
    let alloc = rt.alloc();
    let buses = [
        bus(0, *b"ISA   "),
        bus(0, *b"PCI   "),
        bus(1, *b"PCI   "),
        bus(1, *b"ISA   "),
    ];
    let ints = [int(0, 0x05, 0, 4, 2, 6), int(0, 0x05, 1, 5, 2, 7)];
    let p = platform(&rt, alloc, &[], &buses, &[io(2, 1, 0x10)], &ints, &[]);
    let want = [
        1, 12, 2, 0, 0x10, 0, 0, 0, 0, 0, 0, 0, 2, 10, 0, 4, 6, 0, 0, 0, 0x05, 0,
    ];
    same_entries(&rt, alloc, p, 0, &want);
}

// the fault of a platform
fn fault_of(alloc: Global, p: &Platform) -> Option<TranslateFault> {
    match madt_of(alloc, p, &[]) {
        Some(Err(fault)) => Some(fault),
        _ => None,
    }
}

// the fault of a platform of so many processors
fn fault_of_many(rt: &impl Abort, alloc: Global, count: usize) -> Option<TranslateFault> {
    let processors = vec![in alloc; cpu(0, 1); count].expect(rt, "no memory");
    let p = platform(rt, alloc, processors.as_slice(), &[], &[], &[], &[]);
    fault_of(alloc, &p)
}

// 255 processors have a table, 256 have none
#[test]
fn processors_past_255_are_too_many(rt: HostRuntime) {
    let alloc = rt.alloc();
    same(&rt, "255", fault_of_many(&rt, alloc, 255), None);
    let want = Some(TranslateFault::ManyProcessors { n: 256 });
    same(&rt, "256", fault_of_many(&rt, alloc, 256), want);
}

// the mask of the differences of a platform with these answers and the table that the bytes are
fn differences_by(alloc: Global, p: &Platform, answers: &[Answer], bytes: &[u8]) -> Option<u16> {
    if bytes.len() > 1_048_576 {
        return None;
    }
    match read_madt(alloc, bytes) {
        Ok(madt) => Some(differ(p, answers, &madt)),
        Err(_) => None,
    }
}

// the mask of the differences of a platform and the table that the bytes are
fn differences(alloc: Global, p: &Platform, bytes: &[u8]) -> Option<u16> {
    let answers = answers(alloc, p, 0)?;
    differences_by(alloc, p, answers.as_slice(), bytes)
}

fn differs_at_irq_0(rt: &impl Abort, alloc: Global, p: &Platform) {
    same(rt, "its own", differences(alloc, p, &BOARD), Some(0));
    let mut bytes = BOARD;
    bytes[9] = 0xB7;
    bytes[80] = 0x0F;
    let got = differences(alloc, p, &bytes);
    same(rt, "level and low", got, Some(1));
}

// the board's own table differs nowhere; with IRQ 0 level and low it differs there alone
#[test]
fn the_board_differs_at_irq_0(rt: HostRuntime) {
    let p = board(&rt, rt.alloc());
    differs_at_irq_0(&rt, rt.alloc(), &p);
}
