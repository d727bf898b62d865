//! A usual two-processor board, and the lines of its routes and findings.

use crate::harness::same;
use crate::tables::{bus, cpu, default_tables, int, io, lint, listed};
use mpt_answers::{print_findings, print_routes, read_elcr};
use mpt_audit::audit;
use mpt_route::{Platform, platform_of, routes};
use mpt_spec::{Base, Tables};
use mpt_write::well_formed;
use std::alloc::Global;
use std::process::Abort;

// the lines of the routes of a platform that has at most 65,535 interrupts
fn platform_lines(alloc: Global, platform: &Platform, elcr: u16) -> Option<Vec<u8>> {
    if platform.ints.as_slice().len() > 65_535 {
        return None;
    }
    match routes(alloc, platform, elcr) {
        Ok(answers) => print_routes(alloc, answers.as_slice()).ok(),
        Err(_) => None,
    }
}

// the lines of the routes of well formed tables
fn route_lines(alloc: Global, tables: &Tables, elcr: u16) -> Option<Vec<u8>> {
    if !well_formed(tables) {
        return None;
    }
    match platform_of(alloc, tables) {
        Ok(platform) => platform_lines(alloc, &platform, elcr),
        Err(_) => None,
    }
}

// the lines of the findings of well formed tables
fn finding_lines(alloc: Global, tables: &Tables) -> Option<Vec<u8>> {
    if !well_formed(tables) {
        return None;
    }
    let Ok(found) = audit(alloc, tables) else {
        return None;
    };
    print_findings(alloc, found.as_slice()).ok()
}

fn same_findings(rt: &impl Abort, alloc: Global, tables: &Tables, want: &[u8]) {
    let text = finding_lines(alloc, tables).expect(rt, "no findings");
    same(rt, "the lines of the findings", text.as_slice(), want);
}

// the findings of a table of these entries have these lines
fn finds(rt: &impl Abort, alloc: Global, base: &[Base], want: &[u8]) {
    let tables = listed(alloc, base, &[]).expect(rt, "no memory");
    same_findings(rt, alloc, &tables, want);
}

// the base entries of the board, without its local interrupts
fn start() -> [Base; 22] {
    [
        cpu(0, 3),
        cpu(1, 1),
        bus(0, *b"PCI   "),
        bus(1, *b"ISA   "),
        io(0, 1),
        int(0, 0, 0, 0x08, 0, 0x10),
        int(3, 0, 1, 0, 0, 0),
        int(0, 0, 1, 0, 0, 2),
        int(0, 0, 1, 1, 0, 1),
        int(0, 0, 1, 3, 0, 3),
        int(0, 0, 1, 4, 0, 4),
        int(0, 0, 1, 5, 0, 5),
        int(0, 0, 1, 6, 0, 6),
        int(0, 0, 1, 7, 0, 7),
        int(0, 0, 1, 8, 0, 8),
        int(0, 0, 1, 9, 0, 9),
        int(0, 0, 1, 10, 0, 10),
        int(0, 0, 1, 11, 0, 11),
        int(0, 0, 1, 12, 0, 12),
        int(0, 0, 1, 13, 0, 13),
        int(0, 0, 1, 14, 0, 14),
        int(0, 0, 1, 15, 0, 15),
    ]
}

// the base entries of the board, with more I/O interrupts behind its own
fn board(rt: &impl Abort, alloc: Global, more: &[Base]) -> Vec<Base> {
    let mut base = Vec::from_slice(alloc, &start()).expect(rt, "no memory");
    base.extend_from_slice(more).expect(rt, "no memory");
    let last = [lint(3, 0, 1, 0, 0, 0), lint(1, 0, 1, 0, 0xFF, 1)];
    base.extend_from_slice(&last).expect(rt, "no memory");
    base
}

const FIRST_LINES: &[u8] = b"route 0 io 0 pin 16 vector 30 low 0000A030 high 00000000
route 1 io 0 pin 0 vector 00 low 00000700 high 00000000
route 2 io 0 pin 2 vector 22 low 00000022 high 00000000
route 3 io 0 pin 1 vector 21 low 00000021 high 00000000
";

fn count_lines(text: &[u8]) -> usize {
    let mut count = 0usize;
    for byte in text {
        if *byte == b'\n' {
            count = count.saturating_add(1);
        }
    }
    count
}

// the lines that the text begins with
fn begins(rt: &impl Abort, text: &[u8], head: &[u8]) {
    let found = text.get(..head.len());
    same(rt, "the first lines", found, Some(head));
}

// the line that the text ends with
fn ends(rt: &impl Abort, text: &[u8], last: &[u8]) {
    same(rt, "the last line", text.ends_with(last), true);
}

// the lines of the routes of the board with more I/O interrupts
fn board_lines(rt: &impl Abort, alloc: Global, more: &[Base]) -> Vec<u8> {
    let base = board(rt, alloc, more);
    let tables = listed(alloc, base.as_slice(), &[]).expect(rt, "no memory");
    lines_of(rt, alloc, &tables, 0)
}

fn lines_of(rt: &impl Abort, alloc: Global, tables: &Tables, elcr: u16) -> Vec<u8> {
    route_lines(alloc, tables, elcr).expect(rt, "no routes")
}

// the text begins with these lines, and has so many
fn same_lines(rt: &impl Abort, name: &str, text: &[u8], head: &[u8], count: usize) {
    begins(rt, text, head);
    same(rt, name, count_lines(text), count);
}

// an interrupt at a pin that is taken, with another sense
fn a_clash_is_told(rt: &impl Abort, alloc: Global) {
    let clash = int(0, 5, 0, 0x0C, 0, 0x10);
    let text = board_lines(rt, alloc, &[clash]);
    ends(rt, text.as_slice(), b"\nunrouted 17 Clash\n");
    same(rt, "18 lines", count_lines(text.as_slice()), 18);
}

// an interrupt at a pin that is taken, with the same sense
fn a_shared_pin_is_told(rt: &impl Abort, alloc: Global) {
    let shared = int(0, 0, 0, 0x0C, 0, 0x10);
    let text = board_lines(rt, alloc, &[shared]);
    ends(rt, text.as_slice(), b"\nunrouted 17 Shared\n");
}

#[test]
fn routes_a_usual_board(rt: HostRuntime) {
    let text = board_lines(&rt, rt.alloc(), &[]);
    same_lines(&rt, "17 lines", text.as_slice(), FIRST_LINES, 17);
    a_clash_is_told(&rt, rt.alloc());
    a_shared_pin_is_told(&rt, rt.alloc());
}

// the board has one finding
fn audits_the_board(rt: &impl Abort, alloc: Global) {
    let base = board(rt, alloc, &[]);
    let want = b"rule 6 entry 4 other 0\nfindings 1\n";
    finds(rt, alloc, base.as_slice(), want);
}

#[test]
fn audits_a_usual_board(rt: HostRuntime) {
    let alloc = rt.alloc();
    audits_the_board(&rt, alloc);
    let want = b"rule 8 entry - other -\nfindings 1\n";
    finds(&rt, alloc, &[cpu(0, 3)], want);
    let tables = default_tables(5, 0, 0);
    same_findings(&rt, alloc, &tables, b"findings 0\n");
}

/// The first lines of a default configuration, and of one with IRQ 1 level.
const DEFAULT_LINES: &[u8] = b"route 0 io 0 pin 0 vector 00 low 00000700 high 00000000
route 1 io 0 pin 1 vector 21 low 00000021 high 00000000
";

const LEVEL_LINES: &[u8] = b"route 0 io 0 pin 0 vector 00 low 00000700 high 00000000
route 1 io 0 pin 1 vector 21 low 0000A021 high 00000000
";

#[test]
fn routes_a_default_by_its_lines(rt: HostRuntime) {
    let tables = default_tables(2, 0x80, 0);
    let text = lines_of(&rt, rt.alloc(), &tables, 0);
    same_lines(&rt, "14 lines", text.as_slice(), DEFAULT_LINES, 14);
    let text = lines_of(&rt, rt.alloc(), &tables, 2);
    begins(&rt, text.as_slice(), LEVEL_LINES);
}

/// Words, and the ELCR that each is.
const ELCR_ROWS: &[(&str, Option<u16>)] = &[
    ("0000", Some(0)),
    ("0E20", Some(0x0E20)),
    ("fFaA", Some(0xFFAA)),
    ("9d0b", Some(0x9D0B)),
    ("", None),
    ("000", None),
    ("00000", None),
    ("00G0", None),
    ("+000", None),
    ("0x00", None),
];

#[test]
fn reads_the_elcr_of_four_digits(rt: HostRuntime) {
    for (word, number) in ELCR_ROWS {
        same(&rt, word, read_elcr(word), *number);
    }
}
