//! One table for each rule, tables that break several, and the edges of rules.

use crate::harness::same;
use crate::tables::{Part, bus, cpu, default_tables, int, io, lint, listed, with_entries};
use mpt_audit::audit;
use mpt_rules::Finding;
use mpt_spec::{Base, Tables};
use mpt_write::well_formed;
use std::alloc::{AllocError, Global};
use std::process::Abort;

/// Where a finding names no entry.
const NO: u32 = 65_535;

/// A finding: rule, entry and other entry.
type Row = (u8, u32, u32);

// findings as rows
fn rows_of(alloc: Global, found: &[Finding]) -> Option<Vec<Row>> {
    let mut rows = Vec::new(alloc);
    for finding in found {
        let row = (finding.rule, finding.entry, finding.other);
        if rows.push(row).is_err() {
            return None;
        }
    }
    Some(rows)
}

// the findings of well formed tables, in their order
fn findings_of(alloc: Global, tables: &Tables) -> Option<Vec<Row>> {
    if !well_formed(tables) {
        return None;
    }
    match audit(alloc, tables) {
        Ok(found) => rows_of(alloc, found.as_slice()),
        Err(_) => None,
    }
}

// just these findings are made of the tables, in this order
fn same_findings(rt: &impl Abort, alloc: Global, name: &str, tables: &Tables, want: &[Row]) {
    let found = findings_of(alloc, tables).expect(rt, "no findings");
    same(rt, name, found.as_slice(), want);
}

// just these findings are made of a table of these base and extended entries
fn finds_in(rt: &impl Abort, alloc: Global, name: &str, base: &[Base], ext: &[Part], want: &[Row]) {
    let tables = listed(alloc, base, ext).expect(rt, "no memory");
    same_findings(rt, alloc, name, &tables, want);
}

// just these findings are made of a table of these base entries
fn finds(rt: &impl Abort, alloc: Global, name: &str, base: &[Base], want: &[Row]) {
    finds_in(rt, alloc, name, base, &[], want);
}

// a table of a processor, a PCI bus, an I/O APIC and these entries has just these findings; the entries
// begin with entry 3
fn finds_after(
    rt: &impl Abort,
    alloc: Global,
    name: &str,
    more: &[Base],
    ext: &[Part],
    want: &[Row],
) {
    let start = [cpu(0, 3), bus(0, *b"PCI   "), io(2, 1)];
    let mut base = Vec::from_slice(alloc, &start).expect(rt, "no memory");
    base.extend_from_slice(more).expect(rt, "no memory");
    finds_in(rt, alloc, name, base.as_slice(), ext, want);
}

fn each_rule_on_processors(rt: &impl Abort, alloc: Global) {
    let isa = bus(0, *b"ISA   ");
    finds(rt, alloc, "none", &[cpu(0, 3), isa, io(2, 1)], &[]);
    finds(rt, alloc, "1", &[cpu(0, 1), isa, io(2, 1)], &[(1, NO, NO)]);
    finds(
        rt,
        alloc,
        "2",
        &[cpu(0, 3), cpu(1, 3), cpu(2, 3), isa, io(3, 1)],
        &[(2, 1, 0), (2, 2, 0)],
    );
    finds(
        rt,
        alloc,
        "3",
        &[cpu(0, 2), isa, io(2, 1)],
        &[(1, NO, NO), (3, 0, NO)],
    );
}

fn each_rule_on_ids(rt: &impl Abort, alloc: Global) {
    let isa = bus(0, *b"ISA   ");
    finds(
        rt,
        alloc,
        "4",
        &[cpu(0, 3), cpu(1, 1), cpu(1, 0), cpu(1, 1), isa, io(2, 1)],
        &[(4, 2, 1), (4, 3, 1)],
    );
    finds(
        rt,
        alloc,
        "5",
        &[cpu(0, 3), isa, io(2, 1), io(2, 0)],
        &[(5, 3, 2)],
    );
    finds(
        rt,
        alloc,
        "6",
        &[cpu(1, 3), cpu(0, 1), isa, io(0, 1)],
        &[(6, 3, 1)],
    );
}

fn each_rule_on_buses(rt: &impl Abort, alloc: Global) {
    let isa = bus(0, *b"ISA   ");
    finds(
        rt,
        alloc,
        "7",
        &[cpu(0, 3), isa, bus(2, *b"PCI   "), io(2, 1)],
        &[(7, 2, NO)],
    );
    finds(rt, alloc, "8", &[cpu(0, 3), isa, io(2, 0)], &[(8, NO, NO)]);
    finds(
        rt,
        alloc,
        "9",
        &[cpu(0, 3), bus(0, *b"ISA\0\0\0"), io(2, 1)],
        &[(9, 1, NO)],
    );
    finds(rt, alloc, "10", &[cpu(0, 3), io(2, 1), isa], &[(10, 2, 1)]);
    finds(
        rt,
        alloc,
        "14",
        &[cpu(0, 7), isa, io(2, 3)],
        &[(14, 0, NO), (14, 2, NO)],
    );
}

#[test]
fn each_rule_on_processors_and_buses(rt: HostRuntime) {
    each_rule_on_processors(&rt, rt.alloc());
    each_rule_on_ids(&rt, rt.alloc());
    each_rule_on_buses(&rt, rt.alloc());
}

fn each_rule_on_an_interrupt(rt: &impl Abort, alloc: Global) {
    finds_after(
        rt,
        alloc,
        "none",
        &[int(0, 0, 0, 4, 2, 1), lint(1, 0, 0, 0, 0xFF, 1)],
        &[],
        &[],
    );
    finds_after(
        rt,
        alloc,
        "11",
        &[int(0, 0, 1, 4, 2, 1), lint(1, 0, 1, 0, 0xFF, 1)],
        &[],
        &[(11, 3, NO), (11, 4, NO)],
    );
    finds_after(
        rt,
        alloc,
        "12",
        &[int(0, 0, 0, 4, 0, 1), lint(1, 0, 0, 0, 2, 1)],
        &[],
        &[(12, 3, NO), (12, 4, NO)],
    );
    finds_after(
        rt,
        alloc,
        "13",
        &[int(0, 0, 0, 4, 2, 24), lint(1, 0, 0, 0, 0, 2)],
        &[],
        &[(13, 3, NO), (13, 4, NO)],
    );
}

fn each_rule_on_flags(rt: &impl Abort, alloc: Global) {
    finds_after(
        rt,
        alloc,
        "14",
        &[int(0, 16, 0, 4, 2, 23), lint(1, 0x8000, 0, 0, 0, 0)],
        &[],
        &[(14, 3, NO), (14, 4, NO)],
    );
    finds_after(
        rt,
        alloc,
        "16",
        &[
            int(4, 0, 0, 4, 2, 1),
            int(0, 2, 0, 5, 2, 2),
            lint(1, 8, 0, 0, 0, 0),
            lint(0, 0, 0, 0x80, 0, 0),
        ],
        &[],
        &[(16, 3, NO), (16, 4, NO), (16, 5, NO), (16, 6, NO)],
    );
}

fn each_rule_on_two_interrupts(rt: &impl Abort, alloc: Global) {
    finds_after(
        rt,
        alloc,
        "18",
        &[
            int(0, 0, 0, 4, 2, 1),
            int(0, 0, 0, 4, 2, 2),
            int(1, 0, 0, 4, 2, 3),
        ],
        &[],
        &[(18, 4, 3)],
    );
    // of the third entry at the pin the first with another sense is the second
    finds_after(
        rt,
        alloc,
        "19",
        &[
            int(0, 0, 0, 4, 2, 1),
            int(0, 5, 0, 5, 2, 1),
            int(0, 0, 0, 6, 2, 1),
            int(1, 0, 0, 6, 2, 1),
        ],
        &[],
        &[(19, 4, 3), (19, 5, 4), (19, 6, 3)],
    );
    finds_after(
        rt,
        alloc,
        "19, to all",
        &[int(0, 0, 0, 4, 0xFF, 1), int(0, 5, 0, 5, 0xFF, 1)],
        &[],
        &[],
    );
}

#[test]
fn each_rule_on_interrupts(rt: HostRuntime) {
    each_rule_on_an_interrupt(&rt, rt.alloc());
    each_rule_on_flags(&rt, rt.alloc());
    each_rule_on_two_interrupts(&rt, rt.alloc());
}

fn each_rule_on_an_extended_entry(rt: &impl Abort, alloc: Global) {
    let top = 0xFFFF_FFFF_FFFF_FFFF;
    finds_after(
        rt,
        alloc,
        "17 and 23",
        &[],
        &[
            Part::Space(0, 3, 0, 1),
            Part::Hierarchy(0, 2, 1),
            Part::Modifier(0, 0, 2),
            Part::Modifier(0, 2, 0),
        ],
        &[
            (17, 0, NO),
            (17, 1, NO),
            (17, 2, NO),
            (17, 3, NO),
            (23, 1, NO),
        ],
    );
    finds_after(
        rt,
        alloc,
        "21",
        &[],
        &[
            Part::Space(0, 0, top, 1),
            Part::Space(0, 0, top, 2),
            Part::Space(0, 1, 1, top),
            Part::Space(0, 2, 2, top),
        ],
        &[(21, 1, NO), (21, 3, NO)],
    );
}

fn ranges_that_meet(rt: &impl Abort, alloc: Global) {
    let top = 0xFFFF_FFFF_FFFF_FFFF;
    // ranges that touch don't meet, nor do those of other kinds, empty ones, and one past the top
    finds_after(
        rt,
        alloc,
        "22, none",
        &[],
        &[
            Part::Space(0, 0, 16, 16),
            Part::Space(0, 0, 32, 16),
            Part::Space(0, 0, 0, 16),
            Part::Space(0, 1, 16, 16),
            Part::Space(0, 0, 20, 0),
            Part::Space(0, 0, 20, top),
        ],
        &[(21, 5, NO)],
    );
    finds_after(
        rt,
        alloc,
        "22",
        &[],
        &[
            Part::Space(0, 0, 16, 16),
            Part::Space(0, 0, 40, 8),
            Part::Space(0, 0, 31, 1),
            Part::Space(0, 0, 0, 64),
            Part::Space(0, 0, 47, 9),
        ],
        &[(22, 2, 0), (22, 3, 0), (22, 4, 1)],
    );
}

fn each_rule_on_parents(rt: &impl Abort, alloc: Global) {
    finds_after(
        rt,
        alloc,
        "23",
        &[],
        &[
            Part::Space(1, 0, 0, 1),
            Part::Modifier(1, 0, 0),
            Part::Hierarchy(1, 0, 0),
        ],
        &[(23, 0, NO), (23, 1, NO), (23, 2, NO)],
    );
    // the first hierarchy entry of a bus says its parent: 0 is below the ring of 1 and 2, and 3 has none
    finds_after(
        rt,
        alloc,
        "24",
        &[bus(1, *b"PCI   "), bus(2, *b"PCI   "), bus(3, *b"PCI   ")],
        &[
            Part::Hierarchy(0, 0, 1),
            Part::Hierarchy(1, 0, 2),
            Part::Hierarchy(2, 0, 1),
            Part::Hierarchy(2, 0, 2),
            Part::Hierarchy(2, 0, 3),
            Part::Hierarchy(2, 0, 0),
        ],
        &[
            (10, 3, 2),
            (24, 1, NO),
            (24, 2, NO),
            (24, 3, NO),
            (24, 5, NO),
        ],
    );
}

#[test]
fn each_rule_on_extended_entries(rt: HostRuntime) {
    each_rule_on_an_extended_entry(&rt, rt.alloc());
    ranges_that_meet(&rt, rt.alloc());
    each_rule_on_parents(&rt, rt.alloc());
}

// the base entries of a ring: a processor, 256 buses and an I/O APIC
fn ring_base(alloc: Global) -> Result<Vec<Base>, AllocError> {
    let mut base = Vec::from_slice(alloc, &[cpu(0, 3)])?;
    for id in 0..=255u8 {
        base.push(bus(id, *b"PCI   "))?;
    }
    base.push(io(2, 1))?;
    Ok(base)
}

// its extended entries: each bus is the parent of the one before, and the last is below the first
fn ring_parents(alloc: Global) -> Result<Vec<Part>, AllocError> {
    let mut ext = Vec::new(alloc);
    for id in 0..=255u8 {
        ext.push(Part::Hierarchy(id, 0, id.wrapping_add(1)))?;
    }
    Ok(ext)
}

// each bus is in a ring
fn ring_findings(alloc: Global) -> Result<Vec<Row>, AllocError> {
    let mut rows = Vec::new(alloc);
    for id in 0..256u32 {
        rows.push((24, id, NO))?;
    }
    Ok(rows)
}

#[test]
fn a_ring_of_all_buses(rt: HostRuntime) {
    let alloc = rt.alloc();
    let base = ring_base(alloc).expect(&rt, "no memory");
    let ext = ring_parents(alloc).expect(&rt, "no memory");
    let want = ring_findings(alloc).expect(&rt, "no memory");
    finds_in(
        &rt,
        alloc,
        "a ring",
        base.as_slice(),
        ext.as_slice(),
        want.as_slice(),
    );
}

// a table that breaks every rule but the one on revisions
fn all_rules(alloc: Global) -> Result<Tables, AllocError> {
    let base = [
        cpu(0, 2),
        cpu(0, 6),
        bus(0, *b"PCI   "),
        bus(5, *b"WEIRD "),
        io(0, 0),
        io(0, 0),
        int(0, 0, 0, 0x80, 0, 1),
        int(0, 0, 0, 0x80, 0, 1),
        int(0, 5, 0, 1, 0, 1),
        int(0, 0, 9, 2, 9, 24),
        lint(4, 0, 0, 0, 0xFF, 2),
        bus(2, *b"ISA   "),
    ];
    let ext = [
        Part::Space(0, 3, 0, 10),
        Part::Space(0, 3, 9, 1),
        Part::Space(7, 0, 0xFFFF_FFFF_FFFF_FFFF, 2),
        Part::Hierarchy(0, 0, 0),
    ];
    with_entries(alloc, &base, &ext, 1, 0)
}

/// Its findings.
const EVERY_RULE: &[Row] = &[
    (1, NO, NO),
    (2, 1, 0),
    (3, 0, NO),
    (3, 1, NO),
    (4, 1, 0),
    (5, 5, 4),
    (6, 4, 0),
    (6, 5, 0),
    (7, 3, NO),
    (8, NO, NO),
    (9, 3, NO),
    (10, 11, 10),
    (11, 9, NO),
    (12, 9, NO),
    (13, 9, NO),
    (13, 10, NO),
    (14, 1, NO),
    (15, NO, NO),
    (16, 6, NO),
    (16, 7, NO),
    (16, 10, NO),
    (17, 0, NO),
    (17, 1, NO),
    (18, 7, 6),
    (19, 8, 6),
    (21, 2, NO),
    (22, 1, 0),
    (23, 2, NO),
    (24, 3, NO),
];

// so each pair of rules that one table can break is broken by this one, in their order
#[test]
fn rules_come_in_their_order(rt: HostRuntime) {
    let alloc = rt.alloc();
    let tables = all_rules(alloc).expect(&rt, "no memory");
    same_findings(&rt, alloc, "every rule", &tables, EVERY_RULE);
}

/// Feature byte 2 of the pointer, byte 43 of the header, and what is found of them.
const RESERVED: &[(u8, u8, &[Row])] = &[
    (0xC0, 0, &[]),
    (0x20, 0, &[(15, NO, NO)]),
    (0, 1, &[(15, NO, NO)]),
];

// just these findings are made of the tables of a processor and an I/O APIC with that feature byte and that byte of
// the header
fn listed_finds(rt: &impl Abort, alloc: Global, feature: u8, reserved: u8, want: &[Row]) {
    let base = [cpu(0, 3), io(2, 1)];
    let tables = with_entries(alloc, &base, &[], feature, reserved).expect(rt, "no memory");
    same_findings(rt, alloc, "of a listed table", &tables, want);
}

// just these findings are made of a default configuration with the feature bytes 2 and 5
fn default_finds(rt: &impl Abort, alloc: Global, number: u8, second: u8, fifth: u8, want: &[Row]) {
    let tables = default_tables(number, second, fifth);
    same_findings(rt, alloc, "of a default", &tables, want);
}

// of the pointer's and the header's reserved bits, and of a default configuration
#[test]
fn reserved_bits_of_pointer_and_header(rt: HostRuntime) {
    let alloc = rt.alloc();
    for (feature, reserved, want) in RESERVED {
        listed_finds(&rt, alloc, *feature, *reserved, want);
    }
    for number in 1..=7u8 {
        default_finds(&rt, alloc, number, 0xC0, 0, &[]);
        default_finds(&rt, alloc, number, 0, 4, &[(15, NO, NO)]);
    }
}
