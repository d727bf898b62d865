//! Tables of either revision under a floating pointer of either, all four worked out by hand: what each lists, and
//! what becomes of it.

use crate::harness::same;
use crate::revision_images::{
    CLEAR_LINE_1, CLEAR_LINE_4, HEADER_LINE_1, HEADER_LINE_4, POINTER_1, POINTER_4, POINTER_LINE_1,
    POINTER_LINE_4, TABLE_1, TABLE_4,
};
use crate::revisions::{image_of, listing, lists, tables_in_file};
use mpt_audit::{Finding, audit};
use mpt_base::MemShelf;
use mpt_parse::parse;
use mpt_spec::Tables;
use mpt_table::read;
use mpt_write::{canon, raise, well_formed, write_image};
use std::alloc::Global;
use std::process::Abort;

/// Where a finding names no entry.
const NO: u32 = 65_535;

/// A floating pointer and a table, and what is made of them.
struct Row {
    name: &'static str,
    pointer: &'static [u8],
    table: &'static [u8],
    /// The lines of the floating pointer and the header.
    lines: (&'static [u8], &'static [u8]),
    /// The header's line in canonical form.
    canonical: &'static [u8],
    /// The header's line where the tables are raised; that of the floating pointer has revision 04.
    raised: &'static [u8],
    /// The numbers of the broken rules: no I/O APIC, a reserved bit of the header, two revisions.
    rules: &'static [u8],
}

const ROWS: &[Row] = &[
    Row {
        name: "both of revision 1",
        pointer: &POINTER_1,
        table: &TABLE_1,
        lines: (POINTER_LINE_1, HEADER_LINE_1),
        canonical: CLEAR_LINE_1,
        raised: CLEAR_LINE_4,
        rules: &[8, 15],
    },
    Row {
        name: "a pointer of revision 1 to a table of revision 4",
        pointer: &POINTER_1,
        table: &TABLE_4,
        lines: (POINTER_LINE_1, HEADER_LINE_4),
        canonical: CLEAR_LINE_4,
        raised: HEADER_LINE_4,
        rules: &[8, 15, 20],
    },
    Row {
        name: "a pointer of revision 4 to a table of revision 1",
        pointer: &POINTER_4,
        table: &TABLE_1,
        lines: (POINTER_LINE_4, HEADER_LINE_1),
        canonical: CLEAR_LINE_1,
        raised: CLEAR_LINE_4,
        rules: &[8, 15, 20],
    },
    Row {
        name: "both of revision 4",
        pointer: &POINTER_4,
        table: &TABLE_4,
        lines: (POINTER_LINE_4, HEADER_LINE_4),
        canonical: CLEAR_LINE_4,
        raised: HEADER_LINE_4,
        rules: &[8, 15],
    },
];

fn rows() -> &'static [Row] {
    ROWS
}

// the tables of a row's image
fn tables_of(rt: &impl Abort, alloc: Global, row: &Row) -> Tables {
    let image = image_of(rt, alloc, row.pointer, row.table);
    read(alloc, image.as_slice()).expect(rt, "refused")
}

#[test]
fn are_read_and_listed(rt: HostRuntime) {
    for row in rows() {
        let tables = tables_of(&rt, rt.alloc(), row);
        lists(&rt, rt.alloc(), row.name, &tables, row.lines);
    }
}

// puts a row's image on a shelf
fn add_image(rt: &impl Abort, alloc: Global, shelf: &mut MemShelf, row: &Row) {
    let image = image_of(rt, alloc, row.pointer, row.table);
    let added = shelf.add("image", image.as_slice());
    added.expect(rt, "no memory");
}

// the tables of a row's image as a file
fn tables_in(rt: &impl Abort, alloc: Global, row: &Row) -> Tables {
    let mut shelf = MemShelf::new(alloc);
    add_image(rt, alloc, &mut shelf, row);
    tables_in_file(rt, alloc, &mut shelf, "image")
}

#[test]
fn are_read_by_windows(rt: HostRuntime) {
    for row in rows() {
        let tables = tables_in(&rt, rt.alloc(), row);
        lists(&rt, rt.alloc(), row.name, &tables, row.lines);
    }
}

// just these rules are broken, each by no entry
fn breaks(rt: &impl Abort, alloc: Global, name: &str, tables: &Tables, rules: &[u8]) {
    if !well_formed(tables) {
        panic!(rt; "not well formed");
    }
    let found = audit(alloc, tables).expect(rt, "no memory");
    same_rules(rt, name, found.as_slice(), rules);
}

fn same_rules(rt: &impl Abort, name: &str, found: &[Finding], rules: &[u8]) {
    same(rt, name, found.len(), rules.len());
    let mut place = 0usize;
    for rule in rules {
        let want = Some((*rule, NO, NO));
        same(rt, name, parts_of(found.get(place)), want);
        place = place.saturating_add(1);
    }
}

// the rule of a finding, and its two entries
fn parts_of(finding: Option<&Finding>) -> Option<(u8, u32, u32)> {
    match finding {
        Some(found) => Some((found.rule, found.entry, found.other)),
        None => None,
    }
}

#[test]
fn are_audited(rt: HostRuntime) {
    for row in rows() {
        let tables = tables_of(&rt, rt.alloc(), row);
        breaks(&rt, rt.alloc(), row.name, &tables, row.rules);
    }
}

#[test]
fn are_made_canonical(rt: HostRuntime) {
    for row in rows() {
        let tables = tables_of(&rt, rt.alloc(), row);
        let canonical = canon(rt.alloc(), tables).expect(&rt, "no memory");
        let lines = (row.lines.0, row.canonical);
        lists(&rt, rt.alloc(), row.name, &canonical, lines);
    }
}

#[test]
fn are_raised(rt: HostRuntime) {
    for row in rows() {
        let mut tables = tables_of(&rt, rt.alloc(), row);
        raise_tables(&rt, &mut tables);
        let lines = (POINTER_LINE_4, row.raised);
        lists(&rt, rt.alloc(), row.name, &tables, lines);
    }
}

// raises well formed tables
fn raise_tables(rt: &impl Abort, tables: &mut Tables) {
    if !well_formed(tables) {
        panic!(rt; "not well formed");
    }
    raise(tables);
}

// the image that is built of a row's listing
fn built(rt: &impl Abort, alloc: Global, row: &Row) -> Vec<u8> {
    let text = listing(rt, alloc, row.lines);
    built_of(rt, alloc, text.as_slice())
}

// the image that is built of a listing
fn built_of(rt: &impl Abort, alloc: Global, text: &[u8]) -> Vec<u8> {
    if text.len() > 1_000_000 {
        panic!(rt; "too long");
    }
    let Ok(tables) = parse(alloc, text) else {
        panic!(rt; "refused");
    };
    write_image(alloc, &tables).expect(rt, "no memory")
}

// an image has bytes at a place
fn has_at(rt: &impl Abort, name: &str, image: &[u8], at: usize, bytes: &[u8]) {
    let Some(rest) = image.get(at..) else {
        panic!(rt; "a short image");
    };
    same(rt, name, rest.starts_with(bytes), true);
}

#[test]
fn are_built_byte_for_byte(rt: HostRuntime) {
    for row in rows() {
        let image = built(&rt, rt.alloc(), row);
        same_parts(&rt, row, image.as_slice());
    }
}

// the parts of the image that is built of a row's listing
fn same_parts(rt: &impl Abort, row: &Row, image: &[u8]) {
    has_at(rt, row.name, image, 0x40E, &[0x50, 0x00]);
    has_at(rt, row.name, image, 0x500, row.pointer);
    has_at(rt, row.name, image, 0x510, row.table);
    has_at(rt, row.name, image, 0x550, &[0; 16]);
}
