//! Listings that are accepted: the tables that they say, and their text again.

use crate::harness::{same, tables_of};
use crate::texts::{all_texts, default_text, every_form_text};
use mpt_listing::print;
use mpt_spec::{
    Base, Body, Bus, Ext, Hierarchy, IntEntry, IoApic, Modifier, Pointer, Processor, Space, Table,
    Tables,
};
use std::alloc::Global;
use std::process::Abort;

// the text of the tables that a text says
fn same_again(rt: &impl Abort, alloc: Global, text: &[u8]) {
    let tables = tables_of(alloc, text).expect(rt, "not accepted");
    let again = print(alloc, &tables).expect(rt, "out of memory");
    same(rt, "the text again", again.as_slice(), text);
}

#[test]
fn texts_come_again(rt: HostRuntime) {
    for text in all_texts() {
        same_again(&rt, rt.alloc(), text);
    }
}

// the tables of a default configuration
fn same_default(rt: &impl Abort, tables: &Tables) {
    same(rt, "the place", tables.at, 0x9FC00);
    let pointer = Pointer {
        address: 0,
        revision: 4,
        features: [5, 0x80, 0, 0, 1],
    };
    same(rt, "the pointer", tables.pointer, pointer);
    let Body::Default(number) = &tables.body else {
        panic!(rt; "a listed table");
    };
    same(rt, "the default configuration", *number, 5);
}

#[test]
fn default_configuration(rt: HostRuntime) {
    let tables = tables_of(rt.alloc(), default_text());
    let tables = tables.expect(&rt, "not accepted");
    same_default(&rt, &tables);
}

/// The base entries of the listing with a line of each form.
const BASE: &[Base] = &[
    Base::Processor(Processor {
        apic: 0x1E,
        version: 0x14,
        flags: 0x82,
        signature: 0xDEADBEEF,
        features: 0x12345678,
        reserved: [1, 2, 3, 4, 0xA5, 6, 7, 0xF8],
    }),
    Base::Bus(Bus {
        id: 0xAB,
        name: *b"\"\\\x7F\x00 ~",
    }),
    Base::IoApic(IoApic {
        id: 8,
        version: 0x11,
        flags: 1,
        address: 0xFEC01000,
    }),
    Base::IoInt(IntEntry {
        kind: 3,
        flags: 0x1F0D,
        bus: 2,
        irq: 0x4C,
        dest: 0xFF,
        pin: 0x17,
    }),
    Base::LocalInt(IntEntry {
        kind: 0xFE,
        flags: 0xFFFF,
        bus: 0xFD,
        irq: 0xFC,
        dest: 0xFB,
        pin: 0xFA,
    }),
];

const SPACE: Space = Space {
    bus: 1,
    kind: 2,
    base: 0xFEDCBA9876543210,
    length: 0x8000000000001000,
};

const HIERARCHY: Hierarchy = Hierarchy {
    bus: 1,
    info: 3,
    parent: 2,
    reserved: [0, 0xC0, 9],
};

const MODIFIER: Modifier = Modifier {
    bus: 0,
    flags: 0x81,
    ranges: 0x80000001,
};

// the extended entries of that listing
fn same_ext(rt: &impl Abort, entries: &[Ext]) {
    same(rt, "the extended entries", entries.len(), 5);
    same_space(rt, entries.first());
    same_hierarchy(rt, entries.get(1));
    same_modifier(rt, entries.get(2));
    same_opaque(rt, entries.get(3), 0x83, b"");
    same_opaque(rt, entries.get(4), 0xFF, b"\x0F\xA0\x22");
}

fn same_space(rt: &impl Abort, entry: Option<&Ext>) {
    let Some(Ext::Space(space)) = entry else {
        panic!(rt; "no address space");
    };
    same(rt, "the address space", *space, SPACE);
}

fn same_hierarchy(rt: &impl Abort, entry: Option<&Ext>) {
    let Some(Ext::Hierarchy(hierarchy)) = entry else {
        panic!(rt; "no bus hierarchy");
    };
    same(rt, "the bus hierarchy", *hierarchy, HIERARCHY);
}

fn same_modifier(rt: &impl Abort, entry: Option<&Ext>) {
    let Some(Ext::Modifier(modifier)) = entry else {
        panic!(rt; "no address modifier");
    };
    same(rt, "the address modifier", *modifier, MODIFIER);
}

fn same_opaque(rt: &impl Abort, entry: Option<&Ext>, kind: u8, rest: &[u8]) {
    let Some(Ext::Opaque(opaque)) = entry else {
        panic!(rt; "no opaque entry");
    };
    same(rt, "the type of an opaque entry", opaque.kind, kind);
    same(rt, "its rest", opaque.rest.as_slice(), rest);
}

// the table of that listing
fn same_table(rt: &impl Abort, table: &Table) {
    same(rt, "the revision", table.revision, 4);
    same(rt, "the OEM id", table.oem, *b"OEM \x1F ~\x80");
    let product = *b"a'b\"c\\d\nef g";
    same(rt, "the product id", table.product, product);
    same(rt, "the OEM table", table.oem_table, 0xABCDEF);
    same(rt, "its size", table.oem_size, 0x3A0);
    same(rt, "the local APICs", table.local_address, 0xFEE00000);
    same(rt, "the reserved byte", table.reserved, 0x5A);
    same(rt, "the base entries", table.base.as_slice(), BASE);
    same_ext(rt, table.ext.as_slice());
}

// the tables of that listing
fn same_listed(rt: &impl Abort, tables: &Tables) {
    same(rt, "the place", tables.at, 0xF0000);
    let pointer = Pointer {
        address: 0xE0000,
        revision: 4,
        features: [0, 0x80, 0xFF, 0, 1],
    };
    same(rt, "the pointer", tables.pointer, pointer);
    let Body::Listed(table) = &tables.body else {
        panic!(rt; "a default configuration");
    };
    same_table(rt, table);
}

#[test]
fn every_form(rt: HostRuntime) {
    let tables = tables_of(rt.alloc(), every_form_text());
    let tables = tables.expect(&rt, "not accepted");
    same_listed(&rt, &tables);
}
