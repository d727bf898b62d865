//! Whether tables are canonical: reserved bits are zero, and base entries in the order of their types
//! (MultiProcessor Specification 1.4, sections 4.1 to 4.4; the order is this project's own).

ghost use Rattle.std.specs.Prelude.{◌↔◌, IsTrue};
ghost use Rattle.std.specs.List.{AllByRecursion};
ghost use Rattle.mpt_spec.specs.Canonical.{HasClearBits, HasClearExtBits, IsCanonicalBody, IsCanonical};
ghost use Rattle.mpt_spec.specs.declared.tables.Body.TheVariants as body;

use crate::order::is_in_order;
use mpt_spec::{Base, Body, Ext, Table, Tables};

fn are_clear_bases(entries: &[Base]) -> bool
    ensures { IsTrue result ↔ AllByRecursion HasClearBits entries.now }
{
    entries.iter().all(|entry| entry.has_clear_bits())
}

fn are_clear_exts(entries: &[Ext]) -> bool
    ensures { IsTrue result ↔ AllByRecursion HasClearExtBits entries.now }
{
    entries.iter().all(|entry| entry.has_clear_bits())
}

fn is_canonical_table(table: &Table) -> bool
    ensures { IsTrue result ↔ IsCanonicalBody (body.Listed table.now) }
{
    table.has_clear_header()
        && are_clear_bases(table.base.as_slice())
        && is_in_order(table.base.as_slice())
        && are_clear_exts(table.ext.as_slice())
}

fn is_canonical_body(body: &Body) -> bool
    ensures { IsTrue result ↔ IsCanonicalBody body.now }
{
    match body {
        Body::Default(_) => true,
        Body::Listed(table) => is_canonical_table(table),
    }
}

/// Whether the tables are canonical: their reserved bits are zero, and no base entry has a type below
/// that of the entry before it.
pub fn is_canon(tables: &Tables) -> bool
    ensures { IsTrue result ↔ IsCanonical tables.now }
{
    tables.pointer.has_clear_bits() && is_canonical_body(&tables.body)
}
