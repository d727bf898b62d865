//! The sizes of a table's parts in bytes (MultiProcessor Specification 1.4, sections 4.2 to 4.4). Sums
//! stand still at the last value of a `u64`.

ghost use Rattle.std.specs.Prelude.{◌≡◌, ◌+◌, ◌-◌, ◌<◌, ◌^◌, min};
ghost use Rattle.mpt_spec.specs.Canonical.{base_size, ext_size, block_size};
ghost use Rattle.mpt_spec.specs.Entries.{base_length};
ghost use Rattle.mpt_spec.specs.Extended.{ext_length};

use mpt_spec::{Base, Body, Ext, Table, Tables};

fn base_length(entry: &Base) -> u64
    ensures { result ≡ base_length entry.now }
{
    match entry {
        Base::Processor(_) => 20,
        _ => 8,
    }
}

fn ext_length(entry: &Ext) -> u64
    ensures { result ≡ min (ext_length entry.now) (2 ^ 64 - 1) }
{
    match entry {
        Ext::Space(_) => 20,
        Ext::Hierarchy(_) | Ext::Modifier(_) => 8,
        Ext::Opaque(opaque) => (opaque.rest.as_slice().len() as u64).saturating_add(2),
    }
}

/// The bytes of the base table, the header included.
pub(crate) fn base_size(table: &Table) -> u64
    ensures { result ≡ min (base_size table.now) (2 ^ 64 - 1) }
{
    let mut size = 44u64;
    for entry in table.base.as_slice() {
        size = size.saturating_add(base_length(entry));
    }
    size
}

/// The bytes of the extended part.
pub(crate) fn ext_size(table: &Table) -> u64
    ensures { result ≡ min (ext_size table.now) (2 ^ 64 - 1) }
{
    let mut size = 0u64;
    for entry in table.ext.as_slice() {
        size = size.saturating_add(ext_length(entry));
    }
    size
}

/// The bytes of the block, base table and extended part, and 0 for a default configuration. Their sum
/// is below 2^64, as it is for well formed tables, each of whose parts has at most 65,535 bytes.
pub fn block_bytes(tables: &Tables) -> u64
    requires { block_size tables.now.body < 2 ^ 64 }
    ensures { result ≡ block_size tables.now.body }
{
    match &tables.body {
        Body::Default(_) => 0,
        Body::Listed(table) => base_size(table) + ext_size(table),
    }
}
