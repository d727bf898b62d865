//! The canonical form of tables: base entries in the order of their types, reserved bits zero. What is
//! reserved is set to zero (MultiProcessor Specification 1.4, sections 4.1 to 4.4); that and the order
//! are this project's own idea of canonical.

ghost use Rattle.std.specs.Prelude.{◌≡◌, ◌↔◌, map, IfOk};
ghost use Rattle.mpt_spec.specs.Canonical.{canonical_base, canonical_ext, canonical_table, canonical_body, canonical_of, in_type_order, IsCanonical, FitsInImage};

use crate::clearing::{cleared_old, cleared_reserved};
use crate::order::order;
use mpt_base::NoMemory;
use mpt_spec::{Base, Body, Ext, Sequence, Table, Tables};
use std::alloc::{AllocError, Global};

fn cleared_bases(alloc: Global, entries: &[Base]) -> Result<Vec<Base>, AllocError>
    ensures { IfOk result (λ cleared. cleared.items ≡ map canonical_base entries.now) }
{
    let mut out = Vec::new(alloc);
    for entry in entries {
        let Ok(()) = out.push(entry.cleared()) else {
            return Err(AllocError);
        };
    }
    Ok(out)
}

fn cleared_exts(alloc: Global, entries: Vec<Ext>) -> Result<Vec<Ext>, AllocError>
    ensures { IfOk result (λ cleared. cleared.items ≡ map canonical_ext entries.items) }
{
    let mut out = Vec::new(alloc);
    for entry in entries {
        let Ok(()) = out.push(entry.cleared()) else {
            return Err(AllocError);
        };
    }
    Ok(out)
}

fn canonical_bases(alloc: Global, entries: &[Base]) -> Result<Vec<Base>, NoMemory>
    ensures { IfOk result (λ ordered. ordered.items ≡ in_type_order (map canonical_base entries.now)) }
{
    let Ok(mut cleared) = cleared_bases(alloc, entries) else {
        return Err(NoMemory);
    };
    match order(&mut cleared) {
        Ok(()) => Ok(cleared),
        Err(failed) => Err(failed),
    }
}

fn canonical_exts(alloc: Global, entries: Vec<Ext>) -> Result<Vec<Ext>, NoMemory>
    ensures { IfOk result (λ cleared. cleared.items ≡ map canonical_ext entries.items) }
{
    match cleared_exts(alloc, entries) {
        Ok(cleared) => Ok(cleared),
        Err(_) => Err(NoMemory),
    }
}

fn canonical_table(alloc: Global, table: Table) -> Result<Table, NoMemory>
    ensures { IfOk result (λ canonical. canonical ≡ canonical_table table) }
{
    let Ok(base) = canonical_bases(alloc, table.base.as_slice()) else {
        return Err(NoMemory);
    };
    let Ok(ext) = canonical_exts(alloc, table.ext.into_vec()) else {
        return Err(NoMemory);
    };
    Ok(Table {
        revision: table.revision,
        oem: table.oem,
        product: table.product,
        oem_table: table.oem_table,
        oem_size: table.oem_size,
        local_address: table.local_address,
        reserved: cleared_reserved(table.revision, table.reserved),
        old: cleared_old(table.revision, table.old),
        base: Sequence::new(base),
        ext: Sequence::new(ext),
    })
}

fn canonical_body(alloc: Global, body: Body) -> Result<Body, NoMemory>
    ensures { IfOk result (λ canonical. canonical ≡ canonical_body body) }
{
    match body {
        Body::Default(number) => Ok(Body::Default(number)),
        Body::Listed(table) => match canonical_table(alloc, table) {
            Ok(canonical) => Ok(Body::Listed(canonical)),
            Err(failed) => Err(failed),
        },
    }
}

/// The canonical form of the tables: the base entries in the order of their types, those of one type in
/// the order that they had; the extended entries in theirs; and the reserved bits zero. It fails only
/// where memory runs out, and the tables are given up then.
pub fn canon(alloc: Global, tables: Tables) -> Result<Tables, NoMemory>
    ensures form { IfOk result (λ canonical. canonical ≡ canonical_of tables) }
    ensures canonical { IfOk result (λ canonical. IsCanonical canonical) }
    ensures unmoved { IfOk result (λ canonical. canonical_of canonical ≡ canonical) }
    ensures fits { IfOk result (λ canonical. FitsInImage canonical ↔ FitsInImage tables) }
{
    match canonical_body(alloc, tables.body) {
        Ok(body) => Ok(Tables {
            at: tables.at,
            pointer: tables.pointer.cleared(),
            body,
        }),
        Err(failed) => Err(failed),
    }
}
