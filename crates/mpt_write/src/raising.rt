//! Raised tables: both revisions are 4. That they mean the same is this project's own profile of revision
//! 1.

ghost use Rattle.std.specs.Prelude.{◌≡◌, ◌↔◌, replicate};
ghost use Rattle.mpt_spec.specs.Revision.{by_revision};
ghost use Rattle.mpt_spec.specs.Canonical.{raised_body, raised_of, IsWellFormed, FitsInImage};

use crate::clearing::cleared_old;
use mpt_spec::{Body, REVISION, Tables};

fn raise_body(body: &mut Body)
    ensures { body.new ≡ raised_body body.old }
{
    if let Body::Listed(table) = body {
        table.old = cleared_old(table.revision, table.old);
        table.revision = REVISION;
    }
}

/// Raises the tables to revision 4: floating pointer and table, and what a table of revision 1 kept in
/// bytes 40 to 43 is given up. The tables are well formed.
pub fn raise(tables: &mut Tables)
    requires well_formed { IsWellFormed tables.old }
    ensures form { tables.new ≡ raised_of tables.old }
    ensures twice { raised_of tables.new ≡ tables.new }
    ensures well_formed { IsWellFormed tables.new }
    ensures fits { FitsInImage tables.new ↔ FitsInImage tables.old }
{
    tables.pointer.revision = REVISION;
    raise_body(&mut tables.body);
}
