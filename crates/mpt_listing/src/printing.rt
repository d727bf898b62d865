//! The whole listing.

ghost use Rattle.std.specs.Prelude.{◌≡◌, ◌++◌, IfOk, OnOk};
ghost use Rattle.std.specs.List.{flat_map};
ghost use Rattle.mpt_listing.specs.Listing.{base_line, ext_line, body_lines, listing_of};

use crate::entry_lines::{push_base_line, push_ext_line};
use crate::table_lines::{push_header_line, push_pointer_line};
use crate::text::{Part, push_line};
use mpt_base::NoMemory;
use mpt_spec::{Base, Body, Ext, Tables};
use std::alloc::{AllocError, Global};

/// The listing of tables. It takes memory for the text alone, and fails only where that runs out.
///
/// Of an `at` of 2^32 and above, where no floating pointer is looked for, the lowest eight digits are
/// written.
pub fn print(alloc: Global, tables: &Tables) -> Result<Vec<u8>, NoMemory>
    ensures { IfOk result (λ text. text.items ≡ listing_of tables.now) }
{
    let mut out = Vec::new(alloc);
    match push_listing(&mut out, tables) {
        Ok(()) => Ok(out),
        Err(_) => Err(NoMemory),
    }
}

fn push_listing(out: &mut Vec<u8>, tables: &Tables) -> Result<(), AllocError>
    ensures { OnOk result (out.new.items ≡ out.old.items ++ listing_of tables.now) }
{
    let Ok(()) = push_line(out, &[Part::Text(b"mptable 1")]) else {
        return Err(AllocError);
    };
    let Ok(()) = push_pointer_line(out, tables) else {
        return Err(AllocError);
    };
    let Ok(()) = push_body(out, &tables.body) else {
        return Err(AllocError);
    };
    push_line(out, &[Part::Text(b"end")])
}

fn push_body(out: &mut Vec<u8>, body: &Body) -> Result<(), AllocError>
    ensures { OnOk result (out.new.items ≡ out.old.items ++ body_lines body.now) }
{
    match body {
        Body::Default(_) => Ok(()),
        Body::Listed(table) => {
            let Ok(()) = push_header_line(out, table) else {
                return Err(AllocError);
            };
            let Ok(()) = push_base_lines(out, table.base.as_slice()) else {
                return Err(AllocError);
            };
            push_ext_lines(out, table.ext.as_slice())
        }
    }
}

fn push_base_lines(out: &mut Vec<u8>, entries: &[Base]) -> Result<(), AllocError>
    ensures { OnOk result (out.new.items ≡ out.old.items ++ flat_map base_line entries.now) }
{
    for entry in entries {
        let Ok(()) = push_base_line(out, entry) else {
            return Err(AllocError);
        };
    }
    Ok(())
}

fn push_ext_lines(out: &mut Vec<u8>, entries: &[Ext]) -> Result<(), AllocError>
    ensures { OnOk result (out.new.items ≡ out.old.items ++ flat_map ext_line entries.now) }
{
    for entry in entries {
        let Ok(()) = push_ext_line(out, entry) else {
            return Err(AllocError);
        };
    }
    Ok(())
}
