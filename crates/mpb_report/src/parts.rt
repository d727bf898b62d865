//! Parts of a line, end to end.

ghost use Rattle.std.specs.Prelude.{◌≡◌, ◌++◌, OnOk};
ghost use Rattle.std.specs.List.{flat_map};
ghost use Rattle.mpt_listing.specs.Part.{part_text};

use crate::digits::{push_six, push_two};
use mpt_listing::{Part, push_part};
use std::alloc::AllocError;

/// Writes parts of a line. After an error a first piece of them may be written.
pub fn push_parts(out: &mut Vec<u8>, parts: &[Part]) -> Result<(), AllocError>
    ensures { OnOk result (out.new.items ≡ out.old.items ++ flat_map part_text parts.now) }
{
    for part in parts {
        if let Err(error) = push_one(out, part) {
            return Err(error);
        }
    }
    Ok(())
}

// a part; a byte and a mask of pins, which most are, in one piece
fn push_one(out: &mut Vec<u8>, part: &Part) -> Result<(), AllocError>
    ensures { OnOk result (out.new.items ≡ out.old.items ++ part_text part.now) }
{
    match *part {
        Part::Hex(2, number) => push_two(out, number),
        Part::Hex(6, number) => push_six(out, number),
        _ => push_part(out, part),
    }
}
