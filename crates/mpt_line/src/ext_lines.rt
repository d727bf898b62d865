//! The lines of extended entries, each read from the left.

ghost use Rattle.std.specs.Prelude.{◌≡◌, ◌++◌, IfSome, IfNone, IfOk};
ghost use Rattle.mpt_listing.specs.Listing.{ext_line};
ghost use Rattle.mpt_line.specs.Reading.{Gives, rest_in, run_in};
ghost use Rattle.mpt_line.specs.Forms.{space_in, hierarchy_in, modifier_in, opaque_in, ext_in};
ghost use Rattle.mpt_line.specs.Lines.{IsRightExt, BeginsWith, BeginsWithNone};

use crate::byte_fields::read_bytes_field;
use crate::fields::{read_byte, read_end, read_field, read_part, read_u8_field, read_u32_field};
use mpt_spec::{Ext, Hierarchy, Modifier, Opaque, Sequence, Space};
use std::alloc::{AllocError, Global};

/// The extended entry whose line begins the text, and what follows that line; `None` exactly where the
/// text begins with the line of none. It takes memory for the bytes of an opaque entry alone, and fails
/// only where that runs out.
pub fn read_ext_line(alloc: Global, text: &[u8]) -> Result<Option<(Ext, &[u8])>, AllocError>
    ensures some { IfOk result (λ found. IfSome found (λ x.
        BeginsWith ext_line IsRightExt text.now x.0 x.1.now)) }
    ensures none { IfOk result (λ found. IfNone found (BeginsWithNone ext_line IsRightExt text.now)) }
{
    read_ext(alloc, text)
}

// The first of the four forms that reads.
#[tactic(auto, unfolding(crate::specs::Forms::ext_in))]
fn read_ext(alloc: Global, line: &[u8]) -> Result<Option<(Ext, &[u8])>, AllocError>
    ensures { IfOk result (λ o. Gives (λ x. (x.0, x.1.now)) o (ext_in line.now)) }
{
    if let Some((entry, rest)) = read_space(line) {
        return Ok(Some((Ext::Space(entry), rest)));
    }
    if let Some((entry, rest)) = read_hierarchy(line) {
        return Ok(Some((Ext::Hierarchy(entry), rest)));
    }
    if let Some((entry, rest)) = read_modifier(line) {
        return Ok(Some((Ext::Modifier(entry), rest)));
    }
    let Ok(found) = read_opaque(alloc, line) else {
        return Err(AllocError);
    };
    match found {
        Some((entry, rest)) => Ok(Some((Ext::Opaque(entry), rest))),
        None => Ok(None),
    }
}

#[tactic(auto, unfolding(crate::specs::Forms::space_in))]
fn read_space(line: &[u8]) -> Option<(Space, &[u8])>
    ensures { Gives (λ x. (x.0, x.1.now)) result (space_in line.now) }
{
    let Some((bus, rest)) = read_u8_field(line, b"space bus ") else {
        return None;
    };
    let Some((kind, rest)) = read_u8_field(rest, b" kind ") else {
        return None;
    };
    let Some((base, rest)) = read_field(rest, b" base ", 16) else {
        return None;
    };
    let Some((length, rest)) = read_field(rest, b" length ", 16) else {
        return None;
    };
    let Some(rest) = read_end(rest) else {
        return None;
    };
    Some((
        Space {
            bus,
            kind,
            base,
            length,
        },
        rest,
    ))
}

#[tactic(auto, unfolding(crate::specs::Forms::hierarchy_in))]
fn read_hierarchy(line: &[u8]) -> Option<(Hierarchy, &[u8])>
    ensures { Gives (λ x. (x.0, x.1.now)) result (hierarchy_in line.now) }
{
    let Some((bus, rest)) = read_u8_field(line, b"hierarchy bus ") else {
        return None;
    };
    let Some((info, rest)) = read_u8_field(rest, b" info ") else {
        return None;
    };
    let Some((parent, rest)) = read_u8_field(rest, b" parent ") else {
        return None;
    };
    let mut reserved = [0; 3];
    let Some(rest) = read_bytes_field(&mut reserved, rest, b" reserved ") else {
        return None;
    };
    let Some(rest) = read_end(rest) else {
        return None;
    };
    Some((
        Hierarchy {
            bus,
            info,
            parent,
            reserved,
        },
        rest,
    ))
}

#[tactic(auto, unfolding(crate::specs::Forms::modifier_in))]
fn read_modifier(line: &[u8]) -> Option<(Modifier, &[u8])>
    ensures { Gives (λ x. (x.0, x.1.now)) result (modifier_in line.now) }
{
    let Some((bus, rest)) = read_u8_field(line, b"modifier bus ") else {
        return None;
    };
    let Some((flags, rest)) = read_u8_field(rest, b" flags ") else {
        return None;
    };
    let Some((ranges, rest)) = read_u32_field(rest, b" ranges ") else {
        return None;
    };
    let Some(rest) = read_end(rest) else {
        return None;
    };
    Some((Modifier { bus, flags, ranges }, rest))
}

// Pushes as many bytes of two digits each as there are, at most `limit`, and gives what follows
fn push_run<'a>(out: &mut Vec<u8>, line: &'a [u8], limit: usize) -> Result<&'a [u8], AllocError>
    ensures bytes { IfOk result (λ rest. out.new.items ≡ out.old.items ++ (run_in limit line.now).0) }
    ensures rest { IfOk result (λ rest. rest.now ≡ (run_in limit line.now).1) }
{
    let mut rest = line;
    for _i in 0..limit {
        let Some((byte, after)) = read_byte(rest) else {
            return Ok(rest);
        };
        let Ok(()) = out.push(byte) else {
            return Err(AllocError);
        };
        rest = after;
    }
    Ok(rest)
}

// The bytes of an opaque entry: `-`, or one to 253
#[tactic(auto, unfolding(crate::specs::Reading::rest_in))]
fn read_rest(alloc: Global, line: &[u8]) -> Result<Option<(Vec<u8>, &[u8])>, AllocError>
    ensures { IfOk result (λ o. Gives (λ x. (x.0.items, x.1.now)) o (rest_in line.now)) }
{
    if let Some(rest) = read_part(line, b"-") {
        return Ok(Some((Vec::new(alloc), rest)));
    }
    let mut bytes = Vec::new(alloc);
    let Ok(rest) = push_run(&mut bytes, line, 253) else {
        return Err(AllocError);
    };
    if bytes.is_empty() {
        Ok(None)
    } else {
        Ok(Some((bytes, rest)))
    }
}

#[tactic(auto, unfolding(crate::specs::Forms::opaque_in))]
fn read_opaque(alloc: Global, line: &[u8]) -> Result<Option<(Opaque, &[u8])>, AllocError>
    ensures { IfOk result (λ o. Gives (λ x. (x.0, x.1.now)) o (opaque_in line.now)) }
{
    let Some((kind, rest)) = read_u8_field(line, b"opaque kind ") else {
        return Ok(None);
    };
    let Some(rest) = read_part(rest, b" rest ") else {
        return Ok(None);
    };
    let Ok(found) = read_rest(alloc, rest) else {
        return Err(AllocError);
    };
    let Some((bytes, rest)) = found else {
        return Ok(None);
    };
    let Some(rest) = read_end(rest) else {
        return Ok(None);
    };
    if kind < 131 {
        return Ok(None);
    }
    Ok(Some((
        Opaque {
            kind,
            rest: Sequence::new(bytes),
        },
        rest,
    )))
}
