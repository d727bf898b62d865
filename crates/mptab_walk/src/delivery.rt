//! The delivery of a text to a sink, in pieces none of which is empty.

ghost use Rattle.std.specs.Prelude.{◌≡◌, map, OnOk, OnErr};
ghost use Rattle.mpt_base.specs.Outside.{Rose, Appends, AppendsPrefix};
ghost use Rattle.mpt_listing.specs.Listing.{line};
ghost use Rattle.mptab_walk.specs.Walk.{IsDelivered, outside};

use crate::status::CANNOT_WRITE;
use mpt_base::{Failed, Sink};

/// The bytes of a piece; the last may be shorter.
const PIECE: usize = 4096;

/// Puts a text piece by piece. It ends at the first put that fails.
pub(crate) fn put_text<O: Sink>(out: &mut O, text: &[u8]) -> Result<(), Failed>
    ensures ok { OnOk result (Appends (O.written out.old) (O.written out.new) text.now) }
    ensures err { OnErr result (AppendsPrefix (O.written out.old) (O.written out.new) text.now) }
    ensures failed { OnErr result (Rose (O.faults out.old) (O.faults out.new)) }
    ensures unfailed { OnOk result (O.faults out.new ≡ O.faults out.old) }
{
    let mut rest = text;
    while !rest.is_empty() {
        let (piece, after) = rest.split_at(rest.len().min(PIECE));
        if let Err(failed) = out.put(piece) {
            return Err(failed);
        }
        rest = after;
    }
    Ok(())
}

/// Puts a line of these parts, without taking memory. It ends at the first put that fails.
pub(crate) fn put_line<O: Sink>(out: &mut O, parts: &[&[u8]]) -> Result<(), Failed>
    ensures ok { OnOk result (Appends (O.written out.old) (O.written out.new)
        (line (map (λ part. part.now) parts.now))) }
    ensures err { OnErr result (AppendsPrefix (O.written out.old) (O.written out.new)
        (line (map (λ part. part.now) parts.now))) }
    ensures failed { OnErr result (Rose (O.faults out.old) (O.faults out.new)) }
    ensures unfailed { OnOk result (O.faults out.new ≡ O.faults out.old) }
{
    for part in parts {
        if let Err(failed) = put_text(out, part) {
            return Err(failed);
        }
    }
    put_text(out, b"\n")
}

/// Delivers a text. The status is the answer's, or that of a sink that failed.
pub fn deliver_text<O: Sink>(out: &mut O, status: u8, text: &[u8]) -> u8
    ensures { IsDelivered (outside 0 0 0 (O.faults out.old) (O.written out.old))
        (outside 0 0 0 (O.faults out.new) (O.written out.new)) result status text.now }
{
    match put_text(out, text) {
        Ok(()) => status,
        Err(Failed) => CANNOT_WRITE,
    }
}

/// Delivers a line of these parts, without taking memory.
pub fn deliver_line<O: Sink>(out: &mut O, status: u8, parts: &[&[u8]]) -> u8
    ensures { IsDelivered (outside 0 0 0 (O.faults out.old) (O.written out.old))
        (outside 0 0 0 (O.faults out.new) (O.written out.new))
        result status (line (map (λ part. part.now) parts.now)) }
{
    match put_line(out, parts) {
        Ok(()) => status,
        Err(Failed) => CANNOT_WRITE,
    }
}
