//! What a drill comes to.

ghost use Rattle.std.specs.Prelude.{◌<◌, ℕ, List};
ghost use Rattle.mptab_walk.specs.Commands.{IsDrillDue};
ghost use Rattle.mptab_walk.specs.Walk.{IsDelivered, outside};

use crate::delivery::{deliver_line, deliver_text};
use crate::status::{DONE, NO_MEMORY};
use mpb_tally::drill_summary;
use mpt_base::{NoMemory, Sink};
use std::alloc::Global;

/// Delivers the summary of the drill with this number, or says that memory ran out.
pub fn give_of_drill<O: Sink>(alloc: Global, n: u16, out: &mut O) -> u8
    requires { n < 10000 }
    ensures { (status : ℕ) × (text : List ℕ) × IsDrillDue n status text
        × IsDelivered (outside 0 0 0 (O.faults out.old) (O.written out.old))
        (outside 0 0 0 (O.faults out.new) (O.written out.new)) result status text }
{
    match drill_summary(alloc, u32::from(n)) {
        Ok(text) => deliver_text(out, DONE, text.as_slice()),
        Err(NoMemory) => deliver_line(out, NO_MEMORY, &[b"mptab: no memory"]),
    }
}
