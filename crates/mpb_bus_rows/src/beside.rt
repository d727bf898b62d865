//! A call on the plain latch beside the same call on the shared one.
ghost use Rattle.std.specs.Prelude.{◌≡◌, ◌<◌, ◌+◌, false, length, Some, slice_get};

use crate::harness::same;
use mpb_latch::{ColSeat, DevSeat, Hit, Latch, PlainLatch, Pulse};
use std::process::Abort;

/// Asserts that the pulse is answered so by both.
pub(crate) fn both_pulse(
    rt: &impl Abort,
    plain: &mut PlainLatch,
    latch: &Latch,
    seat: &mut DevSeat,
    pulse: Pulse,
    wanted: Hit,
)
    requires plain { (pulse.io < length plain.old.pins) × (pulse.pin < 24) }
    requires seat { (seat.old.latch ≡ latch.now.latch) × (slice_get seat.old.plan (length seat.old.log) ≡ Some pulse) }
    ensures plain { (length plain.new.pins ≡ length plain.old.pins) × (plain.new.devices ≡ plain.old.devices) × (plain.new.ended ≡ plain.old.ended) }
    ensures seat { (seat.new.latch ≡ seat.old.latch) × (seat.new.plan ≡ seat.old.plan) × (length seat.new.log ≡ length seat.old.log + 1) × (seat.new.ended ≡ seat.old.ended) }
{
    let answer = plain.pulse(pulse);
    let shared = latch.pulse(seat, pulse);
    assert!(rt; answer == wanted && shared == wanted, "another answer");
}

/// Asserts that both collect these pins of the first I/O APIC.
pub(crate) fn both_collect(
    rt: &impl Abort,
    plain: &mut PlainLatch,
    latch: &Latch,
    col: &mut ColSeat,
    wanted: u32,
)
    requires plain { 0 < length plain.old.pins }
    requires col { col.old.latch ≡ latch.now.latch }
    ensures plain { (length plain.new.pins ≡ length plain.old.pins) × (plain.new.devices ≡ plain.old.devices) × (plain.new.ended ≡ plain.old.ended) }
    ensures col { (col.new.latch ≡ col.old.latch) × (col.new.io ≡ col.old.io) }
{
    let pins = plain.collect(0);
    let shared = latch.collect(col);
    same(
        rt,
        "pins that both collect",
        (pins, shared),
        (wanted, wanted),
    );
}

/// Ends a device in both.
pub(crate) fn both_end(plain: &mut PlainLatch, latch: &Latch, seat: &mut DevSeat)
    requires plain { plain.old.ended < plain.old.devices }
    requires seat { (seat.old.latch ≡ latch.now.latch) × (seat.old.ended ≡ false) × (length seat.old.log ≡ length seat.old.plan) }
    ensures plain { (length plain.new.pins ≡ length plain.old.pins) × (plain.new.devices ≡ plain.old.devices) × (plain.new.ended ≡ plain.old.ended + 1) }
    ensures seat { seat.new.latch ≡ seat.old.latch }
{
    plain.end();
    latch.end(seat);
}

/// Asserts what both say of whether all devices have ended.
pub(crate) fn both_say(
    rt: &impl Abort,
    plain: &PlainLatch,
    latch: &Latch,
    col: &mut ColSeat,
    ended: bool,
)
    requires { col.old.latch ≡ latch.now.latch }
    ensures { (col.new.latch ≡ col.old.latch) × (col.new.io ≡ col.old.io) }
{
    let shared = latch.ended(col);
    same(
        rt,
        "whether all devices have ended",
        (plain.ended(), shared),
        (ended, ended),
    );
}

/// Asserts that in so many rounds both collect nothing, and neither says that all devices have ended.
pub(crate) fn stay_quiet(
    rt: &impl Abort,
    plain: &mut PlainLatch,
    latch: &Latch,
    col: &mut ColSeat,
    rounds: u8,
)
    requires plain { 0 < length plain.old.pins }
    requires col { col.old.latch ≡ latch.now.latch }
    ensures plain { (length plain.new.pins ≡ length plain.old.pins) × (plain.new.devices ≡ plain.old.devices) × (plain.new.ended ≡ plain.old.ended) }
    ensures col { (col.new.latch ≡ col.old.latch) × (col.new.io ≡ col.old.io) }
{
    for _ in 0..rounds {
        both_collect(rt, plain, latch, col, 0);
        both_say(rt, plain, latch, col, false);
    }
}
