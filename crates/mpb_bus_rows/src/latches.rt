//! Shared latches, with their seats in hand.
ghost use Rattle.std.specs.Prelude.{◌≡◌, [], ◌∷◌, length, IfOk};
ghost use Rattle.mpb_spec.specs.Pulses.{IsInRange};
ghost use Rattle.mpb_latch.specs.Seats.{fresh_device_seat, fresh_collector_seat};

use mpb_latch::{Account, ColSeat, DevSeat, Latch, Pulse};
use std::alloc::Global;
use std::test::Fail;

/// A latch of one device, which pulses the same pin twice, and one I/O APIC.
pub(crate) fn one_each(alloc: Global, pulse: Pulse) -> Result<(Latch, DevSeat, ColSeat), Fail>
    requires { IsInRange 1 pulse }
    ensures device { IfOk result (λ t. t.1 ≡ fresh_device_seat t.0.latch (pulse ∷ pulse ∷ [])) }
    ensures collector { IfOk result (λ t. t.2 ≡ fresh_collector_seat t.0.latch t.0.plans 0) }
{
    let plans = vec![in alloc; vec![in alloc; pulse, pulse]?]?;
    let (latch, mut seats, mut cols) = Latch::new(alloc, 1, plans.as_slice())?;
    let Some(seat) = seats.pop() else {
        unreachable!()
    };
    let Some(col) = cols.pop() else {
        unreachable!()
    };
    Ok((latch, seat, col))
}

/// A latch of three devices, each of which pulses the same pin once, and one I/O APIC.
pub(crate) fn three_devices(
    alloc: Global,
    pulse: Pulse,
) -> Result<(Latch, DevSeat, DevSeat, DevSeat, ColSeat), Fail>
    requires { IsInRange 1 pulse }
    ensures latch { IfOk result (λ t. (t.0.ios ≡ 1) × (length t.0.plans ≡ 3)) }
    ensures devices { IfOk result (λ t. (t.1 ≡ fresh_device_seat t.0.latch (pulse ∷ [])) × (t.2 ≡ fresh_device_seat t.0.latch (pulse ∷ [])) × (t.3 ≡ fresh_device_seat t.0.latch (pulse ∷ []))) }
    ensures collector { IfOk result (λ t. t.4 ≡ fresh_collector_seat t.0.latch t.0.plans 0) }
{
    let first = vec![in alloc; pulse]?;
    let second = vec![in alloc; pulse]?;
    let third = vec![in alloc; pulse]?;
    let plans = vec![in alloc; first, second, third]?;
    let (latch, mut seats, mut cols) = Latch::new(alloc, 1, plans.as_slice())?;
    let Some(third) = seats.pop() else {
        unreachable!()
    };
    let Some(second) = seats.pop() else {
        unreachable!()
    };
    let Some(first) = seats.pop() else {
        unreachable!()
    };
    let Some(col) = cols.pop() else {
        unreachable!()
    };
    Ok((latch, first, second, third, col))
}

/// The account of a latch of three devices and one I/O APIC.
pub(crate) fn closed(
    alloc: Global,
    latch: Latch,
    first: DevSeat,
    second: DevSeat,
    third: DevSeat,
    col: ColSeat,
) -> Result<Account, Fail>
    requires latch { (latch.ios ≡ 1) × (length latch.plans ≡ 3) }
    requires devices { (first.latch ≡ latch.latch) × (second.latch ≡ latch.latch) × (third.latch ≡ latch.latch) }
    requires collector { (col.latch ≡ latch.latch) × (col.io ≡ 0) }
{
    let seats = vec![in alloc; first, second, third]?;
    let cols = vec![in alloc; col]?;
    Ok(latch.close(seats, cols))
}
