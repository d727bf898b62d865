//! The workers of a shared latch, each in a thread of its own.
ghost use Rattle.std.specs.Prelude.{◌≡◌, ◌<◌, ◌≤◌, ◌^◌, ℕ, true, length, map, All, slice_index_or, sum_by};
ghost use Rattle.std.specs.Thread.{IsSync};
ghost use Rattle.mpb_spec.specs.Pulses.{IsInRange};
ghost use Rattle.mpb_latch.specs.Seats.{fresh_device_seat};

use mpb_latch::{Account, ColSeat, DevSeat, Latch, Pulse};
use std::alloc::Global;
use std::sync::Wait;
use std::test::Fail;
use std::thread;
use std::thread::{Threads, join_mut};

/// Makes all pulses of a plan, and ends.
fn run_device(latch: &Latch, seat: &mut DevSeat, plan: &[Pulse])
    requires { seat.old ≡ fresh_device_seat latch.now.latch plan.now }
    ensures { (seat.new.latch ≡ latch.now.latch) × (seat.new.ended ≡ true) }
{
    for pulse in plan {
        latch.pulse(seat, *pulse);
    }
    latch.end(seat);
}

/// Collects until it is dry.
fn run_collector<R: Wait>(rt: &R, latch: &Latch, col: &mut ColSeat)
    requires { col.old.latch ≡ latch.now.latch }
    ensures { (col.new.latch ≡ latch.now.latch) × (col.new.io ≡ col.old.io) × (col.new.dry ≡ true) }
{
    for _ in rt.forever() {
        let full = latch.ended(col);
        if latch.collect(col) == 0 && full {
            return;
        }
    }
    unreachable!()
}

/// Runs each device in a thread of its own.
fn run_devices<R: Threads + Sync>(
    rt: &R,
    latch: &Latch,
    seats: &mut [DevSeat],
    plans: &[Vec<Pulse>],
)
    requires { seats.old ≡ map (λ p. fresh_device_seat latch.now.latch p.items) plans.now }
    ensures { All (λ s. (s.latch ≡ latch.now.latch) × (s.ended ≡ true)) seats.new }
{
    thread::for_each_mut(
        rt,
        seats,
        8,
        &|i, seat| run_device(latch, seat, plans[i].as_slice()),
    );
}

/// Runs each collector in a thread of its own.
fn run_collectors<R: Threads + Wait + Sync>(rt: &R, latch: &Latch, cols: &mut [ColSeat])
    requires { All (λ c. c.latch ≡ latch.now.latch) cols.old }
    ensures latch { All (λ c. (c.latch ≡ latch.now.latch) × (c.dry ≡ true)) cols.new }
    ensures places { (i : ℕ) (d : _) → i < length cols.old → (slice_index_or cols.new i d).io ≡ (slice_index_or cols.old i d).io }
{
    thread::for_each_mut(rt, cols, 4, &|_, col| run_collector(rt, latch, col));
}

/// The account of a latch whose devices and collectors all ran at once.
pub(crate) fn account_of<R: Threads + Wait + Sync>(
    rt: &R,
    alloc: Global,
    ios: u8,
    plans: &[Vec<Pulse>],
) -> Result<Account, Fail>
    requires range { (ios ≤ 4) × All (λ plan. All (IsInRange ios) plan.items) plans.now }
    requires few { sum_by (λ plan. length plan.items) plans.now < 2 ^ 32 }
{
    let (latch, mut seats, mut cols) = Latch::new(alloc, ios, plans)?;
    run_both(rt, &latch, seats.as_mut_slice(), cols.as_mut_slice(), plans);
    Ok(latch.close(seats, cols))
}

/// Runs the devices beside the collectors.
fn run_both<R: Threads + Wait + Sync>(
    rt: &R,
    latch: &Latch,
    seats: &mut [DevSeat],
    cols: &mut [ColSeat],
    plans: &[Vec<Pulse>],
)
    requires devices { seats.old ≡ map (λ p. fresh_device_seat latch.now.latch p.items) plans.now }
    requires collectors { All (λ c. c.latch ≡ latch.now.latch) cols.old }
    ensures devices { All (λ s. (s.latch ≡ latch.now.latch) × (s.ended ≡ true)) seats.new }
    ensures latch { All (λ c. (c.latch ≡ latch.now.latch) × (c.dry ≡ true)) cols.new }
    ensures places { (i : ℕ) (d : _) → i < length cols.old → (slice_index_or cols.new i d).io ≡ (slice_index_or cols.old i d).io }
{
    join_mut(
        rt,
        &mut ||
            requires { IsSync R.row × (seats.now ≡ map (λ p. fresh_device_seat latch.now.latch p.items) plans.now) }
            ensures { All (λ s. (s.latch ≡ latch.entry.now.latch) × (s.ended ≡ true)) seats.exit.now }
        { run_devices(rt, latch, seats, plans) },
        &mut ||
            requires { IsSync R.row × All (λ c. c.latch ≡ latch.now.latch) cols.now }
            ensures { All (λ c. (c.latch ≡ latch.entry.now.latch) × (c.dry ≡ true)) cols.exit.now × ((i : ℕ) (d : _) → i < length cols.entry.now → (slice_index_or cols.exit.now i d).io ≡ (slice_index_or cols.entry.now i d).io) }
        { run_collectors(rt, latch, cols) },
    );
}
