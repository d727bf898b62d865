//! A shared latch is closed: one seat takes all others in, and what it then knows is the account.

ghost use Rattle.std.specs.Prelude.{◌≡◌, ◌<◌, ◌≤◌, ◌++◌, [], ℕ, true, length, vec_capacity, map, All, sum_by, slice_index, slice_index_or};
ghost use Rattle.std.specs.List.{range_with_len};
ghost use Rattle.mpb_spec.specs.Pulses.{planned, hits, starts};
ghost use Rattle.mpb_latch.specs.Rule.{DeviceFits, SettlesAt, nobody, no_collector, together, device, collector, known_device, known_collector};

use crate::opening::Words;
use crate::rule::{Enters, Together};
use crate::seat::{ColSeat, DevSeat};
use crate::view::SeatView;
use atomic_table::Seat;
use mpb_spec::{Hit, Pulse};

/// A seat that has no device and no collector. The first seat can't be kept for this, since a seat
/// isn't `Sync` and the latch is.
fn empty_seat(table: &Words) -> Seat<(), SeatView>
    requires { 0 < table.now.shared.table_id.words }
    ensures { (result.table_id ≡ table.now.shared.table_id) × (result.me ≡ (nobody, [])) }
{
    let (_, seat) = table.shared.load_new_seat::<Enters>(0);
    seat
}

/// Takes a device in, behind those that were taken in before.
fn take_device(table: &Words, all: &mut Seat<(), SeatView>, seat: DevSeat) -> Vec<(Pulse, Hit)>
    requires table { (all.old.table_id ≡ table.now.shared.table_id) × (seat.latch ≡ table.now.shared.table_id) × (0 < table.now.shared.table_id.words) }
    ensures taken { (all.new.table_id ≡ all.old.table_id) × (all.new.me ≡ (together all.old.me.0 (device (known_device seat)), all.old.me.1)) }
    ensures log { result.items ≡ seat.log }
{
    let DevSeat { seat, log } = seat;
    table.shared.join_seat::<Together>(all, seat);
    log
}

/// Takes all devices in, in order, and answers their logs, for which there is room.
fn take_devices(
    table: &Words,
    all: &mut Seat<(), SeatView>,
    seats: Vec<DevSeat>,
    mut logs: Vec<Vec<(Pulse, Hit)>>,
) -> Vec<Vec<(Pulse, Hit)>>
    requires table { (all.old.table_id ≡ table.now.shared.table_id) × (0 < table.now.shared.table_id.words) × All (λ s. s.latch ≡ table.now.shared.table_id) seats.items }
    requires room { (logs.items ≡ []) × (length seats.items ≤ vec_capacity logs) }
    ensures all { (all.new.table_id ≡ all.old.table_id) × (all.new.me.1 ≡ all.old.me.1) × (all.new.me.0.collectors ≡ all.old.me.0.collectors ++ []) × (all.new.me.0.devices ≡ all.old.me.0.devices ++ map known_device seats.items) }
    ensures logs { map (λ l. l.items) result.items ≡ map (λ s. s.log) seats.items }
{
    for seat in seats {
        let log = take_device(table, all, seat);
        let Ok(()) = logs.push(log) else {
            unreachable!()
        };
    }
    logs
}

/// Takes a collector in, behind those that were taken in before.
fn take_collector(table: &Words, all: &mut Seat<(), SeatView>, seat: ColSeat) -> Vec<u32>
    requires table { (all.old.table_id ≡ table.now.shared.table_id) × (seat.latch ≡ table.now.shared.table_id) × (0 < table.now.shared.table_id.words) }
    ensures taken { (all.new.table_id ≡ all.old.table_id) × (all.new.me ≡ (together all.old.me.0 (collector (known_collector seat)), all.old.me.1)) }
    ensures counts { result.items ≡ seat.counts }
    ensures wide { length result.items ≡ 24 }
{
    let ColSeat {
        seat,
        io: _,
        devices: _,
        counts,
    } = seat;
    table.shared.join_seat::<Together>(all, seat);
    counts
}

/// Takes all collectors in, in order, and answers their counts, for which there is room.
fn take_collectors(
    table: &Words,
    all: &mut Seat<(), SeatView>,
    seats: Vec<ColSeat>,
    mut collected: Vec<Vec<u32>>,
) -> Vec<Vec<u32>>
    requires table { (all.old.table_id ≡ table.now.shared.table_id) × (0 < table.now.shared.table_id.words) × All (λ s. s.latch ≡ table.now.shared.table_id) seats.items }
    requires room { (collected.items ≡ []) × (length seats.items ≤ vec_capacity collected) }
    ensures all { (all.new.table_id ≡ all.old.table_id) × (all.new.me.1 ≡ all.old.me.1) × (all.new.me.0.devices ≡ all.old.me.0.devices ++ []) × (all.new.me.0.collectors ≡ all.old.me.0.collectors ++ map known_collector seats.items) }
    ensures counts { map (λ l. l.items) result.items ≡ map (λ s. s.counts) seats.items }
    ensures wide { All (λ l. length l.items ≡ 24) result.items }
{
    for seat in seats {
        let counts = take_collector(table, all, seat);
        let Ok(()) = collected.push(counts) else {
            unreachable!()
        };
    }
    collected
}

/// Takes all devices and collectors in, in order, and answers the seat that has them, the logs and
/// the counts.
pub(crate) fn take_all(
    table: &Words,
    seats: Vec<DevSeat>,
    cols: Vec<ColSeat>,
    logs: Vec<Vec<(Pulse, Hit)>>,
    collected: Vec<Vec<u32>>,
) -> (Seat<(), SeatView>, Vec<Vec<(Pulse, Hit)>>, Vec<Vec<u32>>)
    requires table { (0 < table.now.shared.table_id.words) × All (λ s. s.latch ≡ table.now.shared.table_id) seats.items × All (λ c. c.latch ≡ table.now.shared.table_id) cols.items }
    requires logs { (logs.items ≡ []) × (length seats.items ≤ vec_capacity logs) }
    requires counts { (collected.items ≡ []) × (length cols.items ≤ vec_capacity collected) }
    ensures table { result.0.table_id ≡ table.now.shared.table_id }
    ensures devices { result.0.me.0.devices ≡ map known_device seats.items }
    ensures collectors { result.0.me.0.collectors ≡ map known_collector cols.items }
    ensures logs { map (λ l. l.items) result.1.items ≡ map (λ s. s.log) seats.items }
    ensures counts { map (λ l. l.items) result.2.items ≡ map (λ c. c.counts) cols.items }
    ensures wide { All (λ l. length l.items ≡ 24) result.2.items }
{
    let mut all = empty_seat(table);
    let logs = take_devices(table, &mut all, seats, logs);
    let collected = take_collectors(table, &mut all, cols, collected);
    (all, logs, collected)
}

/// The end of the words, where all devices and collectors have been taken in.
pub(crate) fn settle(table: Words, seat: Seat<(), SeatView>)
    requires seat { (seat.table_id ≡ table.shared.table_id) × (table.shared.table_id.slots ≡ 0) }
    requires all { (length seat.me.0.devices ≡ length table.shared.key.1.value.items) × (map (λ c. c.io) seat.me.0.collectors ≡ range_with_len 0 table.shared.key.0) }
    ensures news { (io pin : ℕ) → io < table.shared.key.0 → pin < 24 → SettlesAt io pin seat.me.0.devices seat.me.0.collectors }
    ensures planned { (io pin : ℕ) → io < table.shared.key.0 → pin < 24 → slice_index (slice_index_or seat.me.0.collectors io no_collector).counts pin ≤ planned io pin (map (λ p. p.items) table.shared.key.1.value.items) }
    ensures started { (io pin : ℕ) → 0 < sum_by (λ d. hits io pin d.log) seat.me.0.devices → 0 < sum_by (λ d. starts io pin d.log) seat.me.0.devices }
    ensures first { All DeviceFits seat.me.0.devices }
    ensures full { All (λ c. c.full ≡ true → All (λ d. d.ended ≡ true) seat.me.0.devices) seat.me.0.collectors }
{
    let closed = table.close_with(seat);
    closed.free();
}
