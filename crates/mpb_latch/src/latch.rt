//! The shared latch (docs/THREADS.md).

ghost use Rattle.std.specs.Prelude.{◌≡◌, ◌<◌, ◌≤◌, ◌^◌, ◌+◌, ◌++◌, ◌∷◌, ◌||◌, ◌&&◌, ◌==◌, ◌⊎◌, [], ℕ, true, false, length, slice_index, slice_index_or, slice_get, vec_len, vec_capacity, IfOk, IsSome, Some, map, All, Any, sum_by};
ghost use Rattle.std.specs.List.{range_with_len};
ghost use Rattle.std.specs.Int.{bit_at};
ghost use Rattle.mpb_spec.specs.declared.pulse.Hit.TheVariants.{New};
ghost use Rattle.mpb_spec.specs.Pulses.{HasCountsFor, IsInRange, FollowsPlan, counts_of, first_hit, hit_of, logs_of, new_hits, planned, pulses_of, with_pins, with_pins_from};
ghost use Rattle.mpb_latch.specs.Seats.{fresh_device_seat, fresh_collector_seat};

use crate::account::add_pins;
use crate::closing::{settle, take_all};
use crate::opening::{Words, collector_seats, copied, device_seats, open_words};
use crate::rule::{Collected, Ended, Looked, Pulsed};
use crate::seat::{ColSeat, DevSeat};
use mpb_spec::{Account, Hit, Pulse};
use mpt_base::NoMemory;
use std::alloc::Global;
use std::marker::Model;

/// A latch that threads share by reference: one word for each I/O APIC, and one that counts the
/// devices that have ended. Each call is one atomic step on one word. Contracts see which latch it
/// is, how many I/O APICs it has, and the devices' plans.
#[derive(Drop)]
pub struct Latch {
    table: Words,
    logs: Vec<Vec<(Pulse, Hit)>>,
    collected: Vec<Vec<u32>>,
}

impl Model for Latch {
    ghost use Rattle.std.specs.Prelude.{◌≡◌, ◌≤◌, ◌+◌, [], length, map, vec_capacity};
    ghost use Rattle.mpb_latch.specs.Seats.{SharedLatch};

    ghost Value = { SharedLatch };

    ghost view = { λ l. record { latch = l.table.shared.table_id; ios = l.table.shared.key.0; plans = map (λ p. p.items) l.table.shared.key.1.value.items } };

    ghost invariant = { λ l. ((l.table.shared.table_id.words ≡ l.table.shared.key.0 + 1) × (l.table.shared.table_id.slots ≡ 0))
        × ((l.logs.items ≡ []) × (length l.table.shared.key.1.value.items ≤ vec_capacity l.logs))
        × ((l.collected.items ≡ []) × (l.table.shared.key.0 ≤ vec_capacity l.collected)) };
}

/// New where the bit of the pin was 0.
fn hit_at(found: u64, pin: u8) -> Hit
    requires { pin < 24 }
    ensures { result ≡ hit_of (bit_at found pin) }
{
    if found >> pin & 1 == 0 {
        Hit::New
    } else {
        Hit::Merged
    }
}

impl Latch {
    /// A latch for `ios` I/O APICs, with a seat for each plan and one for each I/O APIC's collector,
    /// in order. It takes all the memory that the latch ever needs.
    pub fn new(
        alloc: Global,
        ios: u8,
        plans: &[Vec<Pulse>],
    ) -> Result<(Latch, Vec<DevSeat>, Vec<ColSeat>), NoMemory>
        requires range { (ios ≤ 4) × All (λ plan. All (IsInRange ios) plan.items) plans.now }
        requires few { sum_by (λ plan. length plan.items) plans.now < 2 ^ 32 }
        ensures latch { IfOk result (λ made. (made.0.ios ≡ ios) × (made.0.plans ≡ map (λ plan. plan.items) plans.now)) }
        ensures devices { IfOk result (λ made. made.1.items ≡ map (λ plan. fresh_device_seat made.0.latch plan.items) plans.now) }
        ensures collectors { IfOk result (λ made. made.2.items ≡ map (fresh_collector_seat made.0.latch made.0.plans) (range_with_len 0 ios)) }
        ensures lengths { IfOk result (λ made. (vec_len made.1 ≡ length plans.now) × (vec_len made.2 ≡ ios)) }
    {
        let Ok(logs) = Vec::with_capacity(alloc, plans.len()) else {
            return Err(NoMemory);
        };
        let Ok(collected) = Vec::with_capacity(alloc, usize::from(ios)) else {
            return Err(NoMemory);
        };
        let Ok(copy) = copied(alloc, plans) else {
            return Err(NoMemory);
        };
        let Ok((table, mut all)) = open_words(alloc, ios, &copy) else {
            return Err(NoMemory);
        };
        let Ok(seats) = device_seats(alloc, &table, &mut all, plans) else {
            return Err(NoMemory);
        };
        let Ok(cols) = collector_seats(alloc, &table, &mut all, ios, &copy) else {
            return Err(NoMemory);
        };
        Ok((
            Latch {
                table,
                logs,
                collected,
            },
            seats,
            cols,
        ))
    }

    /// The next pulse of the device's plan, made in one step. It is New exactly where the pin's bit
    /// was 0 at that step.
    pub fn pulse(&self, seat: &mut DevSeat, p: Pulse) -> Hit
        requires seat { seat.old.latch ≡ self.now.latch }
        requires next { slice_get seat.old.plan (length seat.old.log) ≡ Some p }
        ensures log { seat.new ≡ record seat.old { log = seat.old.log ++ (p, result) ∷ [] } }
        ensures plan { FollowsPlan seat.new.log seat.new.plan }
    {
        let found = self
            .table
            .shared
            .fetch_or::<Pulsed>(&mut seat.seat, p.io as usize + 1, 1 << p.pin);
        let hit = hit_at(found, p.pin);
        let Ok(()) = seat.log.push((p, hit)) else {
            unreachable!()
        };
        hit
    }

    /// The device has made all the pulses of its plan, and ends in one step.
    pub fn end(&self, seat: &mut DevSeat)
        requires seat { seat.old.latch ≡ self.now.latch }
        requires going { seat.old.ended ≡ false }
        requires done { length seat.old.log ≡ length seat.old.plan }
        ensures { seat.new ≡ record seat.old { ended = true } }
    {
        self.table.shared.fetch_add::<Ended>(&mut seat.seat, 0, 1);
    }

    /// The latched pins of the collector's I/O APIC, bit n for pin n, which are free from this one
    /// step on.
    pub fn collect(&self, col: &mut ColSeat) -> u32
        requires seat { col.old.latch ≡ self.now.latch }
        ensures step { col.new ≡ record col.old { counts = with_pins result col.old.counts; swaps = col.old.swaps + 1; dry = col.old.dry || (col.old.full && (result == 0)) } }
        ensures counts { (pin : ℕ) → pin < 24 → slice_index col.new.counts pin ≡ slice_index col.old.counts pin + bit_at result pin }
        ensures pins { (result < 2 ^ 24) × (length col.new.counts ≡ 24) }
        ensures dry { col.old.dry ≡ true → result ≡ 0 }
        ensures planned { (pin : ℕ) → pin < 24 → slice_index col.new.counts pin ≤ planned col.new.io pin col.new.plans }
    {
        let word = col.io as usize + 1;
        let found = self.table.shared.swap::<Collected>(&mut col.seat, word, 0);
        add_pins(&mut col.counts, found as u32);
        found as u32
    }

    /// Whether all devices had ended at this one step.
    pub fn ended(&self, col: &mut ColSeat) -> bool
        requires seat { col.old.latch ≡ self.now.latch }
        ensures { col.new ≡ record col.old { looks = col.old.looks + 1; full = result } }
    {
        let found = self.table.shared.load::<Looked>(&mut col.seat, 0);
        found == col.devices
    }

    /// Takes all seats of the latch back, the collectors in the order of their I/O APICs, and gives
    /// the account: the devices' logs in the order of their seats, and the counts of each I/O APIC.
    pub fn close(self, seats: Vec<DevSeat>, cols: Vec<ColSeat>) -> Account
        requires devices { (vec_len seats ≡ length self.plans) × All (λ s. s.latch ≡ self.latch) seats.items }
        requires collectors { (map (λ c. c.io) cols.items ≡ range_with_len 0 self.ios) × All (λ c. c.latch ≡ self.latch) cols.items }
        ensures logs { logs_of result ≡ map (λ s. s.log) seats.items }
        ensures counts { counts_of result ≡ map (λ c. c.counts) cols.items }
        ensures shape { HasCountsFor self.ios result }
        ensures plans { All (λ s. FollowsPlan s.log s.plan × (s.ended ≡ true → pulses_of s.log ≡ s.plan)) seats.items }
        ensures new_hits { (io pin : ℕ) → io < self.ios → pin < 24 → let count = slice_index (slice_index_or (counts_of result) io []) pin in (new_hits io pin (logs_of result) ≡ count) ⊎ (new_hits io pin (logs_of result) ≡ count + 1) }
        ensures dry { All (λ c. c.dry ≡ true → (pin : ℕ) → pin < 24 → new_hits c.io pin (logs_of result) ≡ slice_index c.counts pin) cols.items }
        ensures first { (io pin : ℕ) → Any (λ log. IsSome (first_hit io pin log)) (logs_of result) → Any (λ log. first_hit io pin log ≡ Some New) (logs_of result) }
        ensures planned { (io pin : ℕ) → io < self.ios → pin < 24 → slice_index (slice_index_or (counts_of result) io []) pin ≤ planned io pin self.plans }
        ensures full { All (λ c. c.full ≡ true → All (λ s. s.ended ≡ true) seats.items) cols.items }
    {
        let Latch {
            table,
            logs,
            collected,
        } = self;
        let (all, logs, collected) = take_all(&table, seats, cols, logs, collected);
        settle(table, all);
        Account { logs, collected }
    }
}
