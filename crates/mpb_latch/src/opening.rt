//! A shared latch is opened: its words, and its seats, which are cut one by one from the first.

ghost use Rattle.std.specs.Prelude.{◌≡◌, ◌<◌, ◌≤◌, ◌^◌, ◌+◌, [], length, vec_capacity, IfOk, map, All, sum_by};
ghost use Rattle.std.specs.List.{range_with_len};
ghost use Rattle.mpb_latch.specs.Seats.{fresh_device_seat, fresh_collector_seat};
ghost use Rattle.mpb_latch.specs.Rule.{fresh_device, fresh_collectors, opening_view, without_device, without_collector, device_of, collector_of, shown_device, shown_collector};

use crate::rule::{Balance, OneCollector, OneDevice, Plans};
use crate::seat::{ColSeat, DevSeat};
use crate::view::SeatView;
use atomic_table::{Seat, Table};
use mpb_spec::{Hit, PINS, Pulse};
use mpt_base::NoMemory;
use std::alloc::Global;
use std::snapshot::Snapshot;

/// The words of a latch: the first counts the devices that have ended, and each I/O APIC has one of
/// the others.
pub(crate) type Words = Table<(), SeatView, Plans, Balance, Global>;

/// A copy of the plans, since the rule of the words is told them by a vector.
pub(crate) fn copied(alloc: Global, plans: &[Vec<Pulse>]) -> Result<Vec<Vec<Pulse>>, NoMemory>
    ensures { IfOk result (λ copy. map (λ p. p.items) copy.items ≡ map (λ p. p.items) plans.now) }
{
    let Ok(mut copy) = Vec::with_capacity(alloc, plans.len()) else {
        return Err(NoMemory);
    };
    for plan in plans {
        let Ok(pulses) = Vec::from_slice(alloc, plan.as_slice()) else {
            return Err(NoMemory);
        };
        let Ok(()) = copy.push(pulses) else {
            return Err(NoMemory);
        };
    }
    Ok(copy)
}

/// The words, all 0, and a seat that has all devices and collectors.
pub(crate) fn open_words(
    alloc: Global,
    ios: u8,
    plans: &Vec<Vec<Pulse>>,
) -> Result<(Words, Seat<(), SeatView>), NoMemory>
    requires { (ios ≤ 4) × (length plans.now.items < 2 ^ 64) }
    ensures key { IfOk result (λ t. (t.0.shared.key.0 ≡ ios) × (t.0.shared.key.1.value ≡ plans.now) × (t.0.shared.table_id.words ≡ ios + 1) × (t.0.shared.table_id.slots ≡ 0)) }
    ensures seat { IfOk result (λ t. (t.1.table_id ≡ t.0.shared.table_id) × (t.1.me ≡ (opening_view ios (map (λ p. p.items) plans.now.items), []))) }
{
    let words = [0u64; 5];
    match Table::of_words(
        alloc,
        &words[..ios as usize + 1],
        &(ios, Snapshot::of(plans)),
    ) {
        Ok(opened) => Ok(opened),
        Err(_) => Err(NoMemory),
    }
}

/// Cuts off the first device that is left.
fn cut_device(table: &Words, all: &mut Seat<(), SeatView>, log: Vec<(Pulse, Hit)>) -> DevSeat
    requires table { (all.old.table_id ≡ table.now.shared.table_id) × (0 < table.now.shared.table_id.words) }
    requires range { All (λ p. (p.io + 1 < all.old.table_id.words) × (p.pin < 24)) (device_of all.old.me.0).plan }
    requires fresh { (0 < length all.old.me.0.devices) × ((device_of all.old.me.0).log ≡ []) }
    requires log { (log.items ≡ []) × (length (device_of all.old.me.0).plan ≤ vec_capacity log) }
    ensures left { (all.new.table_id ≡ all.old.table_id) × (all.new.me ≡ (without_device all.old.me.0, all.old.me.1)) }
    ensures seat { result ≡ shown_device all.old.table_id (device_of all.old.me.0) }
{
    let seat = table.shared.split_seat::<OneDevice>(all);
    DevSeat { seat, log }
}

/// A seat for each device.
pub(crate) fn device_seats(
    alloc: Global,
    table: &Words,
    all: &mut Seat<(), SeatView>,
    plans: &[Vec<Pulse>],
) -> Result<Vec<DevSeat>, NoMemory>
    requires table { (all.old.table_id ≡ table.now.shared.table_id) × (0 < table.now.shared.table_id.words) }
    requires range { All (λ plan. All (λ p. (p.io + 1 < table.now.shared.table_id.words) × (p.pin < 24)) plan.items) plans.now }
    requires all { all.old.me.0.devices ≡ map (λ p. fresh_device p.items) plans.now }
    ensures all { IfOk result (λ _. (all.new.table_id ≡ all.old.table_id) × (all.new.me ≡ (record { devices = []; collectors = all.old.me.0.collectors }, all.old.me.1))) }
    ensures seats { IfOk result (λ seats. seats.items ≡ map (λ p. fresh_device_seat table.now.shared.table_id p.items) plans.now) }
{
    let Ok(mut seats) = Vec::with_capacity(alloc, plans.len()) else {
        return Err(NoMemory);
    };
    for plan in plans {
        let Ok(log) = Vec::with_capacity(alloc, plan.len()) else {
            return Err(NoMemory);
        };
        let seat = cut_device(table, all, log);
        let Ok(()) = seats.push(seat) else {
            return Err(NoMemory);
        };
    }
    Ok(seats)
}

/// Cuts off the first collector that is left.
fn cut_collector(
    table: &Words,
    all: &mut Seat<(), SeatView>,
    io: u8,
    devices: u64,
    counts: Vec<u32>,
) -> ColSeat
    requires table { (all.old.table_id ≡ table.now.shared.table_id) × (0 < table.now.shared.table_id.words) }
    requires place { (0 < length all.old.me.0.collectors) × (io ≡ (collector_of all.old.me.0).io) × (io + 1 < all.old.table_id.words) }
    requires counts { (counts.items ≡ (collector_of all.old.me.0).counts) × (length counts.items ≡ 24) }
    requires all { (devices ≡ length (collector_of all.old.me.0).plans) × (sum_by length (collector_of all.old.me.0).plans < 2 ^ 32) }
    ensures left { (all.new.table_id ≡ all.old.table_id) × (all.new.me ≡ (without_collector all.old.me.0, all.old.me.1)) }
    ensures seat { result ≡ shown_collector all.old.table_id (collector_of all.old.me.0) }
{
    let seat = table.shared.split_seat::<OneCollector>(all);
    ColSeat {
        seat,
        io,
        devices,
        counts,
    }
}

/// A seat for the collector of each I/O APIC.
#[tactic(auto, using(crate::proofs::Starts::first_left, crate::proofs::Starts::some_left))]
pub(crate) fn collector_seats(
    alloc: Global,
    table: &Words,
    all: &mut Seat<(), SeatView>,
    ios: u8,
    plans: &Vec<Vec<Pulse>>,
) -> Result<Vec<ColSeat>, NoMemory>
    requires table { (all.old.table_id ≡ table.now.shared.table_id) × (ios + 1 ≡ table.now.shared.table_id.words) }
    requires few { sum_by (λ p. length p.items) plans.now.items < 2 ^ 32 }
    requires all { all.old.me.0.collectors ≡ fresh_collectors ios (map (λ p. p.items) plans.now.items) }
    ensures all { IfOk result (λ _. (all.new.table_id ≡ all.old.table_id) × (all.new.me ≡ (record { devices = all.old.me.0.devices; collectors = [] }, all.old.me.1))) }
    ensures seats { IfOk result (λ seats. seats.items ≡ map (fresh_collector_seat table.now.shared.table_id (map (λ p. p.items) plans.now.items)) (range_with_len 0 ios)) }
{
    let Ok(mut seats) = Vec::with_capacity(alloc, usize::from(ios)) else {
        return Err(NoMemory);
    };
    for io in 0..ios {
        let Ok(counts) = Vec::from_elem(alloc, 0u32, usize::from(PINS)) else {
            return Err(NoMemory);
        };
        let seat = cut_collector(table, all, io, plans.len() as u64, counts);
        let Ok(()) = seats.push(seat) else {
            return Err(NoMemory);
        };
    }
    Ok(seats)
}
