//! The seats of a shared latch: one for each device and one for the collector of each I/O APIC. A
//! seat may be moved to any thread. What it knows is its own: no other seat's step changes it.

use crate::view::SeatView;
use atomic_table::Seat;
use mpb_spec::{Hit, Pulse};
use std::marker::Model;

/// A device's seat. Contracts see which latch it belongs to, the device's plan, its log and whether
/// it has ended.
#[derive(Drop)]
pub struct DevSeat {
    pub(crate) seat: Seat<(), SeatView>,
    pub(crate) log: Vec<(Pulse, Hit)>,
}

impl Model for DevSeat {
    ghost use Rattle.std.specs.Prelude.{◌≡◌, ◌<◌, ◌≤◌, ◌+◌, [], All, length, vec_capacity};
    ghost use Rattle.mpb_spec.specs.Pulses.{FollowsPlan};
    ghost use Rattle.mpb_latch.specs.Seats.{DeviceSeat};
    ghost use Rattle.mpb_latch.specs.Rule.{device, device_of, shown_device};

    ghost Value = { DeviceSeat };

    ghost view = { λ s. shown_device s.seat.table_id (device_of s.seat.me.0) };

    ghost invariant = { λ s. let known = device_of s.seat.me.0 in (s.seat.me ≡ (device known, []))
        × (s.log.items ≡ known.log)
        × (length known.plan ≤ vec_capacity s.log)
        × All (λ p. (p.io + 1 < s.seat.table_id.words) × (p.pin < 24)) known.plan
        × FollowsPlan known.log known.plan };
}

/// The seat of an I/O APIC's collector. Contracts see which latch it belongs to, the I/O APIC's
/// place, the plans of all devices, the 24 counts, how often it collected and looked, whether its
/// last look found all devices ended (`full`), and whether a collection after such a look found
/// nothing (`dry`).
#[derive(Drop)]
pub struct ColSeat {
    pub(crate) seat: Seat<(), SeatView>,
    pub(crate) io: u8,
    pub(crate) devices: u64,
    pub(crate) counts: Vec<u32>,
}

impl Model for ColSeat {
    ghost use Rattle.std.specs.Prelude.{◌≡◌, ◌<◌, ◌+◌, ◌^◌, [], length, sum_by};
    ghost use Rattle.mpb_latch.specs.Seats.{CollectorSeat};
    ghost use Rattle.mpb_latch.specs.Rule.{collector, collector_of, shown_collector};

    ghost Value = { CollectorSeat };

    ghost view = { λ s. shown_collector s.seat.table_id (collector_of s.seat.me.0) };

    ghost invariant = { λ s. let known = collector_of s.seat.me.0 in (s.seat.me ≡ (collector known, []))
        × ((s.io ≡ known.io) × (s.io + 1 < s.seat.table_id.words))
        × (s.devices ≡ length known.plans)
        × ((s.counts.items ≡ known.counts) × (length s.counts.items ≡ 24))
        × (sum_by length known.plans < 2 ^ 32) };
}
