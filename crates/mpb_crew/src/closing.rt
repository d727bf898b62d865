//! The workers give up their seats, and bus and latch are closed.

ghost use Rattle.std.specs.Prelude.{◌≡◌, ◌<◌, ◌≤◌, ◌+◌, ◌++◌, [], ℕ, All, map, filter_map, length, slice_index, slice_index_or, vec_len, vec_capacity};
ghost use Rattle.std.specs.Option.{option_to_list};
ghost use Rattle.mpb_spec.specs.Configs.{IsConfig};
ghost use Rattle.mpb_spec.specs.Journal.{IsComplete};
ghost use Rattle.mpb_spec.specs.Pulses.{HasCountsFor, logs_of, counts_of, pulses_in};
ghost use Rattle.mpb_spec.specs.Agents.{agents_of};
ghost use Rattle.mpb_robin.specs.Account.{AccountsForPulses, collected_count};
ghost use Rattle.mpb_crew.specs.Workers.{HasEnded, col_in, dev_in, col_of, dev_of};

use crate::worker::{Part, Worker};
use mpb_bus::{Bus, BusSeat};
use mpb_latch::{ColSeat, DevSeat, Latch};
use mpb_run::Ran;

// the seat of a collector or of a device goes to its like, where there is room
fn put_part(part: Part, cols: &mut Vec<ColSeat>, devs: &mut Vec<DevSeat>)
    requires cols { vec_len cols.old < vec_capacity cols.old }
    requires devs { vec_len devs.old < vec_capacity devs.old }
    ensures cols { cols.new.items ≡ cols.old.items ++ option_to_list (col_in part) }
    ensures devs { devs.new.items ≡ devs.old.items ++ option_to_list (dev_in part) }
    ensures room { (vec_capacity cols.old ≤ vec_capacity cols.new) × (vec_capacity devs.old ≤ vec_capacity devs.new) }
    ensures lengths { (vec_len cols.new ≤ vec_len cols.old + 1) × (vec_len devs.new ≤ vec_len devs.old + 1) }
{
    match part {
        Part::Cpu => {}
        Part::Io(col) => {
            let Ok(()) = cols.push(col) else {
                unreachable!()
            };
        }
        Part::Dev(_, dev) => {
            let Ok(()) = devs.push(dev) else {
                unreachable!()
            };
        }
    }
}

// the seats on the bus, the collectors' and the devices', each in the order of the workers; there is room for them
fn give_up(
    workers: Vec<Worker>,
    mut seats: Vec<BusSeat>,
    mut cols: Vec<ColSeat>,
    mut devs: Vec<DevSeat>,
) -> (Vec<BusSeat>, Vec<ColSeat>, Vec<DevSeat>)
    requires empty { (seats.items ≡ []) × (cols.items ≡ []) × (devs.items ≡ []) }
    requires room { (length workers.items ≤ vec_capacity seats) × (length workers.items ≤ vec_capacity cols) × (length workers.items ≤ vec_capacity devs) }
    ensures seats { result.0.items ≡ map (λ w. w.bus) workers.items }
    ensures cols { result.1.items ≡ filter_map col_of workers.items }
    ensures devs { result.2.items ≡ filter_map dev_of workers.items }
{
    for worker in workers {
        let Worker {
            agent: _,
            bus,
            part,
        } = worker;
        let Ok(()) = seats.push(bus) else {
            unreachable!()
        };
        put_part(part, &mut cols, &mut devs);
    }
    (seats, cols, devs)
}

/// Closes bus and latch, where each worker has ended: no agent may step after the board's journal, all
/// pulses are accounted for, and each count is that of the journal's collections. For the seats there is
/// room, so no memory is wanted.
pub(crate) fn closed(
    bus: Bus,
    latch: Latch,
    workers: Vec<Worker>,
    seats: Vec<BusSeat>,
    cols: Vec<ColSeat>,
    devs: Vec<DevSeat>,
) -> Ran
    requires config { IsConfig bus.plan }
    requires latch { (latch.ios ≡ length bus.plan.ios) × (latch.plans ≡ map pulses_in bus.plan.devices) }
    requires agents { map (λ w. w.agent) workers.items ≡ agents_of bus.plan }
    requires ended { All (HasEnded bus.bus latch.latch bus.plan) workers.items }
    requires empty { (seats.items ≡ []) × (cols.items ≡ []) × (devs.items ≡ []) }
    requires room { (length workers.items ≤ vec_capacity seats) × (length workers.items ≤ vec_capacity cols) × (length workers.items ≤ vec_capacity devs) }
    ensures plan { result.board.plan ≡ bus.plan }
    ensures complete { IsComplete bus.plan result.board.journal }
    ensures accounts { AccountsForPulses bus.plan result.board.journal (logs_of result.account) }
    ensures shape { HasCountsFor (length bus.plan.ios) result.account }
    ensures collected { (a pin : ℕ) → a < length bus.plan.ios → pin < 24 → slice_index (slice_index_or (counts_of result.account) a []) pin ≡ collected_count a pin result.board.journal }
{
    let (seats, cols, devs) = give_up(workers, seats, cols, devs);
    let board = bus.close(seats);
    let account = latch.close(devs, cols);
    Ran { board, account }
}
