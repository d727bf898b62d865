//! The run of a board by threads.

ghost use Rattle.std.specs.Prelude.{◌≡◌, ◌<◌, ◌≤◌, [], ℕ, IfOk, map, length, slice_index, slice_index_or, vec_capacity};
ghost use Rattle.mpb_spec.specs.Agents.{agents_of};
ghost use Rattle.mpb_spec.specs.Configs.{IsConfig, IsStartableAt};
ghost use Rattle.mpb_spec.specs.Journal.{IsComplete};
ghost use Rattle.mpb_start_laws.specs.Starts.{IsStartedOnce};
ghost use Rattle.mpb_spec.specs.Pulses.{HasCountsFor, logs_of, counts_of, pulses_in};
ghost use Rattle.mpb_robin.specs.Account.{AccountsForPulses, collected_count};
ghost use Rattle.mpb_crew.specs.Workers.{fresh_worker};

use crate::assembly::{Assembly, assembled};
use crate::closing::closed;
use crate::crew::run_each;
use crate::gate::Gate;
use crate::opening::room_for;
use mpb_board::Board;
use mpb_bus::BusSeat;
use mpb_latch::{ColSeat, DevSeat};
use mpb_run::Ran;
use mpt_base::NoMemory;
use std::alloc::Global;
use std::sync::Wait;
use std::thread::Threads;

/// Runs a board to its end, each agent in a thread of its own: all agents take turns on the bus, in the
/// order in which they come there, until none may step. Each passes the gate before each of its turns.
/// All memory is taken before the first turn, so memory runs out there or not at all. It may wait.
pub fn threads<R: Threads + Wait + Sync, G: Gate + Sync>(
    rt: &R,
    alloc: Global,
    board: Board,
    gate: &G,
) -> Result<Ran, NoMemory>
    requires opening { board.journal ≡ [] }
    ensures plan { IfOk result (λ ran. ran.board.plan ≡ board.plan) }
    // No agent may step any more, and all pulses are accounted for.
    ensures complete { IfOk result (λ ran. IsComplete board.plan ran.board.journal) }
    ensures accounts { IfOk result (λ ran. AccountsForPulses board.plan ran.board.journal (logs_of ran.account)) }
    // For each I/O APIC there are 24 counts, each of the journal's collections.
    ensures shape { IfOk result (λ ran. HasCountsFor (length board.plan.ios) ran.account) }
    ensures collected { IfOk result (λ ran. (a pin : ℕ) → a < length board.plan.ios → pin < 24 → slice_index (slice_index_or (counts_of ran.account) a []) pin ≡ collected_count a pin ran.board.journal) }
    // Each other processor is started once, at the page.
    ensures started { IfOk result (λ ran. (page : ℕ) → IsStartableAt page board.plan → IsStartedOnce page board.plan ran.board.journal) }
{
    let Ok(assembly) = assembled(alloc, board) else {
        return Err(NoMemory);
    };
    let Ok(room) = room_for(alloc, assembly.workers.len()) else {
        return Err(NoMemory);
    };
    Ok(run(rt, gate, assembly, room))
}

// runs all workers, and closes bus and latch with the seats that they give up, for which there is room
fn run<R: Threads + Wait + Sync, G: Gate + Sync>(
    rt: &R,
    gate: &G,
    assembly: Assembly,
    room: (Vec<BusSeat>, Vec<ColSeat>, Vec<DevSeat>),
) -> Ran
    requires config { IsConfig assembly.bus.plan }
    requires latch { (assembly.latch.ios ≡ length assembly.bus.plan.ios) × (assembly.latch.plans ≡ map pulses_in assembly.bus.plan.devices) }
    requires words { map (λ words. words.items) assembly.devices.items ≡ assembly.bus.plan.devices }
    requires workers { assembly.workers.items ≡ map (fresh_worker assembly.bus.bus assembly.latch.latch assembly.bus.plan) (agents_of assembly.bus.plan) }
    requires empty { (room.0.items ≡ []) × (room.1.items ≡ []) × (room.2.items ≡ []) }
    requires room { (length assembly.workers.items ≤ vec_capacity room.0) × (length assembly.workers.items ≤ vec_capacity room.1) × (length assembly.workers.items ≤ vec_capacity room.2) }
    ensures plan { result.board.plan ≡ assembly.bus.plan }
    ensures complete { IsComplete assembly.bus.plan result.board.journal }
    ensures accounts { AccountsForPulses assembly.bus.plan result.board.journal (logs_of result.account) }
    ensures shape { HasCountsFor (length assembly.bus.plan.ios) result.account }
    ensures collected { (a pin : ℕ) → a < length assembly.bus.plan.ios → pin < 24 → slice_index (slice_index_or (counts_of result.account) a []) pin ≡ collected_count a pin result.board.journal }
{
    let Assembly {
        bus,
        latch,
        devices,
        mut workers,
    } = assembly;
    let (seats, cols, devs) = room;
    run_each(rt, gate, &bus, &latch, devices.as_slice(), &mut workers);
    closed(bus, latch, workers, seats, cols, devs)
}
