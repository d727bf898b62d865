//! What a run by threads works on, made before its first turn.

ghost use Rattle.std.specs.Prelude.{◌≡◌, ◌<◌, ◌^◌, [], IfOk, map, length};
ghost use Rattle.std.specs.List.{range_with_len};
ghost use Rattle.mpb_spec.specs.Agents.{agents_of};
ghost use Rattle.mpb_spec.specs.Configs.{IsConfig};
ghost use Rattle.mpb_spec.specs.Plan.{plan_size};
ghost use Rattle.mpb_spec.specs.Pulses.{pulses_in};
ghost use Rattle.mpb_latch.specs.Seats.{fresh_collector_seat, fresh_device_seat};
ghost use Rattle.mpb_crew.specs.Workers.{fresh_worker};

use crate::opening::{plans_of, words_of, workers_of};
use crate::worker::Worker;
use mpb_board::{Board, agents};
use mpb_bus::Bus;
use mpb_latch::{ColSeat, DevSeat, Latch};
use mpb_spec::{Agent, Config, DevWord};
use mpt_base::NoMemory;
use std::alloc::Global;

/// A bus that has the board, a latch for its pulses, the words of each device, and a worker for each agent.
#[derive(Drop)]
pub(crate) struct Assembly {
    pub(crate) bus: Bus,
    pub(crate) latch: Latch,
    pub(crate) devices: Vec<Vec<DevWord>>,
    pub(crate) workers: Vec<Worker>,
}

// What a run takes beside its bus: the latch with its seats, the words of each device, and the agents.
#[derive(Drop)]
struct BesideBus {
    latch: Latch,
    devs: Vec<DevSeat>,
    cols: Vec<ColSeat>,
    devices: Vec<Vec<DevWord>>,
    agents: Vec<Agent>,
}

/// What a run of the board works on; the board goes to the bus.
pub(crate) fn assembled(alloc: Global, board: Board) -> Result<Assembly, NoMemory>
    requires opening { board.journal ≡ [] }
    ensures config { IfOk result (λ o. IsConfig o.bus.plan) }
    ensures bus { IfOk result (λ o. o.bus.plan ≡ board.plan) }
    ensures latch { IfOk result (λ o. (o.latch.ios ≡ length board.plan.ios) × (o.latch.plans ≡ map pulses_in board.plan.devices)) }
    ensures words { IfOk result (λ o. map (λ words. words.items) o.devices.items ≡ board.plan.devices) }
    ensures workers { IfOk result (λ o. o.workers.items ≡ map (fresh_worker o.bus.bus o.latch.latch board.plan) (agents_of board.plan)) }
{
    match beside_bus(alloc, board.config()) {
        Ok(made) => with_bus(alloc, board, made),
        Err(error) => Err(error),
    }
}

// what a run of a board of this config takes beside its bus
fn beside_bus(alloc: Global, config: &Config) -> Result<BesideBus, NoMemory>
    requires config { IsConfig config.now }
    requires small { plan_size config.now < 2 ^ 32 }
    ensures latch { IfOk result (λ b. (b.latch.ios ≡ length config.now.ios) × (b.latch.plans ≡ map pulses_in config.now.devices)) }
    ensures devs { IfOk result (λ b. b.devs.items ≡ map (fresh_device_seat b.latch.latch) b.latch.plans) }
    ensures cols { IfOk result (λ b. b.cols.items ≡ map (fresh_collector_seat b.latch.latch b.latch.plans) (range_with_len 0 (length config.now.ios))) }
    ensures words { IfOk result (λ b. map (λ words. words.items) b.devices.items ≡ config.now.devices) }
    ensures agents { IfOk result (λ b. b.agents.items ≡ agents_of config.now) }
{
    let Ok(devices) = words_of(alloc, config.devices.as_slice()) else {
        return Err(NoMemory);
    };
    let Ok(agents) = agents(alloc, config) else {
        return Err(NoMemory);
    };
    let Ok((latch, devs, cols)) = latch_for(alloc, config, devices.as_slice()) else {
        return Err(NoMemory);
    };
    Ok(BesideBus {
        latch,
        devs,
        cols,
        devices,
        agents,
    })
}

// a latch for the pulses of devices that have these words, and its seats
fn latch_for(
    alloc: Global,
    config: &Config,
    devices: &[Vec<DevWord>],
) -> Result<(Latch, Vec<DevSeat>, Vec<ColSeat>), NoMemory>
    requires config { IsConfig config.now }
    requires small { plan_size config.now < 2 ^ 32 }
    requires words { map (λ words. words.items) devices.now ≡ config.now.devices }
    ensures latch { IfOk result (λ made. (made.0.ios ≡ length config.now.ios) × (made.0.plans ≡ map pulses_in config.now.devices)) }
    ensures devices { IfOk result (λ made. made.1.items ≡ map (fresh_device_seat made.0.latch) made.0.plans) }
    ensures collectors { IfOk result (λ made. made.2.items ≡ map (fresh_collector_seat made.0.latch made.0.plans) (range_with_len 0 (length config.now.ios))) }
{
    let Ok(plans) = plans_of(alloc, devices) else {
        return Err(NoMemory);
    };
    let Ok((latch, devs, cols)) = Latch::new(alloc, config.ios.len() as u8, plans.as_slice()) else {
        return Err(NoMemory);
    };
    Ok((latch, devs, cols))
}

// the same with a bus that has the board, and with the workers
fn with_bus(alloc: Global, board: Board, made: BesideBus) -> Result<Assembly, NoMemory>
    requires opening { board.journal ≡ [] }
    requires config { IsConfig board.plan }
    requires latch { (made.latch.ios ≡ length board.plan.ios) × (made.latch.plans ≡ map pulses_in board.plan.devices) }
    requires devs { made.devs.items ≡ map (fresh_device_seat made.latch.latch) made.latch.plans }
    requires cols { made.cols.items ≡ map (fresh_collector_seat made.latch.latch made.latch.plans) (range_with_len 0 (length board.plan.ios)) }
    requires words { map (λ words. words.items) made.devices.items ≡ board.plan.devices }
    requires agents { made.agents.items ≡ agents_of board.plan }
    ensures config { IfOk result (λ o. IsConfig o.bus.plan) }
    ensures bus { IfOk result (λ o. o.bus.plan ≡ board.plan) }
    ensures latch { IfOk result (λ o. (o.latch.ios ≡ length board.plan.ios) × (o.latch.plans ≡ map pulses_in board.plan.devices)) }
    ensures words { IfOk result (λ o. map (λ words. words.items) o.devices.items ≡ board.plan.devices) }
    ensures workers { IfOk result (λ o. o.workers.items ≡ map (fresh_worker o.bus.bus o.latch.latch board.plan) (agents_of board.plan)) }
{
    let BesideBus {
        latch,
        devs,
        cols,
        devices,
        agents,
    } = made;
    match bus_and_workers(alloc, board, &latch, agents.as_slice(), devs, cols) {
        Ok((bus, workers)) => Ok(Assembly {
            bus,
            latch,
            devices,
            workers,
        }),
        Err(error) => Err(error),
    }
}

// a bus that has the board, and a worker for each of its agents, which has the agent's seats on bus and latch
fn bus_and_workers(
    alloc: Global,
    board: Board,
    latch: &Latch,
    agents: &[Agent],
    devs: Vec<DevSeat>,
    cols: Vec<ColSeat>,
) -> Result<(Bus, Vec<Worker>), NoMemory>
    requires opening { board.journal ≡ [] }
    requires agents { agents.now ≡ agents_of board.plan }
    requires plans { latch.now.plans ≡ map pulses_in board.plan.devices }
    requires devs { devs.items ≡ map (fresh_device_seat latch.now.latch) latch.now.plans }
    requires cols { cols.items ≡ map (fresh_collector_seat latch.now.latch latch.now.plans) (range_with_len 0 (length board.plan.ios)) }
    ensures bus { IfOk result (λ made. made.0.plan ≡ board.plan) }
    ensures workers { IfOk result (λ made. made.1.items ≡ map (fresh_worker made.0.bus latch.now.latch board.plan) (agents_of board.plan)) }
{
    let Ok((bus, seats)) = Bus::new(alloc, board) else {
        return Err(NoMemory);
    };
    let Ok(workers) = workers_of(alloc, &bus, latch, agents, seats, cols, devs) else {
        return Err(NoMemory);
    };
    Ok((bus, workers))
}
