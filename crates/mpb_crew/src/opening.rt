//! The workers of a board are made.

ghost use Rattle.std.specs.Prelude.{◌≡◌, ◌<◌, ◌++◌, ◌∷◌, [], ◌≤◌, IfOk, OnOk, map, length, vec_capacity};
ghost use Rattle.std.specs.List.{range_with_len};
ghost use Rattle.std.specs.Vec.Iter.{into_iter_items};
ghost use Rattle.mpb_spec.specs.declared.agent.Agent.TheVariants.{Cpu, Io, Dev};
ghost use Rattle.mpb_latch.specs.Seats.{fresh_collector_seat, fresh_device_seat};
ghost use Rattle.mpb_spec.specs.Agents.{agents_of};
ghost use Rattle.mpb_bus.specs.Seats.{fresh_seat};
ghost use Rattle.mpb_spec.specs.Pulses.{pulses_in};
ghost use Rattle.mpb_crew.specs.Workers.{fresh_part, fresh_worker, cols_for, devs_for};

use crate::worker::{Part, Worker};
use mpb_bus::{Bus, BusSeat};
use mpb_latch::{ColSeat, DevSeat, Latch};
use mpb_spec::{Agent, DevWord, Pulse};
use mpt_base::NoMemory;
use std::alloc::Global;
use std::vec::IntoIter;

/// A copy of the words of each device, since the board goes to the bus.
pub(crate) fn words_of(
    alloc: Global,
    devices: &[Vec<DevWord>],
) -> Result<Vec<Vec<DevWord>>, NoMemory>
    ensures { IfOk result (λ copy. map (λ words. words.items) copy.items ≡ map (λ words. words.items) devices.now) }
{
    let Ok(mut copy) = Vec::with_capacity(alloc, devices.len()) else {
        return Err(NoMemory);
    };
    for words in devices {
        let Ok(made) = Vec::from_slice(alloc, words.as_slice()) else {
            return Err(NoMemory);
        };
        let Ok(()) = copy.push(made) else {
            return Err(NoMemory);
        };
    }
    Ok(copy)
}

// the pulse of a word, where it is one
fn push_pulse(plan: &mut Vec<Pulse>, word: DevWord) -> Result<(), NoMemory>
    ensures { OnOk result (plan.new.items ≡ plan.old.items ++ pulses_in (word ∷ [])) }
{
    match word {
        DevWord::Pulse(io, pin) => match plan.push(Pulse { io, pin }) {
            Ok(()) => Ok(()),
            Err(_) => Err(NoMemory),
        },
        DevWord::High(_, _) => Ok(()),
        DevWord::Low(_, _) => Ok(()),
    }
}

// the pulses of a device, in order
fn plan_of(alloc: Global, words: &[DevWord]) -> Result<Vec<Pulse>, NoMemory>
    ensures { IfOk result (λ plan. plan.items ≡ pulses_in words.now) }
{
    let mut plan = Vec::new(alloc);
    for word in words {
        if let Err(error) = push_pulse(&mut plan, *word) {
            return Err(error);
        }
    }
    Ok(plan)
}

/// The pulses of each device.
pub(crate) fn plans_of(alloc: Global, devices: &[Vec<DevWord>]) -> Result<Vec<Vec<Pulse>>, NoMemory>
    ensures { IfOk result (λ plans. map (λ plan. plan.items) plans.items ≡ map pulses_in (map (λ words. words.items) devices.now)) }
{
    let Ok(mut plans) = Vec::with_capacity(alloc, devices.len()) else {
        return Err(NoMemory);
    };
    for words in devices {
        let plan = match plan_of(alloc, words.as_slice()) {
            Ok(plan) => plan,
            Err(error) => return Err(error),
        };
        let Ok(()) = plans.push(plan) else {
            return Err(NoMemory);
        };
    }
    Ok(plans)
}

// what the worker of an agent has beside its seat on the bus, taken from the seats of the latch that are left
fn part_of(
    bus: &Bus,
    latch: &Latch,
    agent: Agent,
    rest: &[Agent],
    cols: &mut IntoIter<ColSeat>,
    devs: &mut IntoIter<DevSeat>,
) -> Part
    requires cols { into_iter_items cols.old ≡ cols_for latch.now.latch bus.now.plan (agent ∷ rest.now) }
    requires devs { into_iter_items devs.old ≡ devs_for latch.now.latch bus.now.plan (agent ∷ rest.now) }
    ensures part { result ≡ fresh_part latch.now.latch bus.now.plan agent }
    ensures cols { into_iter_items cols.new ≡ cols_for latch.now.latch bus.now.plan rest.now }
    ensures devs { into_iter_items devs.new ≡ devs_for latch.now.latch bus.now.plan rest.now }
{
    match agent {
        Agent::Cpu(_) => Part::Cpu,
        Agent::Io(_) => {
            let Some(col) = cols.next() else {
                unreachable!()
            };
            Part::Io(col)
        }
        Agent::Dev(device) => {
            let Some(dev) = devs.next() else {
                unreachable!()
            };
            Part::Dev(device, dev)
        }
    }
}

/// The workers of these agents, each with its own seats.
pub(crate) fn push_workers(
    bus: &Bus,
    latch: &Latch,
    agents: &[Agent],
    seats: &mut IntoIter<BusSeat>,
    cols: &mut IntoIter<ColSeat>,
    devs: &mut IntoIter<DevSeat>,
    workers: &mut Vec<Worker>,
) -> Result<(), NoMemory>
    requires seats { into_iter_items seats.old ≡ map (fresh_seat bus.now.bus bus.now.plan []) agents.now }
    requires cols { into_iter_items cols.old ≡ cols_for latch.now.latch bus.now.plan agents.now }
    requires devs { into_iter_items devs.old ≡ devs_for latch.now.latch bus.now.plan agents.now }
    ensures { OnOk result (workers.new.items ≡ workers.old.items ++ map (fresh_worker bus.now.bus latch.now.latch bus.now.plan) agents.now) }
{
    let [agent, rest @ ..] = agents else {
        return Ok(());
    };
    let Some(seat) = seats.next() else {
        unreachable!()
    };
    let part = part_of(bus, latch, *agent, rest, cols, devs);
    let worker = Worker {
        agent: *agent,
        bus: seat,
        part,
    };
    let Ok(()) = workers.push(worker) else {
        return Err(NoMemory);
    };
    push_workers(bus, latch, rest, seats, cols, devs, workers)
}

/// A worker for each agent.
pub(crate) fn workers_of(
    alloc: Global,
    bus: &Bus,
    latch: &Latch,
    agents: &[Agent],
    seats: Vec<BusSeat>,
    cols: Vec<ColSeat>,
    devs: Vec<DevSeat>,
) -> Result<Vec<Worker>, NoMemory>
    requires agents { agents.now ≡ agents_of bus.now.plan }
    requires plans { latch.now.plans ≡ map pulses_in bus.now.plan.devices }
    requires seats { seats.items ≡ map (fresh_seat bus.now.bus bus.now.plan []) agents.now }
    requires cols { cols.items ≡ map (fresh_collector_seat latch.now.latch latch.now.plans) (range_with_len 0 (length bus.now.plan.ios)) }
    requires devs { devs.items ≡ map (fresh_device_seat latch.now.latch) latch.now.plans }
    ensures { IfOk result (λ workers. workers.items ≡ map (fresh_worker bus.now.bus latch.now.latch bus.now.plan) agents.now) }
{
    let Ok(mut workers) = Vec::with_capacity(alloc, agents.len()) else {
        return Err(NoMemory);
    };
    let mut seats = seats.into_iter();
    let mut cols = cols.into_iter();
    let mut devs = devs.into_iter();
    match push_workers(
        bus,
        latch,
        agents,
        &mut seats,
        &mut cols,
        &mut devs,
        &mut workers,
    ) {
        Ok(()) => Ok(workers),
        Err(error) => Err(error),
    }
}

/// Room for the seats that so many workers give up.
pub(crate) fn room_for(
    alloc: Global,
    workers: usize,
) -> Result<(Vec<BusSeat>, Vec<ColSeat>, Vec<DevSeat>), NoMemory>
    ensures empty { IfOk result (λ r. (r.0.items ≡ []) × (r.1.items ≡ []) × (r.2.items ≡ [])) }
    ensures room { IfOk result (λ r. (workers ≤ vec_capacity r.0) × (workers ≤ vec_capacity r.1) × (workers ≤ vec_capacity r.2)) }
{
    let Ok(seats) = Vec::with_capacity(alloc, workers) else {
        return Err(NoMemory);
    };
    let Ok(cols) = Vec::with_capacity(alloc, workers) else {
        return Err(NoMemory);
    };
    let Ok(devs) = Vec::with_capacity(alloc, workers) else {
        return Err(NoMemory);
    };
    Ok((seats, cols, devs))
}
