//! Workers side by side.

ghost use Rattle.std.specs.Prelude.{◌≡◌, All, map, length};
ghost use Rattle.std.specs.Thread.{IsSync};
ghost use Rattle.mpb_spec.specs.Configs.{IsConfig};
ghost use Rattle.mpb_crew.specs.Workers.{IsReady, HasEnded};

use crate::collectors::run_io;
use crate::devices::run_device;
use crate::gate::Gate;
use crate::turns::run_through;
use crate::worker::{Part, Worker};
use mpb_bus::Bus;
use mpb_latch::Latch;
use mpb_spec::DevWord;
use std::sync::Wait;
use std::thread::{Threads, join_mut};

/// Does all of a worker's work.
fn run_one<R: Wait, G: Gate>(
    rt: &R,
    gate: &G,
    bus: &Bus,
    latch: &Latch,
    devices: &[Vec<DevWord>],
    worker: &mut Worker,
)
    requires config { IsConfig bus.now.plan }
    requires words { map (λ words. words.items) devices.now ≡ bus.now.plan.devices }
    requires ready { IsReady bus.now.bus latch.now.latch bus.now.plan worker.old }
    ensures agent { worker.new.agent ≡ worker.old.agent }
    ensures ended { HasEnded bus.now.bus latch.now.latch bus.now.plan worker.new }
{
    match &mut worker.part {
        Part::Cpu => run_through(rt, gate, worker.agent, bus, &mut worker.bus),
        Part::Io(col) => run_io(rt, gate, worker.agent, bus, latch, &mut worker.bus, col),
        Part::Dev(device, dev) => {
            let words = devices[*device as usize].as_slice();
            run_device(rt, gate, *device, bus, latch, words, &mut worker.bus, dev);
        }
    }
}

/// Runs each worker in a thread of its own: the first beside the rest.
fn run_all<R: Threads + Wait + Sync, G: Gate + Sync>(
    rt: &R,
    gate: &G,
    bus: &Bus,
    latch: &Latch,
    devices: &[Vec<DevWord>],
    workers: &mut [Worker],
)
    requires config { IsConfig bus.now.plan }
    requires words { map (λ words. words.items) devices.now ≡ bus.now.plan.devices }
    requires ready { All (IsReady bus.now.bus latch.now.latch bus.now.plan) workers.old }
    ensures agents { map (λ w. w.agent) workers.new ≡ map (λ w. w.agent) workers.old }
    ensures ended { All (HasEnded bus.now.bus latch.now.latch bus.now.plan) workers.new }
{
    let Some((first, rest)) = workers.split_first_mut() else {
        return;
    };
    join_mut(
        rt,
        &mut ||
            requires { IsSync R.row × IsSync G.row × IsConfig bus.now.plan × (map (λ words. words.items) devices.now ≡ bus.now.plan.devices) × IsReady bus.now.bus latch.now.latch bus.now.plan first.now }
            ensures { (first.exit.now.agent ≡ first.entry.now.agent) × HasEnded bus.entry.now.bus latch.entry.now.latch bus.entry.now.plan first.exit.now }
        { run_one(rt, gate, bus, latch, devices, first) },
        &mut ||
            requires { IsSync R.row × IsSync G.row × IsConfig bus.now.plan × (map (λ words. words.items) devices.now ≡ bus.now.plan.devices) × All (IsReady bus.now.bus latch.now.latch bus.now.plan) rest.now }
            ensures { (map (λ w. w.agent) rest.exit.now ≡ map (λ w. w.agent) rest.entry.now) × All (HasEnded bus.entry.now.bus latch.entry.now.latch bus.entry.now.plan) rest.exit.now }
        { run_all(rt, gate, bus, latch, devices, rest) },
    );
}

/// Runs the worker of each agent in a thread of its own.
pub(crate) fn run_each<R: Threads + Wait + Sync, G: Gate + Sync>(
    rt: &R,
    gate: &G,
    bus: &Bus,
    latch: &Latch,
    devices: &[Vec<DevWord>],
    workers: &mut Vec<Worker>,
)
    requires config { IsConfig bus.now.plan }
    requires words { map (λ words. words.items) devices.now ≡ bus.now.plan.devices }
    requires ready { All (IsReady bus.now.bus latch.now.latch bus.now.plan) workers.old.items }
    ensures agents { map (λ w. w.agent) workers.new.items ≡ map (λ w. w.agent) workers.old.items }
    ensures ended { All (HasEnded bus.now.bus latch.now.latch bus.now.plan) workers.new.items }
    ensures all { length workers.new.items ≡ length workers.old.items }
{
    run_all(rt, gate, bus, latch, devices, workers.as_mut_slice());
}
