//! The agents of a board, in their order.

ghost use Rattle.std.specs.Prelude.{◌≡◌, ◌≤◌, ◌<◌, ◌++◌, IfOk, OnOk, map, length};
ghost use Rattle.std.specs.List.{range_with_len};
ghost use Rattle.mpb_spec.specs.declared.agent.Agent.TheVariants.{Cpu, Io, Dev};
ghost use Rattle.mpb_spec.specs.Agents.{agents_of};

use mpb_spec::{Agent, Config, CpuConfig};
use mpt_base::NoMemory;
use std::alloc::{AllocError, Global};

// the processors
fn push_cpus(agents: &mut Vec<Agent>, cpus: &[CpuConfig]) -> Result<(), AllocError>
    ensures { OnOk result (agents.new.items ≡ agents.old.items ++ map (λ p. Cpu p.id) cpus.now) }
{
    for cpu in cpus {
        let Ok(()) = agents.push(Agent::Cpu(cpu.id)) else {
            return Err(AllocError);
        };
    }
    Ok(())
}

// the I/O APICs
fn push_ios(agents: &mut Vec<Agent>, n: u8) -> Result<(), AllocError>
    ensures { OnOk result (agents.new.items ≡ agents.old.items ++ map Io (range_with_len 0 n)) }
{
    for place in 0..n {
        let Ok(()) = agents.push(Agent::Io(place)) else {
            return Err(AllocError);
        };
    }
    Ok(())
}

// the devices
fn push_devices(agents: &mut Vec<Agent>, n: u8) -> Result<(), AllocError>
    ensures { OnOk result (agents.new.items ≡ agents.old.items ++ map Dev (range_with_len 0 n)) }
{
    for device in 0..n {
        let Ok(()) = agents.push(Agent::Dev(device)) else {
            return Err(AllocError);
        };
    }
    Ok(())
}

// all three
fn listed(alloc: Global, config: &Config) -> Result<Vec<Agent>, AllocError>
    ensures { IfOk result (λ agents. agents.items ≡ agents_of config.now) }
{
    let mut agents = Vec::new(alloc);
    let Ok(()) = push_cpus(&mut agents, config.cpus.as_slice()) else {
        return Err(AllocError);
    };
    let Ok(()) = push_ios(&mut agents, config.ios.len() as u8) else {
        return Err(AllocError);
    };
    let Ok(()) = push_devices(&mut agents, config.devices.len() as u8) else {
        return Err(AllocError);
    };
    Ok(agents)
}

/// The agents of a board of this config: its processors by id, then its I/O APICs and its devices by
/// place.
pub fn agents(alloc: Global, config: &Config) -> Result<Vec<Agent>, NoMemory>
    ensures { IfOk result (λ agents. agents.items ≡ agents_of config.now) }
{
    match listed(alloc, config) {
        Ok(agents) => Ok(agents),
        Err(_) => Err(NoMemory),
    }
}
