//! The script of a drill.

ghost use Rattle.std.specs.Prelude.{◌≡◌, ◌<◌, ◌≤◌, ◌++◌, ◌+◌, map, replicate, IfOk, OnOk};
ghost use Rattle.std.specs.List.{range_with_len};
ghost use Rattle.mpb_drill.specs.Drill.{takes, sends, cpus_of, pulses_of, script_of, drill_script};

use mpb_script::{CpuScript, Script};
use mpb_spec::{DevWord, Op, PINS};
use mpt_base::NoMemory;
use mpt_spec::Sequence;
use std::alloc::Global;

/// The script of the drill with this number, below 10,000.
pub fn drill_script(alloc: Global, n: u32) -> Result<Script, NoMemory>
    requires { n < 10000 }
    ensures script { IfOk result (λ s. s ≡ drill_script n) }
{
    let processors = (2 + n % 7) as u8;
    let ioapics = (1 + n % 4) as u8;
    let devices = (1 + n / 4 % 4) as u8;
    script_of(alloc, processors, ioapics, devices, (n % 1000) as u16)
}

// the script of a board of such sizes
fn script_of(
    alloc: Global,
    processors: u8,
    ioapics: u8,
    devices: u8,
    pauses: u16,
) -> Result<Script, NoMemory>
    requires some { 1 ≤ processors }
    requires processors { processors ≤ 8 }
    requires ioapics { ioapics ≤ 4 }
    ensures { IfOk result (λ s. s ≡ script_of processors ioapics devices pauses) }
{
    let Ok(cpus) = cpus_of(alloc, processors, ioapics, pauses) else {
        return Err(NoMemory);
    };
    let Ok(devices) = devices_of(alloc, ioapics, devices) else {
        return Err(NoMemory);
    };
    Ok(Script {
        page: 0x9F,
        elcr: 0,
        present: None,
        cpus: Sequence::new(cpus),
        devices: Sequence::new(devices),
    })
}

// the processors' words
fn cpus_of(
    alloc: Global,
    processors: u8,
    ioapics: u8,
    pauses: u16,
) -> Result<Vec<CpuScript>, NoMemory>
    requires some { 1 ≤ processors }
    requires processors { processors ≤ 8 }
    requires ioapics { ioapics ≤ 4 }
    ensures { IfOk result (λ cpus. cpus.items ≡ cpus_of processors ioapics pauses) }
{
    let Ok(words) = takes(alloc, PINS * ioapics + processors - 1) else {
        return Err(NoMemory);
    };
    let words = Sequence::new(words);
    let mut cpus = Vec::new(alloc);
    let Ok(()) = cpus.push(CpuScript { id: 0, words }) else {
        return Err(NoMemory);
    };
    let Ok(()) = push_others(&mut cpus, alloc, processors - 1, pauses) else {
        return Err(NoMemory);
    };
    Ok(cpus)
}

// so many takes
fn takes(alloc: Global, count: u8) -> Result<Vec<Op>, NoMemory>
    ensures { IfOk result (λ words. words.items ≡ takes count) }
{
    let mut words = Vec::new(alloc);
    for _ in 0..count {
        let Ok(()) = words.extend_from_slice(&[Op::Take, Op::Eoi]) else {
            return Err(NoMemory);
        };
    }
    Ok(words)
}

// so many processors behind the first
fn push_others(
    cpus: &mut Vec<CpuScript>,
    alloc: Global,
    count: u8,
    pauses: u16,
) -> Result<(), NoMemory>
    requires { count < 8 }
    ensures { OnOk result (cpus.new.items ≡ cpus.old.items ++ map (λ k. record { id = 1 + k; words = sends pauses (1 + k) }) (range_with_len 0 count)) }
{
    for k in 0..count {
        let Ok(words) = sends(alloc, pauses, 1 + k) else {
            return Err(NoMemory);
        };
        let words = Sequence::new(words);
        let Ok(()) = cpus.push(CpuScript { id: 1 + k, words }) else {
            return Err(NoMemory);
        };
    }
    Ok(())
}

// the words of one of them
fn sends(alloc: Global, pauses: u16, id: u8) -> Result<Vec<Op>, NoMemory>
    requires { id ≤ 8 }
    ensures { IfOk result (λ words. words.items ≡ sends pauses id) }
{
    let mut words = Vec::new(alloc);
    let Ok(()) = words.push(Op::Ipi(0, 0x80 + id)) else {
        return Err(NoMemory);
    };
    for _ in 0..pauses {
        let Ok(()) = words.push(Op::Pause(1)) else {
            return Err(NoMemory);
        };
    }
    Ok(words)
}

// the words of so many devices
fn devices_of(alloc: Global, ioapics: u8, count: u8) -> Result<Vec<Sequence<DevWord>>, NoMemory>
    requires { ioapics ≤ 4 }
    ensures { IfOk result (λ devices. devices.items ≡ map (pulses_of ioapics count) (range_with_len 0 count)) }
{
    let mut devices = Vec::new(alloc);
    for j in 0..count {
        let Ok(words) = pulses_of(alloc, ioapics, count, j) else {
            return Err(NoMemory);
        };
        let Ok(()) = devices.push(Sequence::new(words)) else {
            return Err(NoMemory);
        };
    }
    Ok(devices)
}

// the pulses of a device
fn pulses_of(alloc: Global, ioapics: u8, devices: u8, j: u8) -> Result<Vec<DevWord>, NoMemory>
    requires ioapics { ioapics ≤ 4 }
    requires some { 1 ≤ devices }
    ensures { IfOk result (λ words. words.items ≡ pulses_of ioapics devices j) }
{
    let mut words = Vec::new(alloc);
    for k in 0..PINS * ioapics {
        if k % devices == j {
            let Ok(()) = words.push(DevWord::Pulse(k / PINS, k % PINS)) else {
                return Err(NoMemory);
            };
        }
    }
    Ok(words)
}
