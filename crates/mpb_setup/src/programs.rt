//! The programs of the board's processors, and the words of its devices.

ghost use Rattle.std.specs.Prelude.{◌≡◌, IfOk, map};
ghost use Rattle.mpb_setup.specs.Boot.{boot_id_of};
ghost use Rattle.mpb_setup.specs.Board.{version_in, cpu_words, cpu_plan_of};

use mpb_script::{CpuScript, Script};
use mpb_spec::{CpuConfig, DevWord, Op};
use mpt_route::Platform;
use mpt_spec::{Processor, Sequence};
use std::alloc::{AllocError, Global};

// the version of the enabled processor with this id
fn version_in(processors: &[Processor], id: u8) -> u8
    ensures { result ≡ version_in processors.now id }
{
    match processors.iter().find(|e| e.is_enabled() && e.apic == id) {
        Some(e) => e.version,
        None => 0,
    }
}

// the words of the processor with this id
fn cpu_words(cpus: &[CpuScript], id: u8) -> &[Op]
    ensures { result.now ≡ cpu_words cpus.now id }
{
    match cpus.iter().find(|c| c.id == id) {
        Some(c) => c.words.as_slice(),
        None => &[],
    }
}

// a processor of the board
fn cpu_config(
    alloc: Global,
    p: &Platform,
    boot: u8,
    boot_program: &[Op],
    s: &Script,
    id: u8,
) -> Result<CpuConfig, AllocError>
    requires { boot ≡ boot_id_of p.now }
    ensures { IfOk result (λ c. c ≡ cpu_plan_of p.now boot_program.now s.now id) }
{
    let mut program = Vec::new(alloc);
    if id == boot {
        let Ok(()) = program.extend_from_slice(boot_program) else {
            return Err(AllocError);
        };
    }
    let Ok(()) = program.extend_from_slice(cpu_words(s.cpus.as_slice(), id)) else {
        return Err(AllocError);
    };
    Ok(CpuConfig {
        id,
        version: version_in(p.processors.as_slice(), id),
        program,
    })
}

/// The processors with these ids: the boot processor has the boot program before its words.
pub fn cpu_configs(
    alloc: Global,
    p: &Platform,
    boot: u8,
    boot_program: &[Op],
    s: &Script,
    ids: &[u8],
) -> Result<Vec<CpuConfig>, AllocError>
    requires { boot ≡ boot_id_of p.now }
    ensures { IfOk result (λ cpus. cpus.items ≡ map (cpu_plan_of p.now boot_program.now s.now) ids.now) }
{
    let mut cpus = Vec::new(alloc);
    for id in ids {
        let Ok(cpu) = cpu_config(alloc, p, boot, boot_program, s, *id) else {
            return Err(AllocError);
        };
        let Ok(()) = cpus.push(cpu) else {
            return Err(AllocError);
        };
    }
    Ok(cpus)
}

/// The words of each device.
pub fn device_words(
    alloc: Global,
    devices: &[Sequence<DevWord>],
) -> Result<Vec<Vec<DevWord>>, AllocError>
    ensures { IfOk result (λ copies. map (λ words. words.items) copies.items ≡ devices.now) }
{
    let mut copies = Vec::new(alloc);
    for words in devices {
        let Ok(copy) = Vec::from_slice(alloc, words.as_slice()) else {
            return Err(AllocError);
        };
        let Ok(()) = copies.push(copy) else {
            return Err(AllocError);
        };
    }
    Ok(copies)
}
