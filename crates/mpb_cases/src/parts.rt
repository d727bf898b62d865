//! Parts of boards: processors and devices.

ghost use Rattle.std.specs.Prelude.{◌≤◌, ◌+◌, IfOk, length, map, sum_by};

use mpb_spec::{CpuConfig, DevWord, Op};
use std::alloc::{AllocError, Global};

/// A processor.
pub fn processor(
    alloc: Global,
    id: u8,
    version: u8,
    program: &[Op],
) -> Result<CpuConfig, AllocError>
    requires { length program.now ≤ 100 }
    ensures short { IfOk result (λ p. length p.program ≤ 100) }
{
    Ok(CpuConfig {
        id,
        version,
        program: program.to_vec(alloc)?,
    })
}

/// Processor 0, of version 10h, with this program.
pub fn one_processor(alloc: Global, program: &[Op]) -> Result<Vec<CpuConfig>, AllocError>
    requires { length program.now ≤ 100 }
    ensures short { IfOk result (λ cpus. sum_by (λ p. length p.program) cpus.items ≤ 100) }
{
    let cpu = processor(alloc, 0, 0x10, program)?;
    Ok(vec![in alloc; cpu]?)
}

/// A processor of version 10h with this program, and another one.
pub fn pair(
    alloc: Global,
    id: u8,
    program: &[Op],
    other: CpuConfig,
) -> Result<Vec<CpuConfig>, AllocError>
    requires { (length program.now ≤ 100) × (length other.program ≤ 100) }
    ensures short { IfOk result (λ cpus. sum_by (λ p. length p.program) cpus.items ≤ 200) }
{
    let first = processor(alloc, id, 0x10, program)?;
    Ok(vec![in alloc; first, other]?)
}

/// One device of these words.
pub fn one_device(alloc: Global, words: &[DevWord]) -> Result<Vec<Vec<DevWord>>, AllocError>
    requires { length words.now ≤ 100 }
    ensures short { IfOk result (λ devices. sum_by (λ words. length words + 2) (map (λ words. words.items) devices.items) ≤ 102) }
{
    let device = words.to_vec(alloc)?;
    Ok(vec![in alloc; device]?)
}

/// Three devices, each of which pulses pin 1 of the first I/O APIC.
pub(crate) fn three_devices(alloc: Global) -> Result<Vec<Vec<DevWord>>, AllocError>
    ensures { IfOk result (λ devices. sum_by (λ words. length words + 2) (map (λ words. words.items) devices.items) ≤ 9) }
{
    let words = [DevWord::Pulse(0, 1)];
    let first = words.to_vec(alloc)?;
    let second = words.to_vec(alloc)?;
    let third = words.to_vec(alloc)?;
    Ok(vec![in alloc; first, second, third]?)
}
