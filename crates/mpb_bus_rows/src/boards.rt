//! A board of many.

ghost use Rattle.std.specs.Prelude.{◌≡◌, ◌<◌, ◌≤◌, ◌+◌, ◌^◌, All, IfOk, IfSome, length, vec_len};
ghost use Rattle.mpb_spec.specs.Plan.{plan_size};

use mpb_board::{Config, CpuConfig, DevWord, Op};
use mpb_cases::processor;
use mpb_config::config_of;
use std::alloc::{AllocError, Global};

/// How long the boot program of the crowd is.
const BOOT_LEN: u32 = 38;

/// The program of processor 0 of the crowd: it starts the seven others and unmasks pin 1 of each I/O
/// APIC, as an edge pin with vector 31h for a processor of its own; then it takes what comes.
fn first_program(alloc: Global) -> Result<Vec<Op>, AllocError>
    ensures { IfOk result (λ program. vec_len program ≤ 100) }
{
    let mut program = [Op::Imcr].to_vec(alloc)?;
    for id in 1..8 {
        program.push(Op::Init(id))?;
        program.push(Op::Startup(id, 0x9F))?;
        program.push(Op::Check(id))?;
    }
    for place in 0..4u8 {
        program.push(Op::IoSel(place, 0x13))?;
        program.push(Op::IoWin(place, u32::from(place) << 24))?;
        program.push(Op::IoSel(place, 0x12))?;
        program.push(Op::IoWin(place, 0x31))?;
    }
    program.extend_from_slice(&[Op::Poll, Op::Eoi, Op::Take, Op::Eoi])?;
    Ok(program)
}

/// The processors of the crowd: each but the first sends a message to one that was started before it,
/// polls, and ends what it has taken.
fn eight_processors(alloc: Global) -> Result<Vec<CpuConfig>, AllocError>
    ensures { IfOk result (λ cpus. (vec_len cpus ≡ 8) × All (λ p. length p.program ≤ 100) cpus.items) }
{
    let mut cpus = Vec::new(alloc);
    cpus.push(processor(alloc, 0, 0x10, first_program(alloc)?.as_slice())?)?;
    for id in 1..8u8 {
        let program = [
            Op::Ipi(id / 2, 0x40 + id),
            Op::Poll,
            Op::Eoi,
            Op::Pause(5),
            Op::Poll,
            Op::Eoi,
            Op::Poll,
        ];
        cpus.push(processor(alloc, id, 0x10, program.as_slice())?)?;
    }
    Ok(cpus)
}

/// The words of four devices: each pulses pin 1 of each I/O APIC, and raises and lowers a line.
fn four_devices(alloc: Global) -> Result<Vec<Vec<DevWord>>, AllocError>
    ensures { IfOk result (λ devices. (vec_len devices ≡ 4) × All (λ words. length words.items ≡ 6) devices.items) }
{
    let mut devices = Vec::new(alloc);
    for place in 0..4u8 {
        let words = [
            DevWord::Pulse(0, 1),
            DevWord::Pulse(1, 1),
            DevWord::High(place, 2),
            DevWord::Pulse(2, 1),
            DevWord::Low(place, 2),
            DevWord::Pulse(3, 1),
        ];
        devices.push(words.to_vec(alloc)?)?;
    }
    Ok(devices)
}

/// Eight processors, four I/O APICs and four devices.
pub fn crowd(alloc: Global) -> Result<Option<Config>, AllocError>
    ensures { IfOk result (λ made. IfSome made (λ c. plan_size c < 2 ^ 32)) }
{
    let cpus = eight_processors(alloc)?;
    let devices = four_devices(alloc)?;
    let ios = [8, 9, 10, 11].to_vec(alloc)?;
    Ok(config_of(0x9F, 0, BOOT_LEN, cpus, ios, true, devices))
}
