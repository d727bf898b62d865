//! The boards of the rows.

ghost use Rattle.std.specs.Prelude.{◌<◌, ◌≤◌, ◌^◌, IfOk, IfSome, length, sum_by};
ghost use Rattle.mpb_spec.specs.Plan.{plan_size};

use mpb_board::{Config, CpuConfig, DevWord, Op};
use mpb_cases::{one_device, one_processor, pair, processor, with_one_io};
use mpb_config::config_of;
use std::alloc::{AllocError, Global};

/// One processor of version 10h and one I/O APIC of id 1, whose pin 16 the boot program unmasks with
/// vector 30h as a level pin; then the processor takes an interrupt and ends it. One device asserts the
/// pin's line.
pub fn one_level(alloc: Global) -> Result<Option<Config>, AllocError>
    ensures { IfOk result (λ made. IfSome made (λ c. plan_size c < 2 ^ 32)) }
{
    let program = [
        Op::IoSel(0, 0x31),
        Op::IoWin(0, 0),
        Op::IoSel(0, 0x30),
        Op::IoWin(0, 0xA030),
        Op::Take,
        Op::Eoi,
    ];
    let cpus = one_processor(alloc, &program)?;
    let device = one_device(alloc, &[DevWord::High(0, 16)])?;
    with_one_io(alloc, 4, cpus, device)
}

/// Processors 0, with this program, and 1, of version 10h, and 2, of version 0Fh.
fn new_and_old(alloc: Global, program: &[Op]) -> Result<Vec<CpuConfig>, AllocError>
    requires { length program.now ≤ 100 }
    ensures { IfOk result (λ cpus. sum_by (λ p. length p.program) cpus.items ≤ 300) }
{
    let first = processor(alloc, 0, 0x10, program)?;
    let second = processor(alloc, 1, 0x10, &[])?;
    let third = processor(alloc, 2, 0x0F, &[])?;
    Ok(vec![in alloc; first, second, third]?)
}

/// Processors 0 (boot) and 1, of version 10h, and 2, of version 0Fh. The boot program sends INIT and STARTUP
/// messages in an order that starts each processor once, and looks at them.
pub fn starts(alloc: Global) -> Result<Option<Config>, AllocError>
    ensures { IfOk result (λ made. IfSome made (λ c. plan_size c < 2 ^ 32)) }
{
    let program = [
        Op::Startup(1, 0x9F),
        Op::Check(1),
        Op::Init(2),
        Op::Check(2),
        Op::Init(1),
        Op::Check(1),
        Op::Init(1),
        Op::Startup(1, 0x9F),
        Op::Init(1),
        Op::Check(1),
        Op::Warm(0x9F),
        Op::Startup(2, 0x9F),
        Op::Init(2),
        Op::Init(2),
        Op::Check(2),
        Op::Check(3),
    ];
    let cpus = new_and_old(alloc, &program)?;
    Ok(config_of(0x9F, 0, 16, cpus, Vec::new(alloc), false, Vec::new(alloc)))
}

/// Processors 0 (boot) and 1, which nobody starts. The boot program makes pins 0 to 3 of one I/O APIC a fixed
/// interrupt, an SMI, an NMI and an ExtINT to every processor. A device pulses each of the four.
pub fn one_asleep(alloc: Global) -> Result<Option<Config>, AllocError>
    ensures { IfOk result (λ made. IfSome made (λ c. plan_size c < 2 ^ 32)) }
{
    let program = [
        Op::IoSel(0, 0x11),
        Op::IoWin(0, 0x0F00_0000),
        Op::IoSel(0, 0x10),
        Op::IoWin(0, 0x30),
        Op::IoSel(0, 0x13),
        Op::IoWin(0, 0x0F00_0000),
        Op::IoSel(0, 0x12),
        Op::IoWin(0, 0x0200),
        Op::IoSel(0, 0x15),
        Op::IoWin(0, 0x0F00_0000),
        Op::IoSel(0, 0x14),
        Op::IoWin(0, 0x0400),
        Op::IoSel(0, 0x17),
        Op::IoWin(0, 0x0F00_0000),
        Op::IoSel(0, 0x16),
        Op::IoWin(0, 0x0700),
        Op::Check(1),
    ];
    let cpus = pair(alloc, 0, &program, processor(alloc, 1, 0x10, &[])?)?;
    let words = [
        DevWord::Pulse(0, 0),
        DevWord::Pulse(0, 1),
        DevWord::Pulse(0, 2),
        DevWord::Pulse(0, 3),
    ];
    with_one_io(alloc, 17, cpus, one_device(alloc, &words)?)
}

/// One processor, which unmasks pin 1 of one I/O APIC as an edge pin, and a device that pulses it twice and pin 2
/// once.
pub fn early_pulses(alloc: Global) -> Result<Option<Config>, AllocError>
    ensures { IfOk result (λ made. IfSome made (λ c. plan_size c < 2 ^ 32)) }
{
    let cpus = one_processor(alloc, &[Op::IoSel(0, 0x12), Op::IoWin(0, 0x21)])?;
    let words = [
        DevWord::Pulse(0, 1),
        DevWord::Pulse(0, 1),
        DevWord::Pulse(0, 2),
    ];
    with_one_io(alloc, 2, cpus, one_device(alloc, &words)?)
}

/// Processors 2 (boot) and 5, an interrupt mode register, and two I/O APICs. The boot program unmasks pin
/// 16 of the second one with vector 30h as a level pin; then the processor sends itself vectors 41h and 52h, sets
/// its priority and takes one. One device asserts the pin's line.
pub fn second_io_apic(alloc: Global) -> Result<Option<Config>, AllocError>
    ensures { IfOk result (λ made. IfSome made (λ c. plan_size c < 2 ^ 32)) }
{
    let program = [
        Op::IoSel(1, 0x31),
        Op::IoWin(1, 0x0200_0000),
        Op::IoSel(1, 0x30),
        Op::IoWin(1, 0xA030),
        Op::Ipi(2, 0x41),
        Op::Ipi(2, 0x52),
        Op::Tpr(0x2C),
        Op::Take,
    ];
    let cpus = pair(alloc, 2, &program, processor(alloc, 5, 0x10, &[])?)?;
    let device = one_device(alloc, &[DevWord::High(1, 16)])?;
    let ios = [6, 7].to_vec(alloc)?;
    Ok(config_of(0x9F, 2, 4, cpus, ios, true, device))
}
