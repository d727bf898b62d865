//! The boards.

ghost use Rattle.std.specs.Prelude.{◌<◌, ◌≤◌, ◌+◌, ◌^◌, IfOk, IfSome, length, map, sum_by};
ghost use Rattle.mpb_spec.specs.Plan.{plan_size};

use crate::parts::{one_processor, pair, processor, three_devices};
use mpb_config::config_of;
use mpb_spec::{Config, CpuConfig, DevWord, Op};
use std::alloc::{AllocError, Global};

/// Two processors of version 10h, ids 0 (boot) and 1, and nothing else. The boot program starts processor 1 at page
/// 9Fh, which then makes these ops.
pub fn two_processors(alloc: Global, ops: &[Op]) -> Result<Option<Config>, AllocError>
    requires { length ops.now ≤ 100 }
    ensures small { IfOk result (λ made. IfSome made (λ c. plan_size c < 2 ^ 32)) }
{
    let program = [
        Op::Init(1),
        Op::Pause(10_000),
        Op::Startup(1, 0x9F),
        Op::Pause(200),
        Op::Startup(1, 0x9F),
        Op::Pause(200),
        Op::Check(1),
    ];
    let cpus = pair(alloc, 0, &program, processor(alloc, 1, 0x10, ops)?)?;
    Ok(config_of(0x9F, 0, 7, cpus, Vec::new(alloc), false, Vec::new(alloc)))
}

/// Processors 0 (boot, of version 10h) and 1, of version 01h, with an interrupt mode register or without. The boot
/// program starts processor 1 by the warm-reset vector; a third one, of version 10h, which it starts too, isn't there.
pub fn one_absent(alloc: Global, imcr: bool) -> Result<Option<Config>, AllocError>
    ensures small { IfOk result (λ made. IfSome made (λ c. plan_size c < 2 ^ 32)) }
{
    let program = [
        Op::Warm(0x9F),
        Op::Init(1),
        Op::Pause(10_000),
        Op::Check(1),
        Op::Init(2),
        Op::Pause(10_000),
        Op::Startup(2, 0x9F),
        Op::Pause(200),
        Op::Startup(2, 0x9F),
        Op::Pause(200),
        Op::Check(2),
    ];
    let cpus = pair(alloc, 0, &program, processor(alloc, 1, 1, &[])?)?;
    Ok(config_of(0x9F, 0, 11, cpus, Vec::new(alloc), imcr, Vec::new(alloc)))
}

/// Processors of which the first, 0, boots by so many ops, and devices on one I/O APIC of id 1; none where these make
/// no board.
pub fn with_one_io(
    alloc: Global,
    boot_len: u32,
    cpus: Vec<CpuConfig>,
    devices: Vec<Vec<DevWord>>,
) -> Result<Option<Config>, AllocError>
    requires cpus { sum_by (λ p. length p.program) cpus.items ≤ 200 }
    requires devices { sum_by (λ words. length words + 2) (map (λ words. words.items) devices.items) ≤ 102 }
    ensures small { IfOk result (λ made. IfSome made (λ c. plan_size c < 2 ^ 32)) }
{
    let ios = [1].to_vec(alloc)?;
    Ok(config_of(0x9F, 0, boot_len, cpus, ios, false, devices))
}

/// One processor of version 10h and one I/O APIC of id 1, whose pin 1 the boot program unmasks with vector 21h as an
/// edge pin; then the processor takes an interrupt and ends it. Three devices pulse the pin once each.
pub fn three_pulses(alloc: Global) -> Result<Option<Config>, AllocError>
    ensures small { IfOk result (λ made. IfSome made (λ c. plan_size c < 2 ^ 32)) }
{
    let program = [
        Op::IoSel(0, 0x13),
        Op::IoWin(0, 0),
        Op::IoSel(0, 0x12),
        Op::IoWin(0, 0x21),
        Op::Take,
        Op::Eoi,
    ];
    let cpus = one_processor(alloc, &program)?;
    with_one_io(alloc, 4, cpus, three_devices(alloc)?)
}
