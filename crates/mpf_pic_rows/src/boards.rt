//! The boards and platforms of the rows.

ghost use Rattle.std.specs.Prelude.{◌<◌, ◌^◌, IfOk};
ghost use Rattle.mpb_spec.specs.Plan.{plan_size};

use mpb_board::{Config, CpuConfig, Op};
use mpt_route::Platform;
use mpt_spec::{IntEntry, Sequence};
use std::alloc::{AllocError, Global};

/// What a boot program writes: both halves of pin 4 of the first I/O APIC, the low half of its pin 9, and
/// that of pin 0 of the second one. Every other half is that of a reset.
#[derive(Clone, Copy)]
pub struct Entries {
    pub low: u32,
    pub high: u32,
    pub ninth: u32,
    pub second: u32,
}

/// How many ops that program has.
pub const OPS: usize = 8;

/// One processor, id 0, and nothing else, with an interrupt mode register or without one.
pub fn bare(alloc: Global, imcr: bool) -> Result<Config, AllocError>
    ensures { IfOk result (λ c. plan_size c < 2 ^ 32) }
{
    let mut cpus = Vec::new(alloc);
    cpus.push(CpuConfig {
        id: 0,
        version: 0x10,
        program: Vec::new(alloc),
    })?;
    Ok(Config {
        boot: 0,
        boot_len: 0,
        cpus,
        ios: Vec::new(alloc),
        imcr,
        devices: Vec::new(alloc),
    })
}

/// The same with two I/O APICs, of which the boot program writes these entries.
pub fn two_chips(alloc: Global, imcr: bool, entries: Entries) -> Result<Config, AllocError>
    ensures { IfOk result (λ c. plan_size c < 2 ^ 32) }
{
    let program = [
        Op::IoSel(1, 0x10),
        Op::IoWin(1, entries.second),
        Op::IoSel(0, 0x22),
        Op::IoWin(0, entries.ninth),
        Op::IoSel(0, 0x19),
        Op::IoWin(0, entries.high),
        Op::IoSel(0, 0x18),
        Op::IoWin(0, entries.low),
    ]
    .to_vec(alloc)?;
    let mut cpus = Vec::new(alloc);
    cpus.push(CpuConfig {
        id: 0,
        version: 0x10,
        program,
    })?;
    Ok(Config {
        boot: 0,
        boot_len: 8,
        cpus,
        ios: [2, 3].to_vec(alloc)?,
        imcr,
        devices: Vec::new(alloc),
    })
}

/// A platform with these local interrupts alone.
pub fn platform(alloc: Global, lints: &[IntEntry]) -> Result<Platform, AllocError> {
    Ok(Platform {
        processors: Sequence::new(Vec::new(alloc)),
        buses: Sequence::new(Vec::new(alloc)),
        ios: Sequence::new(Vec::new(alloc)),
        ints: Sequence::new(Vec::new(alloc)),
        lints: Sequence::new(lints.to_vec(alloc)?),
        imcr: false,
        local_address: 0xFEE0_0000,
    })
}
