//! What a board is made of (this project's own).

use crate::agent::Op;
use std::marker::Model;

/// How many processors a board has at most.
pub const MOST_CPUS: usize = 8;

/// How many I/O APICs a board has at most.
pub const MOST_IO_APICS: usize = 4;

/// How many devices a board has at most.
pub const MOST_DEVICES: usize = 4;

/// The least version of a local APIC that has STARTUP (MultiProcessor Specification 1.4, appendix B.4).
pub const STARTUP_VERSION: u8 = 0x10;

/// A word of a device: the place of the I/O APIC, and the pin, below 24.
#[derive(Clone, Copy, PartialEq)]
pub enum DevWord {
    /// An edge.
    Pulse(u8, u8),
    /// The line is asserted.
    High(u8, u8),
    /// The line is released.
    Low(u8, u8),
}

/// Whether a processor runs.
#[derive(Clone, Copy, PartialEq)]
pub enum Life {
    /// It doesn't, and waits for no STARTUP.
    Asleep,
    /// It waits for a STARTUP.
    Waiting,
    /// It was started at this page, and runs.
    Started(u8),
    /// It is the boot processor, and runs.
    First,
}

/// The interrupt mode register (MultiProcessor Specification 1.4, section 3.6.2.1).
#[derive(Clone, Copy, PartialEq)]
pub enum Imcr {
    /// The board has none.
    Absent,
    /// PIC mode: the APICs are bypassed.
    Pic,
    /// The APICs are connected.
    Apic,
}

/// A processor of a board.
#[derive(Drop)]
pub struct CpuConfig {
    /// Its local APIC id.
    pub id: u8,
    /// The version of its local APIC: 10h and above have STARTUP.
    pub version: u8,
    pub program: Vec<Op>,
}

impl Model for CpuConfig {
    ghost use Rattle.mpb_spec.specs.Plan.{CpuPlan};

    ghost Value = { CpuPlan };

    ghost view = { λ c. record { id = c.id; version = c.version; program = c.program.items } };
}

/// What a board is made of. Contracts see it as a plan of the same fields, which is a config.
#[derive(Drop)]
pub struct Config {
    /// The boot processor's id, below 15.
    pub boot: u8,
    /// How many ops of the boot processor's program are the boot program.
    pub boot_len: u32,
    /// 1 to 8 processors, ascending by distinct ids below 255.
    pub cpus: Vec<CpuConfig>,
    /// The ids of at most 4 I/O APICs, by place.
    pub ios: Vec<u8>,
    /// Whether the board has an interrupt mode register.
    pub imcr: bool,
    /// The words of at most 4 devices.
    pub devices: Vec<Vec<DevWord>>,
}

impl Model for Config {
    ghost use Rattle.std.specs.Prelude.{map};
    ghost use Rattle.mpb_spec.specs.Plan.{Plan};
    ghost use Rattle.mpb_spec.specs.Configs.{IsConfig};

    ghost Value = { Plan };

    ghost view = { λ c. record { boot = c.boot; boot_len = c.boot_len; cpus = c.cpus.items; ios = c.ios.items; imcr = c.imcr; devices = map (λ words. words.items) c.devices.items } };

    ghost invariant = { λ c. IsConfig (record { boot = c.boot; boot_len = c.boot_len; cpus = c.cpus.items; ios = c.ios.items; imcr = c.imcr; devices = map (λ words. words.items) c.devices.items }) };
}
