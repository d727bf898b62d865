//! A script, and why a text is refused.

use mpb_spec::{Agent, DevWord, Op};
use mpb_words::WordWhy;
use mpt_spec::Sequence;

/// What a processor does.
#[derive(Drop)]
pub struct CpuScript {
    /// The processor's APIC id, 0 to 254.
    pub id: u8,
    /// Its words, in order.
    pub words: Sequence<Op>,
}

/// What the processors and devices of a board do.
#[derive(Drop)]
pub struct Script {
    /// The page of the startup code, 0 to 255 without A0h to BFh (the start address is 000VV000h).
    pub page: u8,
    /// The edge/level control register: bit n is set where ISA IRQ n is a level interrupt.
    pub elcr: u16,
    /// The APIC ids of the processors that are there; none, where all are.
    pub present: Option<Sequence<u8>>,
    /// The processors that have a program, in the order of the text. Their ids are distinct.
    pub cpus: Sequence<CpuScript>,
    /// The programs of the devices, at most four. A device's number is its place.
    pub devices: Sequence<Sequence<DevWord>>,
}

/// A key of a script.
#[derive(Clone, Copy)]
pub enum KeyName {
    /// `page`.
    Page,
    /// `elcr`.
    Elcr,
    /// `present`.
    Present,
    /// `cpu`, which isn't an array of tables.
    Cpu,
    /// `id` of a `cpu` table.
    CpuId,
    /// `words` of a `cpu` table.
    CpuWords,
    /// `device`, which isn't an array of at most four tables.
    Device,
    /// `words` of a `device` table.
    DeviceWords,
    /// A key that no script has.
    Unknown,
}

/// Why a text is refused.
#[derive(Clone, Copy)]
pub enum ScriptFault {
    /// The text isn't UTF-8, or isn't TOML.
    NotToml,
    /// The first wrong or missing key.
    Key {
        /// Which key.
        name: KeyName,
    },
    /// There are more than 8,192 words.
    Many {
        /// How many there are; 2^32 - 1, where there are more.
        n: u32,
    },
    /// The first wrong word.
    Word {
        /// Whose word it is.
        agent: Agent,
        /// Its index in the program, from 0.
        index: u32,
        /// Why it is wrong.
        why: WordWhy,
    },
    /// Memory ran out.
    NoMemory,
}
