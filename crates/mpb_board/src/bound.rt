//! The room of a config: how long a journal of it can get (this project's own).

ghost use Rattle.std.specs.Prelude.{◌≡◌, ◌+◌, ◌*◌, ◌≤◌, ◌<◌, ◌^◌, false, map, length, sum_by, count_by};
ghost use Rattle.mpb_spec.specs.Plan.{plan_size, device_program};
ghost use Rattle.mpb_spec.specs.Room.{room, is_pulse, is_high, is_write, is_eoi};

use mpb_spec::{Config, CpuConfig, DevWord, Op, PINS};

// how many pins each I/O APIC has
const PINS_OF_EACH: u64 = PINS as u64;

// how many ops there are, how many of them write a register of an I/O APIC, how many end an interrupt
#[derive(Clone, Copy)]
struct OpCounts {
    ops: u64,
    writes: u64,
    ends: u64,
}

// how many ops the programs of devices have, how many of the words are pulses, how many highs
#[derive(Clone, Copy)]
struct WordCounts {
    ops: u64,
    pulses: u64,
    highs: u64,
}

fn is_write(op: Op) -> bool
    ensures { result ≡ is_write op }
{
    matches!(op, Op::IoWin(..))
}

fn is_end(op: Op) -> bool
    ensures { result ≡ is_eoi op }
{
    matches!(op, Op::Eoi)
}

fn is_pulse(word: DevWord) -> bool
    ensures { result ≡ is_pulse word }
{
    matches!(word, DevWord::Pulse(..))
}

fn is_high(word: DevWord) -> bool
    ensures { result ≡ is_high word }
{
    matches!(word, DevWord::High(..))
}

// the counts of a program
fn of_program(program: &[Op]) -> OpCounts
    requires { length program.now < 2 ^ 32 }
    ensures ops { result.ops ≡ length program.now }
    ensures writes { result.writes ≡ count_by is_write program.now }
    ensures ends { result.ends ≡ count_by is_eoi program.now }
    ensures few_writes { result.writes ≤ length program.now }
    ensures few_ends { result.ends ≤ length program.now }
{
    let mut writes = 0;
    let mut ends = 0;
    for op in program {
        writes += u64::from(is_write(*op));
        ends += u64::from(is_end(*op));
    }
    OpCounts {
        ops: program.len() as u64,
        writes,
        ends,
    }
}

// the counts of a processor's program
fn of_cpu(cpu: &CpuConfig) -> OpCounts
    requires { length cpu.now.program < 2 ^ 32 }
    ensures ops { result.ops ≡ length cpu.now.program }
    ensures writes { result.writes ≡ count_by is_write cpu.now.program }
    ensures ends { result.ends ≡ count_by is_eoi cpu.now.program }
    ensures few_writes { result.writes ≤ length cpu.now.program }
    ensures few_ends { result.ends ≤ length cpu.now.program }
{
    of_program(cpu.program.as_slice())
}

// those of all processors
fn of_cpus(cpus: &[CpuConfig]) -> OpCounts
    requires { sum_by (λ p. length p.program) cpus.now < 2 ^ 32 }
    ensures ops { result.ops ≡ sum_by (λ p. length p.program) cpus.now }
    ensures writes { result.writes ≡ sum_by (λ p. count_by is_write p.program) cpus.now }
    ensures ends { result.ends ≡ sum_by (λ p. count_by is_eoi p.program) cpus.now }
    ensures few_writes { result.writes ≤ result.ops }
    ensures few_ends { result.ends ≤ result.ops }
{
    let mut ops = 0;
    let mut writes = 0;
    let mut ends = 0;
    for cpu in cpus {
        let part = of_cpu(cpu);
        ops += part.ops;
        writes += part.writes;
        ends += part.ends;
    }
    OpCounts { ops, writes, ends }
}

// how many of the words are pulses
fn pulses_in(words: &[DevWord]) -> u64
    requires { length words.now < 2 ^ 32 }
    ensures count { result ≡ count_by is_pulse words.now }
    ensures most { result ≤ length words.now }
{
    let mut pulses = 0;
    for word in words {
        pulses += u64::from(is_pulse(*word));
    }
    pulses
}

// how many of the words are highs
fn highs_in(words: &[DevWord]) -> u64
    requires { length words.now < 2 ^ 32 }
    ensures count { result ≡ count_by is_high words.now }
    ensures most { result ≤ length words.now }
{
    let mut highs = 0;
    for word in words {
        highs += u64::from(is_high(*word));
    }
    highs
}

// the counts of a device: its program has Begin, End, and its words but the pulses
fn of_words(words: &[DevWord]) -> WordCounts
    requires { length words.now < 2 ^ 32 }
    ensures ops { result.ops ≡ length (device_program words.now) }
    ensures pulses { result.pulses ≡ count_by is_pulse words.now }
    ensures highs { result.highs ≡ count_by is_high words.now }
    ensures few_ops { result.ops ≤ length words.now + 2 }
    ensures few_pulses { result.pulses ≤ length words.now }
    ensures few_highs { result.highs ≤ length words.now }
{
    let pulses = pulses_in(words);
    let highs = highs_in(words);
    WordCounts {
        ops: words.len() as u64 + 2 - pulses,
        pulses,
        highs,
    }
}

// those of all devices
#[tactic(auto, using(crate::proofs::RoomLemmas::mapped_sum_more))]
fn of_devices(devices: &[Vec<DevWord>]) -> WordCounts
    requires { sum_by (λ words. length words.items + 2) devices.now < 2 ^ 32 }
    ensures ops { result.ops ≡ sum_by (λ words. length (device_program words)) (map (λ words. words.items) devices.now) }
    ensures pulses { result.pulses ≡ sum_by (λ words. count_by is_pulse words) (map (λ words. words.items) devices.now) }
    ensures highs { result.highs ≡ sum_by (λ words. count_by is_high words) (map (λ words. words.items) devices.now) }
    ensures few_ops { result.ops < 2 ^ 32 }
    ensures few_pulses { result.pulses < 2 ^ 32 }
    ensures few_highs { result.highs < 2 ^ 32 }
{
    let mut ops = 0;
    let mut pulses = 0;
    let mut highs = 0;
    for words in devices {
        let part = of_words(words.as_slice());
        ops += part.ops;
        pulses += part.pulses;
        highs += part.highs;
    }
    WordCounts { ops, pulses, highs }
}

// the sends that ends of interrupt can make due: one for each pin of every I/O APIC
fn sends_by_ends(ios: u64, ends: u64) -> u64
    requires few { ios ≤ 4 }
    requires small { ends < 2 ^ 32 }
    ensures sends { result ≡ 24 * ios * ends }
    ensures most { result ≤ 96 * ends }
{
    let pins = PINS_OF_EACH * ios;
    pins * ends
}

// the room of these parts of a config
fn room_of(cpus: &[CpuConfig], ios: &[u8], devices: &[Vec<DevWord>]) -> u64
    requires few { length ios.now ≤ 4 }
    requires ops { sum_by (λ p. length p.program) cpus.now < 2 ^ 32 }
    requires words { sum_by (λ words. length words.items + 2) devices.now < 2 ^ 32 }
    ensures { result ≡ room (record { boot = 0; boot_len = 0; cpus = cpus.now; ios = ios.now; imcr = false; devices = map (λ words. words.items) devices.now }) }
{
    let ops = of_cpus(cpus);
    let words = of_devices(devices);
    let places = ios.len() as u64;
    let sends = sends_by_ends(places, ops.ends);
    ops.ops + words.ops + 2 * words.pulses + words.highs + ops.writes + sends + places
}

/// The bound on every journal of the config: an entry for each op of all programs, of devices their
/// Begin and End too; a collection and a send for each pulse; a send for each high word and each
/// write of a register; for each end of interrupt one for each pin of every I/O APIC; and a sweep
/// for each I/O APIC.
pub fn room(config: &Config) -> u64
    requires small { plan_size config.now < 2 ^ 32 }
    ensures bound { result ≡ room config.now }
{
    room_of(
        config.cpus.as_slice(),
        config.ios.as_slice(),
        config.devices.as_slice(),
    )
}
