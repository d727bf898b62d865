//! What a word says.

ghost use Rattle.std.specs.Prelude.{◌≡◌, ◌≤◌, IfOk, slice_index};
ghost use Rattle.mpb_words.specs.Words.{cpu_op_of, cpu_op, cpu_limits, device_word_of, device_word, device_limits};
ghost use Rattle.mpb_words.specs.Values.{IsCpuWord, IsDeviceWord};

use crate::cut::cut;
use crate::names::{
    CpuName, DeviceName, cpu_limits, cpu_name, device_limits, device_name, is_in_range,
};
use crate::numbers::numbers;
use crate::refusal::WordWhy;
use mpb_spec::{DevWord, Op};

/// Reads a word of a processor.
///
/// A word is a name and its numbers, parted by one space: `ipi D V`, `ipl D V`, `nmi D`, `take`, `poll`,
/// `eoi`, `tpr N`, `ldr N`, `dfr M`, `iosel A R`, `iowin A V`, `ioread A` or `pause US`. D, V, N and R are
/// up to 255, M is 0 or 15, A is an I/O APIC's place up to 3, iowin's V a `u32`, US microseconds up to
/// 1,000,000. A number is decimal without leading zeros, or `0x` and one to eight hexadecimal digits.
///
/// # Errors
///
/// The first of the causes for which the word is wrong.
#[tactic(auto, unfolding(crate::specs::Words::cpu_op_of))]
pub fn read_cpu_word(word: &str) -> Result<Op, WordWhy>
    ensures says { result ≡ cpu_op_of word.now }
    ensures values { IfOk result IsCpuWord }
{
    let (text, rest) = cut(word);
    match cpu_name(text) {
        Some(name) => match numbers(rest, cpu_limits(name)) {
            Ok((a, b)) => {
                if is_in_range(name, a) {
                    Ok(named_op(name, a, b))
                } else {
                    Err(WordWhy::Range)
                }
            }
            Err(why) => Err(why),
        },
        None => Err(WordWhy::Name),
    }
}

// the operation of a name and its numbers
fn named_op(name: CpuName, a: u32, b: u32) -> Op
    requires first { a ≤ slice_index (cpu_limits name) 0 }
    requires second { b ≤ slice_index (cpu_limits name) 1 }
    ensures { result ≡ cpu_op name a b }
{
    match name {
        CpuName::Ipi => Op::Ipi(a as u8, b as u8),
        CpuName::Ipl => Op::Ipl(a as u8, b as u8),
        CpuName::Nmi => Op::Nmi(a as u8),
        CpuName::Take => Op::Take,
        CpuName::Poll => Op::Poll,
        CpuName::Eoi => Op::Eoi,
        CpuName::Tpr => Op::Tpr(a as u8),
        CpuName::Ldr => Op::Ldr(a as u8),
        CpuName::Dfr => Op::Dfr(a as u8),
        CpuName::IoSel => Op::IoSel(a as u8, b as u8),
        CpuName::IoWin => Op::IoWin(a as u8, b),
        CpuName::IoRead => Op::IoRead(a as u8),
        CpuName::Pause => Op::Pause(a),
    }
}

/// Reads a word of a device.
///
/// A word is a name and its numbers, parted by one space: `pulse A PIN`, `high A PIN` or `low A PIN`.
/// A is an I/O APIC's place up to 3, PIN one of its pins up to 23. Numbers are written as in a
/// processor's word.
///
/// # Errors
///
/// The first of the causes for which the word is wrong.
#[tactic(auto, unfolding(crate::specs::Words::device_word_of))]
pub fn read_device_word(word: &str) -> Result<DevWord, WordWhy>
    ensures says { result ≡ device_word_of word.now }
    ensures values { IfOk result IsDeviceWord }
{
    let (text, rest) = cut(word);
    match device_name(text) {
        Some(name) => match numbers(rest, device_limits(name)) {
            Ok((a, b)) => Ok(named_word(name, a, b)),
            Err(why) => Err(why),
        },
        None => Err(WordWhy::Name),
    }
}

// the word of a name and its numbers
fn named_word(name: DeviceName, a: u32, b: u32) -> DevWord
    requires first { a ≤ slice_index (device_limits name) 0 }
    requires second { b ≤ slice_index (device_limits name) 1 }
    ensures { result ≡ device_word name a b }
{
    match name {
        DeviceName::Pulse => DevWord::Pulse(a as u8, b as u8),
        DeviceName::High => DevWord::High(a as u8, b as u8),
        DeviceName::Low => DevWord::Low(a as u8, b as u8),
    }
}
