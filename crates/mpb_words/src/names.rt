//! The names of words, and the greatest values of their numbers.

ghost use Rattle.std.specs.Prelude.{◌≡◌, ◌≤◌, ◌∷◌, [], length};
ghost use Rattle.mpb_words.specs.Words.{cpu_name_of, cpu_limits, is_in_range, device_name_of, device_limits};

use mpb_spec::{CLUSTER, FLAT, LONGEST_PAUSE, MOST_IO_APICS, PINS};

// the greatest number that is a byte
const LAST_BYTE: u32 = 255;

// the last place of an I/O APIC
const LAST_PLACE: u32 = MOST_IO_APICS as u32 - 1;

// the last pin of an I/O APIC
const LAST_PIN: u32 = PINS as u32 - 1;

// the words of a processor
#[derive(Clone, Copy)]
pub(crate) enum CpuName {
    Ipi,
    Ipl,
    Nmi,
    Take,
    Poll,
    Eoi,
    Tpr,
    Ldr,
    Dfr,
    IoSel,
    IoWin,
    IoRead,
    Pause,
}

// the words of a device
#[derive(Clone, Copy)]
pub(crate) enum DeviceName {
    Pulse,
    High,
    Low,
}

// the processor's word of this name
pub(crate) fn cpu_name(text: &str) -> Option<CpuName>
    ensures { result ≡ cpu_name_of text.now }
{
    match *text.as_bytes() {
        [a, b, c] => cpu_name_of_three(a, b, c),
        [a, b, c, d] => cpu_name_of_four(a, b, c, d),
        [a, b, c, d, e] => cpu_name_of_five(a, b, c, d, e),
        [a, b, c, d, e, f] => cpu_name_of_six(a, b, c, d, e, f),
        _ => None,
    }
}

// the processor's word whose name is these three bytes
fn cpu_name_of_three(a: u8, b: u8, c: u8) -> Option<CpuName>
    ensures { result ≡ cpu_name_of (a ∷ b ∷ c ∷ []) }
{
    match (a, b, c) {
        (b'i', b'p', b'i') => Some(CpuName::Ipi),
        (b'i', b'p', b'l') => Some(CpuName::Ipl),
        (b'n', b'm', b'i') => Some(CpuName::Nmi),
        (b'e', b'o', b'i') => Some(CpuName::Eoi),
        (b't', b'p', b'r') => Some(CpuName::Tpr),
        (b'l', b'd', b'r') => Some(CpuName::Ldr),
        (b'd', b'f', b'r') => Some(CpuName::Dfr),
        _ => None,
    }
}

// the processor's word whose name is these four bytes
fn cpu_name_of_four(a: u8, b: u8, c: u8, d: u8) -> Option<CpuName>
    ensures { result ≡ cpu_name_of (a ∷ b ∷ c ∷ d ∷ []) }
{
    match (a, b, c, d) {
        (b't', b'a', b'k', b'e') => Some(CpuName::Take),
        (b'p', b'o', b'l', b'l') => Some(CpuName::Poll),
        _ => None,
    }
}

// the processor's word whose name is these five bytes
fn cpu_name_of_five(a: u8, b: u8, c: u8, d: u8, e: u8) -> Option<CpuName>
    ensures { result ≡ cpu_name_of (a ∷ b ∷ c ∷ d ∷ e ∷ []) }
{
    match (a, b, c, d, e) {
        (b'i', b'o', b's', b'e', b'l') => Some(CpuName::IoSel),
        (b'i', b'o', b'w', b'i', b'n') => Some(CpuName::IoWin),
        (b'p', b'a', b'u', b's', b'e') => Some(CpuName::Pause),
        _ => None,
    }
}

// the processor's word whose name is these six bytes
fn cpu_name_of_six(a: u8, b: u8, c: u8, d: u8, e: u8, f: u8) -> Option<CpuName>
    ensures { result ≡ cpu_name_of (a ∷ b ∷ c ∷ d ∷ e ∷ f ∷ []) }
{
    match (a, b, c, d, e, f) {
        (b'i', b'o', b'r', b'e', b'a', b'd') => Some(CpuName::IoRead),
        _ => None,
    }
}

// the device's word of this name
pub(crate) fn device_name(text: &str) -> Option<DeviceName>
    ensures { result ≡ device_name_of text.now }
{
    match *text.as_bytes() {
        [a, b, c] => device_name_of_three(a, b, c),
        [a, b, c, d] => device_name_of_four(a, b, c, d),
        [a, b, c, d, e] => device_name_of_five(a, b, c, d, e),
        _ => None,
    }
}

// the device's word whose name is these three bytes
fn device_name_of_three(a: u8, b: u8, c: u8) -> Option<DeviceName>
    ensures { result ≡ device_name_of (a ∷ b ∷ c ∷ []) }
{
    match (a, b, c) {
        (b'l', b'o', b'w') => Some(DeviceName::Low),
        _ => None,
    }
}

// the device's word whose name is these four bytes
fn device_name_of_four(a: u8, b: u8, c: u8, d: u8) -> Option<DeviceName>
    ensures { result ≡ device_name_of (a ∷ b ∷ c ∷ d ∷ []) }
{
    match (a, b, c, d) {
        (b'h', b'i', b'g', b'h') => Some(DeviceName::High),
        _ => None,
    }
}

// the device's word whose name is these five bytes
fn device_name_of_five(a: u8, b: u8, c: u8, d: u8, e: u8) -> Option<DeviceName>
    ensures { result ≡ device_name_of (a ∷ b ∷ c ∷ d ∷ e ∷ []) }
{
    match (a, b, c, d, e) {
        (b'p', b'u', b'l', b's', b'e') => Some(DeviceName::Pulse),
        _ => None,
    }
}

// the greatest values of a processor word's numbers
pub(crate) fn cpu_limits(name: CpuName) -> &'static [u32]
    ensures value { result.now ≡ cpu_limits name }
    ensures few { length result.now ≤ 2 }
{
    match name {
        CpuName::Ipi | CpuName::Ipl => &[LAST_BYTE, LAST_BYTE],
        CpuName::Nmi | CpuName::Tpr | CpuName::Ldr => &[LAST_BYTE],
        CpuName::Dfr => &[FLAT as u32],
        CpuName::Take | CpuName::Poll | CpuName::Eoi => &[],
        CpuName::IoSel => &[LAST_PLACE, LAST_BYTE],
        CpuName::IoWin => &[LAST_PLACE, u32::MAX],
        CpuName::IoRead => &[LAST_PLACE],
        CpuName::Pause => &[LONGEST_PAUSE],
    }
}

// whether the first number is in range, where it is at most the greatest: a model of logical destinations is 0 or 15
pub(crate) fn is_in_range(name: CpuName, a: u32) -> bool
    ensures { result ≡ is_in_range name a }
{
    match name {
        CpuName::Dfr => a == CLUSTER as u32 || a == FLAT as u32,
        _ => true,
    }
}

// the greatest values of a device word's numbers
pub(crate) fn device_limits(name: DeviceName) -> &'static [u32]
    ensures value { result.now ≡ device_limits name }
    ensures few { length result.now ≤ 2 }
{
    match name {
        DeviceName::Pulse | DeviceName::High | DeviceName::Low => &[LAST_PLACE, LAST_PIN],
    }
}
