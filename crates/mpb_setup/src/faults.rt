//! Why there may be no board.

ghost use Rattle.std.specs.Prelude.{◌≡◌, ◌==◌, ◌&&◌, count_by};
ghost use Rattle.mpb_spec.specs.Numbers.{has};
ghost use Rattle.std.specs.List.{list_any};
ghost use Rattle.mpb_setup.specs.Board.{enabled_ids, io_ids, board_ids};
ghost use Rattle.mpb_setup.specs.Faults.{least_double, is_op_at, is_word_at, names_place, least_absent_place, board_fault_of};

use crate::ids::{has_id, is_present};
use mpb_script::{CpuScript, Script};
use mpb_spec::{BoardError, DevWord, ENTRY_TO_ALL, MOST_CPUS, MOST_IO_APICS, Op, TO_ALL};
use mpt_route::{Platform, boot_processor_of};
use mpt_spec::Sequence;

// how many have this id
fn count_of(ids: &[u8], id: u16) -> usize
    ensures { result ≡ count_by (λ x. x == id) ids.now }
{
    ids.iter().filter(|x| u16::from(**x) == id).count()
}

// the least id that two of them share
fn least_double(ids: &[u8]) -> Option<u8>
    ensures { result ≡ least_double ids.now }
{
    for id in 0..256u16 {
        if count_of(ids, id) > 1 {
            return Some(id as u8);
        }
    }
    None
}

fn is_op_at(op: Op, place: u8) -> bool
    ensures { result ≡ is_op_at place op }
{
    match op {
        Op::IoSel(at, _) => at == place,
        Op::IoWin(at, _) => at == place,
        Op::IoRead(at) => at == place,
        _ => false,
    }
}

fn is_word_at(word: DevWord, place: u8) -> bool
    ensures { result ≡ is_word_at place word }
{
    match word {
        DevWord::Pulse(at, _) => at == place,
        DevWord::High(at, _) => at == place,
        DevWord::Low(at, _) => at == place,
    }
}

// whether an op names the place
fn is_some_op_at(ops: &[Op], place: u8) -> bool
    ensures { result ≡ list_any (is_op_at place) ops.now }
{
    for op in ops {
        if is_op_at(*op, place) {
            return true;
        }
    }
    false
}

// whether a word of a device does
fn is_some_word_at(words: &[DevWord], place: u8) -> bool
    ensures { result ≡ list_any (is_word_at place) words.now }
{
    for word in words {
        if is_word_at(*word, place) {
            return true;
        }
    }
    false
}

// whether a word of a processor with one of the ids does
fn is_some_cpu_at(ids: &[u8], cpus: &[CpuScript], place: u8) -> bool
    ensures { result ≡ list_any (λ c. has c.id ids.now && list_any (is_op_at place) c.words) cpus.now }
{
    for cpu in cpus {
        if has_id(ids, cpu.id) && is_some_op_at(cpu.words.as_slice(), place) {
            return true;
        }
    }
    false
}

// whether a word of one of the devices does
fn is_some_device_at(devices: &[Sequence<DevWord>], place: u8) -> bool
    ensures { result ≡ list_any (list_any (is_word_at place)) devices.now }
{
    for words in devices {
        if is_some_word_at(words.as_slice(), place) {
            return true;
        }
    }
    false
}

// whether a word of a device or of a processor with one of the ids does
fn names_place(ids: &[u8], s: &Script, place: u8) -> bool
    ensures { result ≡ names_place ids.now s.now place }
{
    is_some_cpu_at(ids, s.cpus.as_slice(), place) || is_some_device_at(s.devices.as_slice(), place)
}

// the least place that is named and at which there is no I/O APIC of so many
fn least_absent_place(ios: usize, ids: &[u8], s: &Script) -> Option<u8>
    ensures { result ≡ least_absent_place ios ids.now s.now }
{
    for place in 0..MOST_IO_APICS as u8 {
        if ios <= usize::from(place) && names_place(ids, s, place) {
            return Some(place);
        }
    }
    None
}

/// The first cause for which there is no board, where these are the ids of the enabled processors, of
/// the enabled I/O APICs and of the board's processors.
#[tactic(auto, unfolding(crate::specs::Faults::board_fault_of))]
pub fn board_fault(
    p: &Platform,
    s: &Script,
    enabled: &[u8],
    ios: &[u8],
    board: &[u8],
) -> Option<BoardError>
    requires enabled { enabled.now ≡ enabled_ids p.now }
    requires ios { ios.now ≡ io_ids p.now }
    requires board { board.now ≡ board_ids p.now s.now }
    ensures fault { result ≡ board_fault_of p.now s.now }
{
    let Some(boot) = boot_processor_of(p) else {
        return Some(BoardError::NoBoot);
    };
    if let Some(id) = least_double(enabled) {
        return Some(BoardError::DoubleId { id });
    }
    if let Some(id) = least_double(ios) {
        return Some(BoardError::DoubleId { id });
    }
    if has_id(enabled, TO_ALL) {
        return Some(BoardError::WideId { id: TO_ALL });
    }
    let id = boot.apic;
    if id >= ENTRY_TO_ALL {
        return Some(BoardError::BootWide { id });
    }
    if !is_present(s, id) {
        return Some(BoardError::BootAbsent { id });
    }
    if board.len() > MOST_CPUS {
        return Some(BoardError::ManyCpus {
            n: board.len() as u32,
        });
    }
    if ios.len() > MOST_IO_APICS {
        return Some(BoardError::ManyIo {
            n: ios.len() as u32,
        });
    }
    match least_absent_place(ios.len(), board, s) {
        Some(place) => Some(BoardError::NoIo { place }),
        None => None,
    }
}
