//! The logs of the devices.

ghost use Rattle.std.specs.Prelude.{◌≡◌, ◌≢◌, ◌≤◌, Some, MatchBool, MatchOption, length, map, slice_get};
ghost use Rattle.mpb_spec.specs.Pulses.{pulses_of, pulse_of, pulses_in};
ghost use Rattle.mpb_replay_laws.specs.Differences.{IsFirstDifference};
ghost use Rattle.mpb_replay.specs.Compared.{IsSameAt};

use mpb_board::DevWord;
use mpb_spec::{Hit, Pulse};
use mpt_spec::Sequence;

fn pulse_of(word: DevWord) -> Option<Pulse>
    ensures { result ≡ pulse_of word }
{
    match word {
        DevWord::Pulse(io, pin) => Some(Pulse { io, pin }),
        DevWord::High(..) => None,
        DevWord::Low(..) => None,
    }
}

fn same_pulse(one: Pulse, other: Pulse) -> bool
    ensures { MatchBool result (one ≡ other) (one ≢ other) }
{
    one == other
}

// whether the log has this pulse at this place
fn has_pulse(log: &[(Pulse, Hit)], place: usize, pulse: Pulse) -> bool
    ensures { MatchBool result (slice_get (pulses_of log.now) place ≡ Some pulse) (slice_get (pulses_of log.now) place ≢ Some pulse) }
{
    match log.get(place) {
        Some(made) => same_pulse(made.0, pulse),
        None => false,
    }
}

// whether the log is the pulses of the words, in order
fn is_log_of(log: &[(Pulse, Hit)], words: &[DevWord]) -> bool
    ensures { MatchBool result (pulses_of log.now ≡ pulses_in words.now) (pulses_of log.now ≢ pulses_in words.now) }
{
    let mut count = 0;
    for word in words {
        if let Some(pulse) = pulse_of(*word) {
            if !has_pulse(log, count, pulse) {
                return false;
            }
            count += 1;
        }
    }
    count == log.len()
}

// whether the log of this device is its pulses; past the last device there is to be none
fn is_log_right(logs: &[Sequence<(Pulse, Hit)>], devices: &[Vec<DevWord>], number: usize) -> bool
    ensures { MatchBool result (IsSameAt (map pulses_of logs.now) (map pulses_in (map (λ words. words.items) devices.now)) number) (¬ IsSameAt (map pulses_of logs.now) (map pulses_in (map (λ words. words.items) devices.now)) number) }
{
    match logs.get(number) {
        Some(log) => match devices.get(number) {
            Some(words) => is_log_of(log.as_slice(), words.as_slice()),
            None => false,
        },
        None => match devices.get(number) {
            Some(_) => false,
            None => true,
        },
    }
}

/// The least device whose log isn't its pulses in order.
pub(crate) fn wrong_log(logs: &[Sequence<(Pulse, Hit)>], devices: &[Vec<DevWord>]) -> Option<u8>
    requires few { length devices.now ≤ 4 }
    ensures { MatchOption result (map pulses_of logs.now ≡ map pulses_in (map (λ words. words.items) devices.now)) (λ number. IsFirstDifference (map pulses_of logs.now) (map pulses_in (map (λ words. words.items) devices.now)) number) }
{
    let count = devices.len() as u8 + 1;
    for number in 0..count {
        if !is_log_right(logs, devices, usize::from(number)) {
            return Some(number);
        }
    }
    None
}
