//! The account of the pulses.

ghost use Rattle.std.specs.Prelude.{◌≡◌, ◌≤◌, ◌<◌, ◌^◌, ◌==◌, if◌then◌else◌, slice_index, ◌&&◌, ◌||◌, not, MatchOption, length, map, ℕ};
ghost use Rattle.std.specs.Int.{bit_at};
ghost use Rattle.mpb_spec.specs.Pulses.{is_on, is_new, new_hits_in, new_hits, first_hit};
ghost use Rattle.mpb_robin.specs.Account.{collects, collected_count};
ghost use Rattle.mpb_replay_laws.specs.Asked.{starts_new, has_hit, has_new_start, is_accounted};
ghost use Rattle.mpb_replay.specs.Compared.{AreAccounted, IsFirstPin, IsFirstPinOf};

use mpb_board::{Agent, Entry, Op};
use mpb_latch::add_pins;
use mpb_spec::{Hit, PINS, Pulse};
use mpt_spec::Sequence;

/// A pin of an I/O APIC.
#[derive(Clone, Copy)]
pub struct PinAt {
    pub io: u8,
    pub pin: u8,
}

fn is_on(pulse: Pulse, at: PinAt) -> bool
    ensures { result ≡ is_on at.io at.pin pulse }
{
    pulse.io == at.io && pulse.pin == at.pin
}

fn is_new(hit: Hit) -> bool
    ensures { result ≡ is_new hit }
{
    matches!(hit, Hit::New)
}

// how many hits on the pin are New in the log
fn new_hits_in(log: &[(Pulse, Hit)], at: PinAt) -> usize
    ensures count { result ≡ new_hits_in at.io at.pin log.now }
    ensures most { result ≤ length log.now }
{
    let mut count = 0;
    for made in log {
        count += usize::from(is_on(made.0, at) && is_new(made.1));
    }
    count
}

// in all logs
fn new_hits(logs: &[Sequence<(Pulse, Hit)>], at: PinAt) -> usize
    requires few { length logs.now ≤ 4 }
    ensures { result ≡ new_hits at.io at.pin logs.now }
{
    let mut count = 0;
    for log in logs {
        count += new_hits_in(log.as_slice(), at);
    }
    count
}

// the answer to the log's first pulse on the pin
fn first_hit(log: &[(Pulse, Hit)], at: PinAt) -> Option<Hit>
    ensures { result ≡ first_hit at.io at.pin log.now }
{
    for made in log {
        if is_on(made.0, at) {
            return Some(made.1);
        }
    }
    None
}

fn starts_new(hit: Option<Hit>) -> bool
    ensures { result ≡ starts_new hit }
{
    match hit {
        Some(hit) => is_new(hit),
        None => false,
    }
}

// whether some log has a hit on the pin
fn has_hit(logs: &[Sequence<(Pulse, Hit)>], at: PinAt) -> bool
    ensures { result ≡ has_hit at.io at.pin logs.now }
{
    match logs {
        [] => false,
        [log, rest @ ..] => first_hit(log.as_slice(), at).is_some() || has_hit(rest, at),
    }
}

// whether some log's first hit on the pin is New
fn has_new_start(logs: &[Sequence<(Pulse, Hit)>], at: PinAt) -> bool
    ensures { result ≡ has_new_start at.io at.pin logs.now }
{
    match logs {
        [] => false,
        [log, rest @ ..] => { starts_new(first_hit(log.as_slice(), at)) || has_new_start(rest, at) }
    }
}

// the pins that the entry collects at the I/O APIC, bit n for pin n
fn pins_of(entry: &Entry, io: u8) -> u32
    ensures { (pin : ℕ) → bit_at result pin ≡ (if collects io pin entry.now.agent entry.now.op then 1 else 0) }
{
    match (entry.agent, entry.op) {
        (Agent::Io(place), Op::Collect(pins)) if place == io => pins,
        _ => 0,
    }
}

// how often each pin of the I/O APIC is collected
fn collections(entries: &[Entry], io: u8) -> [u32; PINS as usize]
    requires short { length entries.now < 2 ^ 32 }
    ensures wide { length result ≡ 24 }
    ensures counts { (pin : ℕ) → pin < 24 → slice_index result pin ≡ collected_count io pin entries.now }
{
    let mut counts = [0; PINS as usize];
    for entry in entries {
        add_pins(&mut counts, pins_of(entry, io));
    }
    counts
}

// as many New hits as collections, and where there is a hit, a New one that is the first of its log
fn holds(hits: usize, collections: usize, hit: bool, start: bool) -> bool
    ensures { result ≡ ((hits == collections) && (not hit || start)) }
{
    hits == collections && (!hit || start)
}

// whether the pin, which is collected so often, is accounted for
fn is_accounted(logs: &[Sequence<(Pulse, Hit)>], at: PinAt, count: u32) -> bool
    requires few { length logs.now ≤ 4 }
    ensures { result ≡ is_accounted at.io at.pin count logs.now }
{
    let hits = new_hits(logs, at);
    holds(
        hits,
        count as usize,
        has_hit(logs, at),
        has_new_start(logs, at),
    )
}

// the least pin of the I/O APIC that isn't accounted for
fn wrong_pin(entries: &[Entry], logs: &[Sequence<(Pulse, Hit)>], io: u8) -> Option<u8>
    requires few { length logs.now ≤ 4 }
    requires short { length entries.now < 2 ^ 32 }
    ensures { MatchOption result (AreAccounted io 24 entries.now logs.now) (λ pin. IsFirstPin io pin entries.now logs.now) }
{
    let counts = collections(entries, io);
    for pin in 0..24u8 {
        let count = counts[usize::from(pin)];
        if !is_accounted(logs, PinAt { io, pin }, count) {
            return Some(pin);
        }
    }
    None
}

/// The least pin of so many I/O APICs that isn't accounted for.
pub(crate) fn wrong_account(
    entries: &[Entry],
    logs: &[Sequence<(Pulse, Hit)>],
    ios: u8,
) -> Option<PinAt>
    requires few { length logs.now ≤ 4 }
    requires short { length entries.now < 2 ^ 32 }
    ensures { MatchOption result ((io : ℕ) → io < ios → AreAccounted io 24 entries.now logs.now) (λ at. IsFirstPinOf ios at entries.now logs.now) }
{
    for io in 0..ios {
        if let Some(pin) = wrong_pin(entries, logs, io) {
            return Some(PinAt { io, pin });
        }
    }
    None
}
