//! What a run keeps for the account: one thing more of a device, of an I/O APIC.

ghost use Rattle.std.specs.Prelude.{◌≡◌, ◌≤◌, ◌<◌, ◌^◌, ◌+◌, ◌++◌, ◌∷◌, [], ℕ, suc, IfOk, map, length, slice_index, slice_index_or, replicate, vec_capacity};
ghost use Rattle.std.specs.Int.{bit_at};
ghost use Rattle.mpb_spec.specs.State.{change_at};
ghost use Rattle.mpb_spec.specs.Pulses.{with_pins};

use mpb_latch::add_pins;
use mpb_spec::{Config, DevWord, Hit, PINS, Pulse};
use std::alloc::{AllocError, Global};

/// What a run keeps for the account: how many things each device has done, its log, and how often each pin
/// of each I/O APIC was collected.
pub(crate) type Kept = (Vec<usize>, Vec<Vec<(Pulse, Hit)>>, Vec<Vec<u32>>);

/// The device has done one thing more.
pub(crate) fn one_more(made: &mut Vec<usize>, device: usize)
    requires there { device < length made.old.items }
    requires low { slice_index made.old.items device + 1 < 2 ^ 64 }
    ensures { made.new.items ≡ change_at device suc made.old.items }
{
    made[device] += 1;
}

/// The device's log, which has room for it, has one pulse more, with its answer.
pub(crate) fn log_hit(logs: &mut Vec<Vec<(Pulse, Hit)>>, device: usize, pulse: Pulse, hit: Hit)
    requires there { device < length logs.old.items }
    requires room { length (slice_index_or (map (λ l. l.items) logs.old.items) device []) < slice_index (map (λ l. vec_capacity l) logs.old.items) device }
    ensures logs { map (λ l. l.items) logs.new.items ≡ change_at device (λ l. l ++ (pulse, hit) ∷ []) (map (λ l. l.items) logs.old.items) }
    ensures room { (d : ℕ) → slice_index (map (λ l. vec_capacity l) logs.old.items) d ≤ slice_index (map (λ l. vec_capacity l) logs.new.items) d }
{
    logs[device].push((pulse, hit)).unwrap();
}

/// The pins of the I/O APIC are counted as collected once more.
pub(crate) fn count_pins(counts: &mut Vec<Vec<u32>>, place: usize, pins: u32)
    requires there { place < length counts.old.items }
    requires wide { length (slice_index_or (map (λ l. l.items) counts.old.items) place []) ≡ 24 }
    requires low { (pin : ℕ) → pin < 24 → slice_index (slice_index_or (map (λ l. l.items) counts.old.items) place []) pin + bit_at pins pin < 2 ^ 32 }
    ensures { map (λ l. l.items) counts.new.items ≡ change_at place (with_pins pins) (map (λ l. l.items) counts.old.items) }
{
    add_pins(&mut counts[place], pins);
}

/// What is kept of a board of this config, where nothing has happened. Each log has room for a pulse at
/// each of the device's words.
pub(crate) fn nothing_kept(alloc: Global, config: &Config) -> Result<Kept, AllocError>
    ensures made { IfOk result (λ kept. kept.0.items ≡ replicate (length config.now.devices) 0) }
    ensures logs { IfOk result (λ kept. map (λ l. l.items) kept.1.items ≡ replicate (length config.now.devices) []) }
    ensures room { IfOk result (λ kept. map (λ l. vec_capacity l) kept.1.items ≡ map (λ words. length words) config.now.devices) }
    ensures counts { IfOk result (λ kept. map (λ l. l.items) kept.2.items ≡ replicate (length config.now.ios) (replicate 24 0)) }
{
    let Ok(made) = none_made(alloc, config.devices.len()) else {
        return Err(AllocError);
    };
    let Ok(logs) = no_logs(alloc, config.devices.as_slice()) else {
        return Err(AllocError);
    };
    let Ok(counts) = no_counts(alloc, config.ios.len()) else {
        return Err(AllocError);
    };
    Ok((made, logs, counts))
}

// no device has done anything
fn none_made(alloc: Global, n: usize) -> Result<Vec<usize>, AllocError>
    ensures { IfOk result (λ made. made.items ≡ replicate n 0) }
{
    vec![in alloc; 0; n]
}

// no device has pulsed; each log has room for a pulse at each of the device's words
fn no_logs(alloc: Global, devices: &[Vec<DevWord>]) -> Result<Vec<Vec<(Pulse, Hit)>>, AllocError>
    ensures logs { IfOk result (λ logs. map (λ l. l.items) logs.items ≡ replicate (length devices.now) []) }
    ensures room { IfOk result (λ logs. map (λ l. vec_capacity l) logs.items ≡ map (λ words. length words.items) devices.now) }
{
    let mut logs = Vec::new(alloc);
    for words in devices {
        let Ok(log) = Vec::with_capacity(alloc, words.len()) else {
            return Err(AllocError);
        };
        let Ok(()) = logs.push(log) else {
            return Err(AllocError);
        };
    }
    Ok(logs)
}

// no pin was collected
fn no_counts(alloc: Global, n: usize) -> Result<Vec<Vec<u32>>, AllocError>
    ensures { IfOk result (λ counts. map (λ l. l.items) counts.items ≡ replicate n (replicate 24 0)) }
{
    let mut counts = Vec::new(alloc);
    for _ in 0..n {
        let Ok(pins) = vec![in alloc; 0; usize::from(PINS)] else {
            return Err(AllocError);
        };
        let Ok(()) = counts.push(pins) else {
            return Err(AllocError);
        };
    }
    Ok(counts)
}
