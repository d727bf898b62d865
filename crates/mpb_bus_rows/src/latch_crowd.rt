//! Devices in threads of their own beside collectors in theirs: whatever the schedule, what is New
//! was collected.
ghost use Rattle.std.specs.Prelude.{◌≡◌, length, All, IfOk, vec_len, sum_by};
ghost use Rattle.mpb_spec.specs.Pulses.{IsInRange};

use crate::latch_crew::account_of;
use mpb_latch::{Account, Hit, Pulse};
use std::alloc::Global;
use std::test::Fail;

/// A plan of so many pulses on one pin.
fn on_one_pin(alloc: Global, pulse: Pulse, count: u16) -> Result<Vec<Pulse>, Fail>
    requires { IsInRange 1 pulse }
    ensures { IfOk result (λ plan. (vec_len plan ≡ count) × All (IsInRange 1) plan.items) }
{
    let mut plan = Vec::new(alloc);
    for _ in 0..count {
        plan.push(pulse)?;
    }
    Ok(plan)
}

/// A plan of 960 pulses, ten on each pin of four I/O APICs.
fn on_all_pins(alloc: Global) -> Result<Vec<Pulse>, Fail>
    ensures { IfOk result (λ plan. (vec_len plan ≡ 960) × All (IsInRange 4) plan.items) }
{
    let mut plan = Vec::new(alloc);
    for n in 0..960u16 {
        let place = n % 96;
        plan.push(Pulse {
            io: (place / 24) as u8,
            pin: (place % 24) as u8,
        })?;
    }
    Ok(plan)
}

/// How many hits the logs have on a pin, and how many of them are New.
fn hits_on(account: &Account, io: u8, pin: u8) -> (u32, u32) {
    let mut hits = 0u32;
    let mut fresh = 0u32;
    for log in account.logs.as_slice() {
        for (pulse, hit) in log.as_slice() {
            if pulse.io == io && pulse.pin == pin {
                hits = hits.wrapping_add(1);
                if *hit == Hit::New {
                    fresh = fresh.wrapping_add(1);
                }
            }
        }
    }
    (hits, fresh)
}

/// How often a pin was collected.
fn collected_at(account: &Account, io: u8, pin: u8) -> Option<u32> {
    let counts = account.collected.get(usize::from(io))?;
    counts.get(usize::from(pin)).copied()
}

/// Whether the logs have so many hits on a pin, some of them New, and as many New ones as the pin was
/// collected.
fn balances(account: &Account, io: u8, pin: u8, wanted: u32) -> bool {
    let (hits, fresh) = hits_on(account, io, pin);
    hits == wanted && fresh > 0 && collected_at(account, io, pin) == Some(fresh)
}

/// Whether all pins of four I/O APICs balance, each with so many hits.
fn all_balance(account: &Account, wanted: u32) -> bool {
    for io in 0..4u8 {
        for pin in 0..24u8 {
            if !balances(account, io, pin, wanted) {
                return false;
            }
        }
    }
    true
}

/// Two plans of 1,000 pulses on one pin.
fn two_plans(alloc: Global, pulse: Pulse) -> Result<Vec<Vec<Pulse>>, Fail>
    requires { IsInRange 1 pulse }
    ensures range { IfOk result (λ plans. All (λ plan. All (IsInRange 1) plan.items) plans.items) }
    ensures few { IfOk result (λ plans. sum_by (λ plan. length plan.items) plans.items ≡ 2000) }
{
    let first = on_one_pin(alloc, pulse, 1000)?;
    let second = on_one_pin(alloc, pulse, 1000)?;
    Ok(vec![in alloc; first, second]?)
}

/// Four plans of 960 pulses, each ten on each pin of four I/O APICs.
fn four_plans(alloc: Global) -> Result<Vec<Vec<Pulse>>, Fail>
    ensures range { IfOk result (λ plans. All (λ plan. All (IsInRange 4) plan.items) plans.items) }
    ensures few { IfOk result (λ plans. sum_by (λ plan. length plan.items) plans.items ≡ 3840) }
{
    let first = on_all_pins(alloc)?;
    let second = on_all_pins(alloc)?;
    let third = on_all_pins(alloc)?;
    let fourth = on_all_pins(alloc)?;
    Ok(vec![in alloc; first, second, third, fourth]?)
}

#[test]
fn two_devices_beside_a_collector(rt: HostRuntime) -> Result<(), Fail> {
    let alloc = rt.alloc();
    let plans = two_plans(alloc, Pulse { io: 0, pin: 3 })?;
    let account = account_of(&rt, alloc, 1, plans.as_slice())?;
    assert!(rt; balances(&account, 0, 3, 2000));
    Ok(())
}

#[test]
fn four_devices_beside_four_collectors(rt: HostRuntime) -> Result<(), Fail> {
    let alloc = rt.alloc();
    let plans = four_plans(alloc)?;
    let account = account_of(&rt, alloc, 4, plans.as_slice())?;
    assert!(rt; all_balance(&account, 40));
    Ok(())
}
