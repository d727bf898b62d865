//! The same calls on both latches, made by one thread: the same answers.

use crate::beside::{both_collect, both_end, both_pulse, both_say, stay_quiet};
use crate::harness::same;
use crate::latches::{closed, one_each, three_devices};
use mpb_latch::{Account, Hit, Latch, PlainLatch, Pulse};
use std::process::Abort;
use std::test::Fail;

/// Whether the log of a device has one pulse alone, with this answer.
fn log_is(account: &Account, device: usize, pulse: Pulse, hit: Hit) -> bool {
    let Some(log) = account.logs.get(device) else {
        return false;
    };
    log.as_slice() == [(pulse, hit)].as_slice()
}

/// Asserts that the log of a device has one pulse alone, with this answer.
fn has_log(rt: &impl Abort, account: &Account, device: usize, pulse: Pulse, hit: Hit) {
    let is = log_is(account, device, pulse, hit);
    same(
        rt,
        "a device, and whether its log is as wanted",
        (device, is),
        (device, true),
    );
}

/// Asserts how many logs and how many counts the account has.
fn has_sizes(rt: &impl Abort, account: &Account, logs: usize, counts: usize) {
    let got = (account.logs.len(), account.collected.len());
    same(rt, "logs, and counts", got, (logs, counts));
}

/// Asserts that the account is of three pulses on one pin, the first of them New, and of one collection of pin 1.
fn has_three_logs(rt: &impl Abort, account: &Account, pulse: Pulse) {
    has_sizes(rt, account, 3, 1);
    has_log(rt, account, 0, pulse, Hit::New);
    has_log(rt, account, 1, pulse, Hit::Merged);
    has_log(rt, account, 2, pulse, Hit::Merged);
    same(rt, "the counts", pin_1_was_collected_once(account), true);
}

/// Whether the counts are those of one I/O APIC whose pin 1 alone was collected, once.
fn pin_1_was_collected_once(account: &Account) -> bool {
    let [counts] = account.collected.as_slice() else {
        return false;
    };
    for pin in 0..24usize {
        let wanted = if pin == 1 { 1 } else { 0 };
        if counts.get(pin).copied() != Some(wanted) {
            return false;
        }
    }
    counts.len() == 24
}

#[test]
fn pulse_again(rt: HostRuntime) -> Result<(), Fail> {
    let alloc = rt.alloc();
    let pulse = Pulse { io: 0, pin: 16 };
    let mut plain = PlainLatch::new(1, 1);
    let (latch, mut seat, mut col) = one_each(alloc, pulse)?;
    both_pulse(&rt, &mut plain, &latch, &mut seat, pulse, Hit::New);
    both_collect(&rt, &mut plain, &latch, &mut col, 0x10000);
    both_pulse(&rt, &mut plain, &latch, &mut seat, pulse, Hit::New);
    Ok(())
}

#[test]
fn three_devices_pulse_one_pin(rt: HostRuntime) -> Result<(), Fail> {
    let alloc = rt.alloc();
    let pulse = Pulse { io: 0, pin: 1 };
    let mut plain = PlainLatch::new(1, 3);
    let (latch, mut first, mut second, mut third, mut col) = three_devices(alloc, pulse)?;
    // Four rounds in which the boot program runs, and the one in which the devices pulse
    stay_quiet(&rt, &mut plain, &latch, &mut col, 5);
    both_pulse(&rt, &mut plain, &latch, &mut first, pulse, Hit::New);
    both_pulse(&rt, &mut plain, &latch, &mut second, pulse, Hit::Merged);
    both_pulse(&rt, &mut plain, &latch, &mut third, pulse, Hit::Merged);
    // The pin is collected, and then the devices end
    both_collect(&rt, &mut plain, &latch, &mut col, 2);
    both_end(&mut plain, &latch, &mut first);
    both_end(&mut plain, &latch, &mut second);
    both_end(&mut plain, &latch, &mut third);
    // The message is sent, and then the I/O APIC sweeps
    both_collect(&rt, &mut plain, &latch, &mut col, 0);
    both_collect(&rt, &mut plain, &latch, &mut col, 0);
    both_say(&rt, &plain, &latch, &mut col, true);
    let account = closed(alloc, latch, first, second, third, col)?;
    has_three_logs(&rt, &account, pulse);
    Ok(())
}

#[test]
fn no_collector(rt: HostRuntime) -> Result<(), Fail> {
    let alloc = rt.alloc();
    let plans: Vec<Vec<Pulse>> = Vec::new(alloc);
    let (latch, seats, cols) = Latch::new(alloc, 0, plans.as_slice())?;
    same(&rt, "seats", (seats.len(), cols.len()), (0, 0));
    has_sizes(&rt, &latch.close(seats, cols), 0, 0);
    Ok(())
}
