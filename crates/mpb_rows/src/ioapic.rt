//! An I/O APIC by tables, after the 82093AA datasheet, section 3.

ghost use Rattle.std.specs.Prelude.{◌<◌};

use crate::harness::same;
use mpb_ioapic::{Collected, Effect, IoApic, Message};
use std::process::Abort;

// Each helper makes one call, and asserts its answer.

fn reads(rt: &impl Abort, chip: &IoApic, want: u32) {
    same(rt, "register", chip.read(), want);
}

fn writes(rt: &impl Abort, chip: &mut IoApic, value: u32, want: Effect) {
    let got = chip.write(value);
    assert!(rt; got == want, "write {value}");
}

fn drives(rt: &impl Abort, chip: &mut IoApic, pin: u8, high: bool, want: Effect) {
    let got = chip.drive(pin, high);
    assert!(rt; got == want, "drive pin {pin}");
}

fn collects(rt: &impl Abort, chip: &mut IoApic, pins: u32, due: u32, joined: u32) {
    let Collected {
        due: got,
        joined: too,
    } = chip.collect(pins);
    same(rt, "pins that become due", got, due);
    same(rt, "pins that are joined", too, joined);
}

fn is_due(rt: &impl Abort, chip: &IoApic, want: Message) {
    let pin = want.pin;
    let got = chip.next_due();
    assert!(rt; got == Some(want), "message of pin {pin}");
}

fn none_is_due(rt: &impl Abort, chip: &IoApic) {
    assert!(rt; chip.next_due().is_none(), "a message is due");
}

// Asserts which pins have their line asserted, are due, and have remote IRR set.
fn has_masks(rt: &impl Abort, chip: &IoApic, line: u32, due: u32, remote: u32) {
    same(rt, "asserted lines", chip.line(), line);
    same(rt, "due pins", chip.due(), due);
    same(rt, "remote IRR", chip.remote(), remote);
}

#[test]
fn one_history_of_calls(rt: HostRuntime) {
    let mut chip = IoApic::new(1);
    chip.select(0);
    reads(&rt, &chip, 0x0100_0000);
    chip.select(0x12);
    reads(&rt, &chip, 0x0001_0000);
    writes(&rt, &mut chip, 0xA030, Effect::Plain);
    drives(&rt, &mut chip, 1, true, Effect::Due);
    reads(&rt, &chip, 0xB030);
    let message = Message {
        pin: 1,
        dest: 0,
        logical: false,
        mode: 0,
        vector: 0x30,
        level: true,
    };
    is_due(&rt, &chip, message);
    chip.sent(1, true);
    reads(&rt, &chip, 0xE030);
    chip.eoi(0x30);
    reads(&rt, &chip, 0xB030);
    drives(&rt, &mut chip, 1, false, Effect::Withdrawn);
    reads(&rt, &chip, 0xA030);
}

// Asserts both halves of a pin's entry as they were written.
fn has_halves(rt: &impl Abort, chip: &IoApic, pin: u8, low: u32, high: u32)
    requires { pin < 24 }
{
    let got = (pin, chip.low(pin), chip.high(pin));
    same(rt, "pin, and its halves", got, (pin, low, high));
}

// The delivery status and remote IRR are read in a low half, and are no part of what was written.
#[test]
fn halves_as_they_were_written(rt: HostRuntime) {
    let mut chip = IoApic::new(1);
    chip.select(0x12);
    writes(&rt, &mut chip, 0xFFFE_F030, Effect::Plain);
    has_halves(&rt, &chip, 1, 0xA030, 0);
    drives(&rt, &mut chip, 1, true, Effect::Due);
    reads(&rt, &chip, 0xB030);
    has_halves(&rt, &chip, 1, 0xA030, 0);
    chip.sent(1, true);
    reads(&rt, &chip, 0xE030);
    has_halves(&rt, &chip, 1, 0xA030, 0);
    chip.select(0x13);
    writes(&rt, &mut chip, 0x5AFF_FFFF, Effect::Plain);
    has_halves(&rt, &chip, 1, 0xA030, 0x5A00_0000);
    has_halves(&rt, &chip, 2, 0x1_0000, 0);
}

// Asserts what a register of an I/O APIC of id 11 reads after a reset, and after a write of FFFFFFFFh.
fn has_register(rt: &impl Abort, index: u8, first: u32, written: u32) {
    let mut chip = IoApic::new(0x1B);
    chip.select(index);
    same(
        rt,
        "register after a reset",
        (index, chip.read()),
        (index, first),
    );
    writes(rt, &mut chip, 0xFFFF_FFFF, Effect::Plain);
    same(
        rt,
        "register as written",
        (index, chip.read()),
        (index, written),
    );
}

#[test]
fn each_register(rt: HostRuntime) {
    has_register(&rt, 0, 0x0B00_0000, 0x0F00_0000);
    has_register(&rt, 1, 0x0017_0011, 0x0017_0011);
    has_register(&rt, 2, 0x0B00_0000, 0x0B00_0000);
    for index in 3..16u8 {
        has_register(&rt, index, 0, 0);
    }
    for pin in 0..24u8 {
        has_register(&rt, 16 + 2 * pin, 0x0001_0000, 0x0001_AFFF);
        has_register(&rt, 17 + 2 * pin, 0, 0xFF00_0000);
    }
    for index in 64..=255u8 {
        has_register(&rt, index, 0, 0);
    }
    let mut chip = IoApic::new(1);
    writes(&rt, &mut chip, 0x5A00_0000, Effect::Plain);
    chip.select(2);
    reads(&rt, &chip, 0x0A00_0000);
}

// The index of the low half of a pin's entry, which that of the high half follows.
fn low_half_of(pin: u8) -> u8 {
    pin.wrapping_mul(2).wrapping_add(16)
}

fn edge_pin(rt: &impl Abort, pin: u8, mask: u32) {
    let mut chip = IoApic::new(0);
    collects(rt, &mut chip, mask, 0, 0);
    let low = low_half_of(pin);
    chip.select(low.wrapping_add(1));
    chip.write(0xF500_0000);
    chip.select(low);
    writes(rt, &mut chip, 0x31, Effect::Plain);
    drives(rt, &mut chip, pin, true, Effect::Plain);
    collects(rt, &mut chip, 0xFF_FFFF, mask, 0);
    collects(rt, &mut chip, 0xFF_FFFF, 0, mask);
    let message = Message {
        pin,
        dest: 5,
        logical: false,
        mode: 0,
        vector: 0x31,
        level: false,
    };
    is_due(rt, &chip, message);
    has_masks(rt, &chip, mask, mask, 0);
    writes(rt, &mut chip, 0x1_0031, Effect::Withdrawn);
    writes(rt, &mut chip, 0x31, Effect::Plain);
    chip.collect(mask);
    chip.sent(pin, true);
    has_masks(rt, &chip, mask, 0, 0);
    none_is_due(rt, &chip);
}

#[test]
fn each_edge_pin(rt: HostRuntime) {
    for pin in 0..24u8 {
        edge_pin(&rt, pin, 1 << pin);
    }
}

fn level_pin(rt: &impl Abort, pin: u8, mask: u32) {
    let mut chip = IoApic::new(0);
    drives(rt, &mut chip, pin, true, Effect::Plain);
    chip.select(low_half_of(pin));
    writes(rt, &mut chip, 0x8040, Effect::Due);
    collects(rt, &mut chip, mask, 0, 0);
    chip.sent(pin, false);
    drives(rt, &mut chip, pin, true, Effect::Plain);
    writes(rt, &mut chip, 0x8040, Effect::Due);
    chip.sent(pin, true);
    drives(rt, &mut chip, pin, false, Effect::Plain);
    drives(rt, &mut chip, pin, true, Effect::Plain);
    has_masks(rt, &chip, mask, 0, mask);
    chip.eoi(0x41);
    has_masks(rt, &chip, mask, 0, mask);
    writes(rt, &mut chip, 0x1_8040, Effect::Plain);
    chip.eoi(0x40);
    has_masks(rt, &chip, mask, 0, 0);
    writes(rt, &mut chip, 0x8040, Effect::Due);
    chip.sent(pin, true);
    writes(rt, &mut chip, 0x40, Effect::Plain);
    has_masks(rt, &chip, mask, 0, 0);
}

#[test]
fn each_level_pin(rt: HostRuntime) {
    for pin in 0..24u8 {
        level_pin(&rt, pin, 1 << pin);
    }
}

// Sends the message of the least due pin, which has to be the wanted one.
fn sends(rt: &impl Abort, chip: &mut IoApic, want: u8) {
    let pin = match chip.next_due() {
        Some(message) => message.pin,
        None => 255,
    };
    same(rt, "pin that is sent", pin, want);
    chip.sent(pin, true);
}

// Of two pins that are due the lesser is sent first.
#[test]
fn least_pin_first(rt: HostRuntime) {
    let mut chip = IoApic::new(0);
    chip.select(16);
    chip.write(0x21);
    chip.select(62);
    chip.write(0x21);
    collects(&rt, &mut chip, 0x80_0001, 0x80_0001, 0);
    sends(&rt, &mut chip, 0);
    sends(&rt, &mut chip, 23);
    none_is_due(&rt, &chip);
}

// Asserts what a pin whose entry says level does in a mode: whether the line makes it due, or a pulse.
fn message_mode(rt: &impl Abort, mode: u8, level: bool, logical: bool, rises: Effect, due: u32) {
    let mut chip = IoApic::new(0);
    chip.select(16);
    let bits = u32::from(mode) << 8 | u32::from(logical) << 11;
    writes(rt, &mut chip, bits | 0x8055, Effect::Plain);
    drives(rt, &mut chip, 0, true, rises);
    collects(rt, &mut chip, 1, due, 0);
    let message = Message {
        pin: 0,
        dest: 0,
        logical,
        mode,
        vector: 0x55,
        level,
    };
    is_due(rt, &chip, message);
}

// Asserts the destination of a pin whose entry has A5h in bits 63:56.
fn destination(rt: &impl Abort, logical: bool, dest: u8) {
    let mut chip = IoApic::new(0);
    chip.select(17);
    writes(rt, &mut chip, 0xA500_0000, Effect::Plain);
    chip.select(16);
    let low = u32::from(logical) << 11 | 0x55;
    writes(rt, &mut chip, low, Effect::Plain);
    collects(rt, &mut chip, 1, 1, 0);
    let message = Message {
        pin: 0,
        dest,
        logical,
        mode: 0,
        vector: 0x55,
        level: false,
    };
    is_due(rt, &chip, message);
}

// A logical destination is a whole byte, a physical one four bits.
#[test]
fn destinations_of_both_kinds(rt: HostRuntime) {
    destination(&rt, false, 0x05);
    destination(&rt, true, 0xA5);
}

#[test]
fn each_message_mode(rt: HostRuntime) {
    for mode in 0..2u8 {
        message_mode(&rt, mode, true, false, Effect::Due, 0);
        message_mode(&rt, mode, true, true, Effect::Due, 0);
    }
    for mode in 2..8u8 {
        message_mode(&rt, mode, false, false, Effect::Plain, 1);
        message_mode(&rt, mode, false, true, Effect::Plain, 1);
    }
}
