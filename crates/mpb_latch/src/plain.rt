//! The latch of one thread.

ghost use Rattle.std.specs.Prelude.{◌≡◌, ◌+◌, ◌<◌, ◌≤◌, ◌^◌, ◌↔◌, ℕ, length, IsTrue, if◌then◌else◌};
ghost use Rattle.std.specs.Int.{bit_at};
ghost use Rattle.mpb_spec.specs.Pulses.{hit_of, is_on};
ghost use Rattle.mpb_spec.specs.PlainLatch.{collected, empty_latch, pins_at, pulsed};

use mpb_spec::{Hit, MOST_IO_APICS, Pulse};
use std::marker::Model;

/// A latch of one thread. Contracts see, for each I/O APIC, the set of its latched pins as a number
/// (pin n is in it where bit n is 1), how many devices there are, and how many have ended.
#[derive(Drop)]
pub struct PlainLatch {
    words: [u32; MOST_IO_APICS],
    ios: u8,
    devices: u8,
    ended: u8,
}

impl Model for PlainLatch {
    ghost use Rattle.std.specs.Prelude.{◌≡◌, ◌<◌, ◌≤◌, ◌^◌, All, length, take};
    ghost use Rattle.mpb_spec.specs.PlainLatch.{PlainState};

    ghost Value = { PlainState };

    ghost view = { λ l. record { pins = take l.ios l.words; devices = l.devices; ended = l.ended } };

    ghost invariant = { λ l. (length l.words ≡ 4) × (l.ios ≤ 4) × (l.ended ≤ l.devices) × All (λ w. w < 2 ^ 24) l.words };
}

impl PlainLatch {
    /// A latch for `ios` I/O APICs and `devices` devices, with no pin latched.
    pub fn new(ios: u8, devices: u8) -> PlainLatch
        requires { ios ≤ 4 }
        ensures { result ≡ empty_latch ios devices }
    {
        PlainLatch {
            words: [0; MOST_IO_APICS],
            ios,
            devices,
            ended: 0,
        }
    }

    /// Pulses a pin. It is Merged exactly where the pin was latched already.
    pub fn pulse(&mut self, p: Pulse) -> Hit
        requires io { p.io < length self.old.pins }
        requires pin { p.pin < 24 }
        ensures answer { result ≡ hit_of (bit_at (pins_at p.io self.old) p.pin) }
        ensures state { self.new ≡ pulsed p self.old }
        ensures pins { (io pin : ℕ) → bit_at (pins_at io self.new) pin ≡ (if is_on io pin p then 1 else bit_at (pins_at io self.old) pin) }
    {
        let io = p.io as usize;
        let word = self.words[io];
        self.words[io] = word | 1 << p.pin;
        if word >> p.pin & 1 == 0 {
            Hit::New
        } else {
            Hit::Merged
        }
    }

    /// A further device has ended.
    pub fn end(&mut self)
        requires { self.old.ended < self.old.devices }
        ensures { self.new ≡ record self.old { ended = self.old.ended + 1 } }
    {
        self.ended += 1;
    }

    /// The latched pins of an I/O APIC, bit n for pin n, which are free from now on.
    pub fn collect(&mut self, io: u8) -> u32
        requires { io < length self.old.pins }
        ensures answer { result ≡ pins_at io self.old }
        ensures range { result < 2 ^ 24 }
        ensures state { self.new ≡ collected io self.old }
    {
        let io = io as usize;
        let word = self.words[io];
        self.words[io] = 0;
        word
    }

    /// Whether all devices have ended.
    pub fn ended(&self) -> bool
        ensures { IsTrue result ↔ (self.now.ended ≡ self.now.devices) }
    {
        self.ended == self.devices
    }
}
