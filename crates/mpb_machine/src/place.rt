//! An I/O APIC on its board: its registers and pins, whether it has swept, and which pulses of the devices
//! are left to collect.

ghost use Rattle.std.specs.Prelude.{◌≡◌, ◌≤◌, ◌<◌, ◌^◌, Some, IfSome, map, true, false, length};
ghost use Rattle.mpb_spec.specs.IoApic.{reset_chip, register, written, write_effect, effect_at, change_pin, with_line, with_sent, with_eoi, next_due, pulsed_due, pulsed_joined};
ghost use Rattle.mpb_spec.specs.Steps.{with_chip, with_pins_of, collected, left_after, all_left};
ghost use Rattle.mpb_spec.specs.Asks.{least_left, collect_of, offer_of};

use mpb_ioapic::{Collected, Effect, IoApic, Message};
use mpb_spec::{Offer, PINS};
use std::marker::Model;

/// An I/O APIC, whether it has swept, and how many collections of each pin are left.
#[derive(Drop)]
pub struct IoPlace {
    chip: IoApic,
    swept: bool,
    left: [u32; PINS as usize],
}

impl Model for IoPlace {
    ghost use Rattle.std.specs.Prelude.{◌≡◌, length};
    ghost use Rattle.mpb_spec.specs.State.{Place};

    ghost Value = { Place };

    ghost view = { λ p. record { chip = p.chip; swept = p.swept; left = p.left } };

    ghost invariant = { λ p. length p.left ≡ 24 };
}

// each pin that the mask names has a collection less
fn spend(left: &mut [u32], pins: u32)
    ensures { left.new ≡ left_after pins left.old }
{
    match left.split_first_mut() {
        None => {}
        Some((count, rest)) => {
            *count = count.saturating_sub(pins % 2);
            spend(rest, pins / 2);
        }
    }
}

// each pin that the mask names is there, and has a collection left
fn has_all(left: &[u32], pins: u32) -> bool
    ensures { result ≡ all_left pins left.now }
{
    match left {
        [] => pins == 0,
        [count, rest @ ..] => (pins % 2 == 0 || *count > 0) && has_all(rest, pins / 2),
    }
}

// the least pin with a collection left, as a mask
fn least_left(left: &[u32]) -> Option<u32>
    requires { length left.now ≤ 24 }
    ensures mask { result ≡ least_left left.now }
    ensures fits { IfSome result (λ m. m < 2 ^ length left.now) }
{
    match left {
        [] => None,
        [count, rest @ ..] => {
            if *count > 0 {
                Some(1)
            } else {
                match least_left(rest) {
                    Some(mask) => Some(2 * mask),
                    None => None,
                }
            }
        }
    }
}

impl IoPlace {
    /// An I/O APIC after a reset, with these collections left.
    pub fn new(id: u8, left: [u32; PINS as usize]) -> IoPlace
        ensures { result ≡ record { chip = reset_chip id; swept = false; left = left } }
    {
        IoPlace {
            chip: IoApic::new(id),
            swept: false,
            left,
        }
    }

    /// Selects a register.
    pub fn select(&mut self, index: u8)
        ensures { self.new ≡ with_chip (λ c. record c { index = index }) self.old }
    {
        self.chip.select(index);
    }

    /// Writes the selected register.
    pub fn write(&mut self, value: u32) -> Effect
        ensures state { self.new ≡ with_chip (written value) self.old }
        ensures effect { result ≡ write_effect value self.old.chip }
    {
        self.chip.write(value)
    }

    /// The selected register.
    pub fn read(&self) -> u32
        ensures { result ≡ register self.now.chip }
    {
        self.chip.read()
    }

    /// Drives a pin's line.
    pub fn drive(&mut self, pin: u8, high: bool) -> Effect
        ensures state { self.new ≡ with_chip (with_pins_of (change_pin pin (with_line high))) self.old }
        ensures effect { result ≡ effect_at pin (with_line high) self.old.chip.pins }
    {
        self.chip.drive(pin, high)
    }

    /// Collects pulses on the pins that the mask names.
    pub fn collect(&mut self, pins: u32) -> Collected
        ensures state { self.new ≡ collected pins self.old }
        ensures due { result.due ≡ pulsed_due pins self.old.chip.pins }
        ensures joined { result.joined ≡ pulsed_joined pins self.old.chip.pins }
    {
        spend(&mut self.left, pins);
        self.chip.collect(pins)
    }

    /// The message of the least due pin.
    pub fn next_due(&self) -> Option<Message>
        ensures { result ≡ next_due self.now.chip }
    {
        self.chip.next_due()
    }

    /// The message of a pin that was due is sent.
    pub fn sent(&mut self, pin: u8, accepted: bool)
        ensures { self.new ≡ with_chip (with_pins_of (change_pin pin (with_sent accepted))) self.old }
    {
        self.chip.sent(pin, accepted);
    }

    /// Ends a level interrupt.
    pub fn eoi(&mut self, vector: u8)
        ensures { self.new ≡ with_chip (with_pins_of (map (with_eoi vector))) self.old }
    {
        self.chip.eoi(vector);
    }

    /// It has swept.
    pub fn sweep(&mut self)
        ensures { self.new ≡ record self.old { swept = true } }
    {
        self.swept = true;
    }

    /// Whether it has swept.
    pub fn has_swept(&self) -> bool
        ensures { result ≡ self.now.swept }
    {
        self.swept
    }

    /// Whether each pin that the mask names is there, and has a collection left.
    pub fn has_left(&self, pins: u32) -> bool
        ensures { result ≡ all_left pins self.now.left }
    {
        has_all(&self.left, pins)
    }

    // an offer of the least pin with a collection left
    fn collect_offer(&self) -> Option<Offer>
        ensures { result ≡ collect_of (least_left self.now.left) }
    {
        match least_left(&self.left) {
            Some(pins) => {
                if pins < 0x100_0000 {
                    Some(Offer::Collect(pins))
                } else {
                    None
                }
            }
            None => None,
        }
    }

    /// An offer with which it may step; `through` says whether the boot program is through, `over` whether
    /// each device has ended.
    pub fn offer(&self, through: bool, over: bool) -> Option<Offer>
        ensures { result ≡ offer_of through over self.now }
    {
        if self.next_due().is_some() {
            Some(Offer::Next)
        } else if !self.has_swept() && over {
            Some(Offer::Sweep)
        } else if through && !self.has_swept() {
            self.collect_offer()
        } else {
            None
        }
    }

    /// The registers and pins.
    pub fn chip(&self) -> &IoApic
        ensures { result.now ≡ self.now.chip }
    {
        &self.chip
    }
}
