//! Counts of collected pins.

ghost use Rattle.std.specs.Prelude.{◌≡◌, ◌<◌, ◌^◌, ◌+◌, ℕ, length, slice_index};
ghost use Rattle.std.specs.Int.{bit_at};
ghost use Rattle.mpb_spec.specs.Pulses.{with_pins};

use mpb_spec::PINS;

/// Counts these pins of an I/O APIC, bit n for pin n, as collected once more. There are 24 counts.
pub fn add_pins(counts: &mut [u32], pins: u32)
    requires wide { length counts.old ≡ 24 }
    requires low { (pin : ℕ) → pin < 24 → slice_index counts.old pin + bit_at pins pin < 2 ^ 32 }
    ensures { counts.new ≡ with_pins pins counts.old }
{
    for pin in 0..usize::from(PINS) {
        counts[pin] += pins >> pin & 1;
    }
}
