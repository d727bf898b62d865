//! The three rows of bits over the pins, kept in one set of numbers.

ghost use Rattle.std.specs.Prelude.{◌≡◌, ◌<◌, if◌then◌else◌};
ghost use Rattle.mpb_spec.specs.Numbers.{has, with_number, without};
ghost use Rattle.mpb_ioapic.specs.Signs.{place_of};

use mpb_bits::Rows;

/// What a row of bits tells of each pin.
#[derive(Clone, Copy)]
pub enum Sign {
    /// The line is asserted.
    Line,
    /// A message is due.
    Due,
    /// Remote IRR is set.
    Remote,
}

/// Where the rows have a pin's bit.
pub fn place_of(sign: Sign, pin: usize) -> u32
    requires { pin < 32 }
    ensures { result ≡ place_of sign pin }
{
    let pin = pin as u32;
    match sign {
        Sign::Line => pin,
        Sign::Due => 32 + pin,
        Sign::Remote => 64 + pin,
    }
}

/// Whether a pin has a sign.
pub fn has_sign(rows: &Rows<2>, sign: Sign, pin: usize) -> bool
    requires { pin < 32 }
    ensures { result ≡ has (place_of sign pin) rows.now }
{
    rows.has(place_of(sign, pin))
}

/// Gives a pin a sign, or takes it.
pub fn put_sign(rows: &mut Rows<2>, sign: Sign, pin: usize, on: bool)
    requires { pin < 32 }
    ensures { rows.new ≡ if on then with_number (place_of sign pin) rows.old else without (place_of sign pin) rows.old }
{
    let place = place_of(sign, pin);
    if on {
        rows.put(place);
    } else {
        rows.take(place);
    }
}
