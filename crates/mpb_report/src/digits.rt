//! Hexadecimal digits in one piece: of a byte, and of a mask of pins.

ghost use Rattle.std.specs.Prelude.{◌≡◌, ◌%◌, ◌++◌, OnOk};
ghost use Rattle.mpt_listing.specs.Listing.{hex, hex_digit};

use std::alloc::AllocError;

/// The lowest digit.
pub(crate) fn digit(number: u64) -> u8
    ensures { result ≡ hex_digit (number % 16) }
{
    let value = (number % 16) as u8;
    if value < 10 {
        b'0' + value
    } else {
        b'A' + (value - 10)
    }
}

/// Writes the lowest two digits.
#[tactic(auto, using(crate::proofs::DigitLemmas::two_digits))]
pub(crate) fn push_two(out: &mut Vec<u8>, number: u64) -> Result<(), AllocError>
    ensures { OnOk result (out.new.items ≡ out.old.items ++ hex 2 number) }
{
    out.extend_from_slice(&[digit(number / 16), digit(number)])
}

/// Writes the lowest six digits.
#[tactic(auto, using(crate::proofs::DigitLemmas::six_digits))]
pub(crate) fn push_six(out: &mut Vec<u8>, number: u64) -> Result<(), AllocError>
    ensures { OnOk result (out.new.items ≡ out.old.items ++ hex 6 number) }
{
    out.extend_from_slice(&[
        digit(number / 0x10_0000),
        digit(number / 0x1_0000),
        digit(number / 0x1000),
        digit(number / 0x100),
        digit(number / 0x10),
        digit(number),
    ])
}
