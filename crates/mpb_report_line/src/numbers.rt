//! Decimal numbers, each read from the left.

ghost use Rattle.std.specs.Prelude.{◌≡◌, ◌≢◌, ◌<◌, ◌≤◌, ◌^◌, ◌++◌, ℕ, List, codes, decimal, min, IfSome, IfNone, slice_index, length, false, [], ◌∷◌};
ghost use Rattle.mpt_line.specs.Reading.{Gives, text_in};
ghost use Rattle.mpb_report_line.specs.Lines.{entry_count_line};
ghost use Rattle.mpb_report_line.specs.Reading.{is_decimal_digit, decimal_digit_in, more_digits, held, held_in, up_to_in, number_in, place_in};
ghost use Rattle.mpb_report_line.specs.Forms.{entry_count_in};

use mpb_spec::PINS;
use mpt_line::{read_end, read_part};

// the last pin of an I/O APIC
const LAST_PIN: u32 = PINS as u32 - 1;

/// How many entries the line says that begins the text, held at the end of u64, and what follows the
/// line; `None` exactly where the text begins with no such line.
pub fn read_entry_count_line(text: &[u8]) -> Option<(u64, &[u8])>
    ensures some { IfSome result (λ x. (n : ℕ) × (x.0 ≡ min n 18446744073709551615)
        × (text.now ≡ entry_count_line n ++ x.1.now)) }
    ensures none { IfNone result ((n : ℕ) (rest : List ℕ) → text.now ≢ entry_count_line n ++ rest) }
{
    read_entry_count(text)
}

#[tactic(auto, unfolding(crate::specs::Forms::entry_count_in))]
fn read_entry_count(line: &[u8]) -> Option<(u64, &[u8])>
    ensures { Gives (λ x. (x.0, x.1.now)) result (entry_count_in line.now) }
{
    let Some(rest) = read_part(line, b"entries ") else {
        return None;
    };
    let Some((number, rest)) = read_decimal(rest) else {
        return None;
    };
    let Some(rest) = read_end(rest) else {
        return None;
    };
    Some((number, rest))
}

// The value of a first digit.
#[tactic(auto, unfolding(crate::specs::Reading::decimal_digit_in))]
fn read_decimal_digit(line: &[u8]) -> Option<(u8, &[u8])>
    ensures value { Gives (λ x. (x.0, x.1.now)) result (decimal_digit_in line.now) }
    ensures bound { IfSome result (λ x. x.0 < 10) }
{
    let Some((first, rest)) = line.split_first() else {
        return None;
    };
    match *first {
        b'0'..=b'9' => Some((*first - b'0', rest)),
        _ => None,
    }
}

// The number that a value becomes by all digits that follow, held at the end of u64.
fn read_more_digits(value: u64, line: &[u8]) -> (u64, &[u8])
    ensures { (result.0, result.1.now) ≡ held (more_digits value line.now) }
{
    let mut value = value;
    let mut rest = line;
    while let Some((digit, after)) = read_decimal_digit(rest) {
        value = value.saturating_mul(10).saturating_add(u64::from(digit));
        rest = after;
    }
    (value, rest)
}

// A number without leading zeros, held at the end of u64.
#[tactic(auto, unfolding(crate::specs::Reading::numeral_in))]
fn read_decimal(line: &[u8]) -> Option<(u64, &[u8])>
    ensures { Gives (λ x. (x.0, x.1.now)) result (held_in line.now) }
{
    let Some((first, rest)) = line.split_first() else {
        return None;
    };
    match *first {
        b'0' => Some((0, rest)),
        b'1'..=b'9' => {
            let (value, rest) = read_more_digits(u64::from(*first - b'0'), rest);
            Some((value, rest))
        }
        _ => None,
    }
}

/// A number up to a greatest one, and then a text.
pub(crate) fn read_up_to<'a>(line: &'a [u8], most: u32, stop: &[u8]) -> Option<(u32, &'a [u8])>
    ensures value { Gives (λ x. (x.0, x.1.now)) result (up_to_in most stop.now line.now) }
    ensures bound { IfSome result (λ x. x.0 ≤ most) }
{
    let Some((number, rest)) = read_decimal(line) else {
        return None;
    };
    let Some(rest) = read_part(rest, stop) else {
        return None;
    };
    if number <= u64::from(most) {
        Some((number as u32, rest))
    } else {
        None
    }
}

/// A pin, below 24, and then a text.
pub(crate) fn read_pin<'a>(line: &'a [u8], stop: &[u8]) -> Option<(u8, &'a [u8])>
    ensures { Gives (λ x. (x.0, x.1.now)) result (up_to_in 23 stop.now line.now) }
{
    let Some((pin, rest)) = read_up_to(line, LAST_PIN, stop) else {
        return None;
    };
    Some((pin as u8, rest))
}

/// What follows a number and a text that begins with no digit.
pub(crate) fn read_number<'a>(line: &'a [u8], number: u32, stop: &[u8]) -> Option<&'a [u8]>
    requires some { 0 < length stop.now }
    requires no_digit { is_decimal_digit (slice_index stop.now 0) ≡ false }
    ensures { Gives (λ rest. rest.now) result (text_in (decimal number ++ stop.now) line.now) }
{
    read_number_found(line, number, stop)
}

#[tactic(auto, unfolding(crate::specs::Reading::number_in))]
fn read_number_found<'a>(line: &'a [u8], number: u32, stop: &[u8]) -> Option<&'a [u8]>
    ensures { Gives (λ rest. rest.now) result (number_in number stop.now line.now) }
{
    let Some((found, rest)) = read_up_to(line, number, stop) else {
        return None;
    };
    if found == number { Some(rest) } else { None }
}

/// One of four places.
#[tactic(auto, unfolding(crate::specs::Reading::place_in))]
pub(crate) fn read_place(line: &[u8]) -> Option<(u8, &[u8])>
    ensures { Gives (λ x. (x.0, x.1.now)) result (place_in line.now) }
{
    let Some((first, rest)) = line.split_first() else {
        return None;
    };
    match *first {
        b'0'..=b'3' => Some((*first - b'0', rest)),
        _ => None,
    }
}
