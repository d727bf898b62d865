//! The parts of a line, each read from the left: texts, digits, numbers and bytes in quotes. The byte of
//! two digits is read by the crate `hex`.

ghost use Rattle.std.specs.Prelude.{◌≡◌, ◌≢◌, ◌≤◌, ◌<◌, ◌^◌, ◌++◌, ◌∷◌, [], ℕ, List, IfSome, IfNone};
ghost use Rattle.mpt_listing.specs.Listing.{is_plain_byte};
ghost use Rattle.mpt_line.specs.Reading.{Gives, text_in, digit_of, digit_in, hex_in, byte_of, pair_in, is_lower_case, escaped_in, quoted_byte_in, field_in};

use hex::decode_to_slice;

/// What follows a text, `None` exactly where the line doesn't begin with it.
pub fn read_text<'a>(line: &'a [u8], text: &[u8]) -> Option<&'a [u8]>
    ensures some { IfSome result (λ rest. line.now ≡ text.now ++ rest.now) }
    ensures none { IfNone result ((rest : List ℕ) → line.now ≢ text.now ++ rest) }
{
    read_part(line, text)
}

/// What follows a text.
#[tactic(auto, unfolding(crate::specs::Reading::text_in))]
pub fn read_part<'a>(line: &'a [u8], text: &[u8]) -> Option<&'a [u8]>
    ensures { Gives (λ rest. rest.now) result (text_in text.now line.now) }
{
    line.strip_prefix(text)
}

// What an upper case digit stands for.
fn digit_of(digit: u8) -> Option<u8>
    ensures { result ≡ digit_of digit }
{
    match digit {
        b'0'..=b'9' => Some(digit - b'0'),
        b'A'..=b'F' => Some(digit - b'A' + 10),
        _ => None,
    }
}

// The value of a first digit.
#[tactic(auto, unfolding(crate::specs::Reading::digit_in))]
fn read_digit(line: &[u8]) -> Option<(u8, &[u8])>
    ensures value { Gives (λ x. (x.0, x.1.now)) result (digit_in line.now) }
    ensures bound { IfSome result (λ x. x.0 < 16) }
{
    let Some((first, rest)) = line.split_first() else {
        return None;
    };
    let Some(digit) = digit_of(*first) else {
        return None;
    };
    Some((digit, rest))
}

// The number of this many digits.
#[tactic(auto, unfolding(crate::specs::Reading::hex_in))]
fn read_hex(line: &[u8], digits: u32) -> Option<(u64, &[u8])>
    requires { digits ≤ 16 }
    ensures value { Gives (λ x. (x.0, x.1.now)) result (hex_in digits line.now) }
    ensures bound { IfSome result (λ x. x.0 < 16 ^ digits) }
{
    if digits == 0 {
        return Some((0, line));
    }
    let Some((high, rest)) = read_hex(line, digits - 1) else {
        return None;
    };
    let Some((low, rest)) = read_digit(rest) else {
        return None;
    };
    Some((16 * high + u64::from(low), rest))
}

/// A byte of two digits.
#[tactic(auto, using(crate::proofs::PairLemmas::hex_in_pair))]
pub fn read_byte(line: &[u8]) -> Option<(u8, &[u8])>
    ensures { Gives (λ x. (x.0, x.1.now)) result (hex_in 2 line.now) }
{
    read_pair(line)
}

// The byte of two first digits.
#[tactic(auto, unfolding(crate::specs::Reading::pair_in))]
fn read_pair(line: &[u8]) -> Option<(u8, &[u8])>
    ensures { Gives (λ x. (x.0, x.1.now)) result (pair_in line.now) }
{
    let Some((high, rest)) = line.split_first() else {
        return None;
    };
    let Some((low, rest)) = rest.split_first() else {
        return None;
    };
    let Some(byte) = byte_of(*high, *low) else {
        return None;
    };
    Some((byte, rest))
}

// The byte of two upper case digits: `hex` takes lower case ones too.
fn byte_of(high: u8, low: u8) -> Option<u8>
    ensures { result ≡ byte_of high low }
{
    if is_lower_case(high) || is_lower_case(low) {
        return None;
    }
    let mut byte = [0];
    match decode_to_slice([high, low], &mut byte) {
        Ok(()) => Some(byte[0]),
        Err(_) => None,
    }
}

// Whether a byte is a lower case letter.
fn is_lower_case(byte: u8) -> bool
    ensures { result ≡ is_lower_case byte }
{
    byte.is_ascii_lowercase()
}

/// The line feed, and what follows it.
pub fn read_end(line: &[u8]) -> Option<&[u8]>
    ensures { Gives (λ rest. rest.now) result (text_in (10 ∷ []) line.now) }
{
    read_part(line, b"\n")
}

/// A number of this many digits behind a text.
#[tactic(auto, unfolding(crate::specs::Reading::field_in))]
pub fn read_field<'a>(line: &'a [u8], text: &[u8], digits: u32) -> Option<(u64, &'a [u8])>
    requires { digits ≤ 16 }
    ensures value { Gives (λ x. (x.0, x.1.now)) result (field_in text.now digits line.now) }
    ensures bound { IfSome result (λ x. x.0 < 16 ^ digits) }
{
    let Some(rest) = read_part(line, text) else {
        return None;
    };
    read_hex(rest, digits)
}

/// A byte behind a text.
pub fn read_u8_field<'a>(line: &'a [u8], text: &[u8]) -> Option<(u8, &'a [u8])>
    ensures { Gives (λ x. (x.0, x.1.now)) result (field_in text.now 2 line.now) }
{
    let Some((number, rest)) = read_field(line, text, 2) else {
        return None;
    };
    Some((number as u8, rest))
}

/// A number of 16 bits behind a text.
pub(crate) fn read_u16_field<'a>(line: &'a [u8], text: &[u8]) -> Option<(u16, &'a [u8])>
    ensures { Gives (λ x. (x.0, x.1.now)) result (field_in text.now 4 line.now) }
{
    let Some((number, rest)) = read_field(line, text, 4) else {
        return None;
    };
    Some((number as u16, rest))
}

/// A number of 32 bits behind a text.
pub fn read_u32_field<'a>(line: &'a [u8], text: &[u8]) -> Option<(u32, &'a [u8])>
    ensures { Gives (λ x. (x.0, x.1.now)) result (field_in text.now 8 line.now) }
{
    let Some((number, rest)) = read_field(line, text, 8) else {
        return None;
    };
    Some((number as u32, rest))
}

/// A byte in quotes.
#[tactic(auto, unfolding(crate::specs::Reading::quoted_byte_in))]
pub(crate) fn read_quoted_byte(line: &[u8]) -> Option<(u8, &[u8])>
    ensures { Gives (λ x. (x.0, x.1.now)) result (quoted_byte_in line.now) }
{
    let Some((first, rest)) = line.split_first() else {
        return None;
    };
    if is_plain(*first) {
        Some((*first, rest))
    } else {
        read_escaped(line)
    }
}

// A byte in quotes that isn't plain: a plain one is never escaped.
#[tactic(auto, unfolding(crate::specs::Reading::escaped_in))]
fn read_escaped(line: &[u8]) -> Option<(u8, &[u8])>
    ensures { Gives (λ x. (x.0, x.1.now)) result (escaped_in line.now) }
{
    let Some(rest) = read_part(line, b"\\x") else {
        return None;
    };
    let Some((byte, rest)) = read_byte(rest) else {
        return None;
    };
    if is_plain(byte) {
        None
    } else {
        Some((byte, rest))
    }
}

// Whether a byte stands for itself in quotes.
fn is_plain(byte: u8) -> bool
    ensures { result ≡ is_plain_byte byte }
{
    matches!(byte, 0x20..=0x7E) && byte != b'"' && byte != b'\\'
}
