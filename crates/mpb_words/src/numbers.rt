//! The numbers of a word.

ghost use Rattle.std.specs.Prelude.{◌≡◌, ◌≤◌, ◌∷◌, [], IfOk, option_copied, option_map, length, slice_index};
ghost use Rattle.mpb_words.specs.Words.{parts_of};
ghost use Rattle.mpb_words.specs.Numbers.{digits_number, number_of, numbers_of};
ghost use Rattle.mpb_words.specs.Steps.{held, parts_behind, number_up_to, both};

use crate::cut::cut;
use crate::refusal::WordWhy;

// the number that digits write, held at the end of u64; none, where there is no digit or another byte
fn digits(bytes: &[u8], radix: u32) -> Option<u64>
    requires from { 2 ≤ radix }
    requires to { radix ≤ 16 }
    ensures { result ≡ option_map held (digits_number radix bytes.now) }
{
    if bytes.is_empty() {
        return None;
    }
    let mut value: u64 = 0;
    for byte in bytes {
        let digit = match char::from(*byte).to_digit(radix) {
            Some(digit) => digit,
            None => return None,
        };
        value = value
            .saturating_mul(u64::from(radix))
            .saturating_add(u64::from(digit));
    }
    Some(value)
}

// a number: decimal without leading zeros, or `0x` and one to eight hexadecimal digits
fn number(part: &[u8]) -> Option<u64>
    ensures { result ≡ option_map held (number_of part.now) }
{
    if part.len() >= 2 && part[0] == b'0' && part[1] == b'x' {
        if part.len() <= 10 {
            digits(&part[2..], 16)
        } else {
            None
        }
    } else if part.len() >= 2 && part[0] == b'0' {
        None
    } else {
        digits(part, 10)
    }
}

// the number of a part, if it is at most `most`
fn number_up_to(part: &str, most: u32) -> Result<u32, WordWhy>
    ensures value { result ≡ number_up_to most (number_of part.now) }
    ensures limit { IfOk result (λ n. n ≤ most) }
{
    match number(part.as_bytes()) {
        Some(n) => {
            if n <= u64::from(most) {
                Ok(n as u32)
            } else {
                Err(WordWhy::Range)
            }
        }
        None => Err(WordWhy::Number),
    }
}

// the numbers behind a word's name, where its places have these greatest values, 0 past their end; or why they aren't
pub(crate) fn numbers(rest: Option<&str>, limits: &[u32]) -> Result<(u32, u32), WordWhy>
    requires { length limits.now ≤ 2 }
    ensures value { result ≡ numbers_of limits.now (parts_behind (option_copied rest.entry)) }
    ensures limit { IfOk result (λ p. (p.0 ≤ slice_index limits.now 0) × (p.1 ≤ slice_index limits.now 1)) }
{
    match rest {
        Some(rest) => match *limits {
            [most] => one_number(rest, most),
            [first, second] => two_numbers(rest, first, second),
            _ => Err(WordWhy::Count),
        },
        None => {
            if limits.is_empty() {
                Ok((0, 0))
            } else {
                Err(WordWhy::Count)
            }
        }
    }
}

// the one number of a text, up to its greatest value, and 0
fn one_number(text: &str, most: u32) -> Result<(u32, u32), WordWhy>
    ensures value { result ≡ numbers_of (most ∷ []) (parts_of text.now) }
    ensures limit { IfOk result (λ p. (p.0 ≤ most) × (p.1 ≡ 0)) }
{
    match cut(text) {
        (part, None) => both(number_up_to(part, most), Ok(0)),
        (_, Some(_)) => Err(WordWhy::Count),
    }
}

// the two numbers of a text, up to their greatest values
fn two_numbers(text: &str, first: u32, second: u32) -> Result<(u32, u32), WordWhy>
    ensures value { result ≡ numbers_of (first ∷ second ∷ []) (parts_of text.now) }
    ensures limit { IfOk result (λ p. (p.0 ≤ first) × (p.1 ≤ second)) }
{
    let (one, rest) = cut(text);
    let Some(rest) = rest else {
        return Err(WordWhy::Count);
    };
    match cut(rest) {
        (other, None) => both(number_up_to(one, first), number_up_to(other, second)),
        (_, Some(_)) => Err(WordWhy::Count),
    }
}

// two numbers, or the first cause why they aren't
fn both(first: Result<u32, WordWhy>, second: Result<u32, WordWhy>) -> Result<(u32, u32), WordWhy>
    ensures { result ≡ both first second }
{
    match (first, second) {
        (Ok(a), Ok(b)) => Ok((a, b)),
        (Err(WordWhy::Number), _) => Err(WordWhy::Number),
        (_, Err(WordWhy::Number)) => Err(WordWhy::Number),
        (Err(why), _) => Err(why),
        (_, Err(why)) => Err(why),
    }
}
