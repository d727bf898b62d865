//! The parts of a line, each read from the left: texts, digits and bytes.

ghost use Rattle.std.specs.Prelude.{◌≡◌, ◌<◌, IfSome};
ghost use Rattle.mpt_line.specs.Reading.{Gives, text_in, digit_of, digit_in};
ghost use Rattle.mpf_pic_lines.specs.Forms.{byte_in};

/// What follows a text.
#[tactic(auto, unfolding(mpt_line::specs::Reading::text_in))]
pub(crate) fn read_part<'a>(line: &'a [u8], text: &[u8]) -> Option<&'a [u8]>
    ensures { Gives (λ rest. rest.now) result (text_in text.now line.now) }
{
    line.strip_prefix(text)
}

// What an upper case digit stands for.
fn digit_of(digit: u8) -> Option<u8>
    ensures { result ≡ digit_of digit }
{
    match digit {
        b'0'..=b'9' => Some(digit - b'0'),
        b'A'..=b'F' => Some(digit - b'A' + 10),
        _ => None,
    }
}

/// The value of a first digit.
#[tactic(auto, unfolding(mpt_line::specs::Reading::digit_in))]
pub(crate) fn read_digit(line: &[u8]) -> Option<(u8, &[u8])>
    ensures value { Gives (λ x. (x.0, x.1.now)) result (digit_in line.now) }
    ensures bound { IfSome result (λ x. x.0 < 16) }
{
    let Some((first, rest)) = line.split_first() else {
        return None;
    };
    let Some(digit) = digit_of(*first) else {
        return None;
    };
    Some((digit, rest))
}

/// A byte of two digits.
#[tactic(auto, unfolding(crate::specs::Forms::byte_in))]
pub(crate) fn read_byte(line: &[u8]) -> Option<(u8, &[u8])>
    ensures { Gives (λ x. (x.0, x.1.now)) result (byte_in line.now) }
{
    let Some((high, rest)) = read_digit(line) else {
        return None;
    };
    let Some((low, rest)) = read_digit(rest) else {
        return None;
    };
    Some((16 * high + low, rest))
}
