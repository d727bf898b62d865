//! The parts of a line that are several bytes.

ghost use Rattle.std.specs.Prelude.{◌≡◌, length};
ghost use Rattle.mpt_line.specs.Reading.{Gives, many_in, hex_in, quoted_byte_in, quoted_in, bytes_field_in, quoted_field_in};

use crate::fields::{read_byte, read_part, read_quoted_byte};

// Fills the bytes with those of two digits each, and gives what follows
fn fill_hex<'a>(bytes: &mut [u8], line: &'a [u8]) -> Option<&'a [u8]>
    ensures { Gives (λ rest. (bytes.new, rest.now)) result (many_in (hex_in 2) (length bytes.old) line.now) }
{
    let mut rest = line;
    for i in 0..bytes.len() {
        let Some((value, after)) = read_byte(rest) else {
            return None;
        };
        bytes[i] = value;
        rest = after;
    }
    Some(rest)
}

// Fills the bytes with those that stand in quotes, without the quotes
fn fill_plain<'a>(bytes: &mut [u8], line: &'a [u8]) -> Option<&'a [u8]>
    ensures { Gives (λ rest. (bytes.new, rest.now)) result (many_in quoted_byte_in (length bytes.old) line.now) }
{
    let mut rest = line;
    for i in 0..bytes.len() {
        let Some((value, after)) = read_quoted_byte(rest) else {
            return None;
        };
        bytes[i] = value;
        rest = after;
    }
    Some(rest)
}

// Fills the bytes with those in quotes
#[tactic(auto, unfolding(crate::specs::Reading::quoted_in))]
fn fill_quoted<'a>(bytes: &mut [u8], line: &'a [u8]) -> Option<&'a [u8]>
    ensures { Gives (λ rest. (bytes.new, rest.now)) result (quoted_in (length bytes.old) line.now) }
{
    let Some(rest) = read_part(line, b"\"") else {
        return None;
    };
    let Some(rest) = fill_plain(bytes, rest) else {
        return None;
    };
    read_part(rest, b"\"")
}

/// Fills the bytes with those of two digits each behind a text.
#[tactic(auto, unfolding(crate::specs::Reading::bytes_field_in))]
pub(crate) fn read_bytes_field<'a>(
    bytes: &mut [u8],
    line: &'a [u8],
    text: &[u8],
) -> Option<&'a [u8]>
    ensures { Gives (λ rest. (bytes.new, rest.now)) result (bytes_field_in text.now (length bytes.old) line.now) }
{
    let Some(rest) = read_part(line, text) else {
        return None;
    };
    fill_hex(bytes, rest)
}

/// Fills the bytes with those in quotes behind a text.
#[tactic(auto, unfolding(crate::specs::Reading::quoted_field_in))]
pub(crate) fn read_quoted_field<'a>(
    bytes: &mut [u8],
    line: &'a [u8],
    text: &[u8],
) -> Option<&'a [u8]>
    ensures { Gives (λ rest. (bytes.new, rest.now)) result (quoted_field_in text.now (length bytes.old) line.now) }
{
    let Some(rest) = read_part(line, text) else {
        return None;
    };
    fill_quoted(bytes, rest)
}
