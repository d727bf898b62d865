//! What every line is made of: plain text, numbers in upper case hexadecimal, and bytes in quotes.
//!
//! Each function writes at the end of a text. It fails only where memory runs out, and may then have
//! written a part. Bytes are written by the crate `hex`.

ghost use Rattle.std.specs.Prelude.{◌≡◌, ◌<◌, ◌++◌, ◌∷◌, [], decimal, map, OnOk};
ghost use Rattle.mpt_listing.specs.Listing.{line, hex_digit, hex, hex_bytes, is_plain_byte, quoted_byte, quoted};
ghost use Rattle.mpt_listing.specs.Part.{part_text};

use hex::encode_upper;
use itoa::Buffer;
use std::alloc::AllocError;

/// A part of a line.
#[derive(Clone, Copy)]
pub enum Part<'a> {
    /// A text as it stands, with its spaces.
    Text(&'a [u8]),
    /// A number of this many digits, and the number.
    Hex(u32, u64),
    /// A number in decimal, without leading zeros.
    Decimal(u64),
    /// Two digits for each byte.
    HexBytes(&'a [u8]),
    /// Bytes in double quotes.
    Quoted(&'a [u8]),
}

/// Writes a line: its parts, then a line feed. After an error a first piece of it may be written.
pub fn push_line(out: &mut Vec<u8>, parts: &[Part]) -> Result<(), AllocError>
    ensures { OnOk result (out.new.items ≡ out.old.items ++ line (map part_text parts.now)) }
{
    for part in parts {
        let Ok(()) = push_part(out, part) else {
            return Err(AllocError);
        };
    }
    let Ok(()) = out.push(b'\n') else {
        return Err(AllocError);
    };
    Ok(())
}

/// Writes a part of a line. After an error a first piece of it may be written.
pub fn push_part(out: &mut Vec<u8>, part: &Part) -> Result<(), AllocError>
    ensures { OnOk result (out.new.items ≡ out.old.items ++ part_text part.now) }
{
    match *part {
        Part::Text(text) => push_text(out, text),
        Part::Hex(digits, number) => push_hex(out, digits, number),
        Part::Decimal(number) => push_decimal(out, number),
        Part::HexBytes(bytes) => push_hex_bytes(out, bytes),
        Part::Quoted(bytes) => push_quoted(out, bytes),
    }
}

/// Writes the text as it stands.
pub fn push_text(out: &mut Vec<u8>, text: &[u8]) -> Result<(), AllocError>
    ensures { OnOk result (out.new.items ≡ out.old.items ++ text.now) }
{
    out.extend_from_slice(text)
}

/// Writes the lowest digits of a number, the highest of them first.
#[tactic(auto, using(crate::proofs::TextLemmas::append_hex_none, crate::proofs::TextLemmas::hex_more, std::proofs::lemmas::List::append_assoc))]
pub fn push_hex(out: &mut Vec<u8>, digits: u32, number: u64) -> Result<(), AllocError>
    ensures { OnOk result (out.new.items ≡ out.old.items ++ hex digits number) }
{
    if digits == 0 {
        return Ok(());
    }
    let Ok(()) = push_hex(out, digits - 1, number / 16) else {
        return Err(AllocError);
    };
    let Ok(()) = out.push(hex_digit((number % 16) as u8)) else {
        return Err(AllocError);
    };
    Ok(())
}

fn hex_digit(value: u8) -> u8
    requires { value < 16 }
    ensures { result ≡ hex_digit value }
{
    if value < 10 {
        b'0' + value
    } else {
        b'A' + (value - 10)
    }
}

/// Writes a number in decimal, without leading zeros.
pub fn push_decimal(out: &mut Vec<u8>, number: u64) -> Result<(), AllocError>
    ensures { OnOk result (out.new.items ≡ out.old.items ++ decimal number) }
{
    let mut buffer = Buffer::new();
    out.extend_from_slice(buffer.format(number).as_bytes())
}

/// Writes two digits for each byte. It takes memory for these digits by themselves too.
pub fn push_hex_bytes(out: &mut Vec<u8>, bytes: &[u8]) -> Result<(), AllocError>
    ensures { OnOk result (out.new.items ≡ out.old.items ++ hex_bytes bytes.now) }
{
    let alloc = *out.allocator();
    let Ok(digits) = encode_upper(alloc, bytes) else {
        return Err(AllocError);
    };
    out.extend_from_slice(digits.as_bytes())
}

/// Writes bytes in double quotes, those that aren't plain as `\x` and two digits.
#[tactic(auto, unfolding(crate::specs::Listing::quoted))]
pub fn push_quoted(out: &mut Vec<u8>, bytes: &[u8]) -> Result<(), AllocError>
    ensures { OnOk result (out.new.items ≡ out.old.items ++ quoted bytes.now) }
{
    let Ok(()) = out.push(b'"') else {
        return Err(AllocError);
    };
    for byte in bytes {
        let Ok(()) = push_quoted_byte(out, *byte) else {
            return Err(AllocError);
        };
    }
    let Ok(()) = out.push(b'"') else {
        return Err(AllocError);
    };
    Ok(())
}

fn push_quoted_byte(out: &mut Vec<u8>, byte: u8) -> Result<(), AllocError>
    ensures { OnOk result (out.new.items ≡ out.old.items ++ quoted_byte byte) }
{
    if is_plain(byte) {
        let Ok(()) = out.push(byte) else {
            return Err(AllocError);
        };
        Ok(())
    } else {
        let Ok(()) = push_text(out, b"\\x") else {
            return Err(AllocError);
        };
        push_hex(out, 2, byte as u64)
    }
}

// Whether a byte stands for itself in quotes.
fn is_plain(byte: u8) -> bool
    ensures { result ≡ is_plain_byte byte }
{
    matches!(byte, 0x20..=0x7E) && byte != b'"' && byte != b'\\'
}
