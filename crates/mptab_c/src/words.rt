//! Words as the top call takes them.

ghost use Rattle.std.specs.Prelude.{◌≡◌, IfOk, IsUtf8, map, decimal, string_bytes};
ghost use Rattle.mpt_listing.specs.Listing.{hex};
ghost use Rattle.mptab_walk.specs.Walk.{texts_of};

use mpt_base::NoMemory;
use mpt_listing::{push_decimal, push_hex};
use std::alloc::Global;

/// These words, each in memory of its own.
pub(crate) fn owned(alloc: Global, words: &[&str]) -> Result<Vec<String>, NoMemory>
    ensures { IfOk result (λ all. texts_of all.items ≡ map (λ word. word.now) words.now) }
{
    let mut all = Vec::new(alloc);
    for word in words {
        let Ok(text) = String::from_str(alloc, word) else {
            return Err(NoMemory);
        };
        let Ok(()) = all.push(text) else {
            return Err(NoMemory);
        };
    }
    Ok(all)
}

/// The word of the ELCR: four hexadecimal digits.
pub(crate) fn elcr_word(alloc: Global, elcr: u16) -> Result<String, NoMemory>
    ensures { IfOk result (λ word. string_bytes word ≡ hex 4 elcr) }
{
    let mut digits = Vec::new(alloc);
    match push_hex(&mut digits, 4, elcr as u64) {
        Ok(()) => Ok(text_of(digits)),
        Err(_) => Err(NoMemory),
    }
}

/// The word of a number in decimal.
pub(crate) fn decimal_word(alloc: Global, number: u16) -> Result<String, NoMemory>
    ensures { IfOk result (λ word. string_bytes word ≡ decimal number) }
{
    let mut digits = Vec::new(alloc);
    match push_decimal(&mut digits, number as u64) {
        Ok(()) => Ok(text_of(digits)),
        Err(_) => Err(NoMemory),
    }
}

// The text of these bytes.
fn text_of(bytes: Vec<u8>) -> String
    requires { IsUtf8 bytes.items }
    ensures { string_bytes result ≡ bytes.items }
{
    match String::from_utf8(bytes) {
        Ok(text) => text,
        Err(_) => unreachable!(),
    }
}
