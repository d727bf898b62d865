//! The ELCR as a word of the command line: four hexadecimal digits of either case.

ghost use Rattle.std.specs.Prelude.{◌≡◌, IfSome, ◌<◌};
ghost use Rattle.mpt_answers.specs.Elcr.{digit_of, joined, elcr_of};

/// The ELCR that a word spells: bit n is IRQ n. `None` exactly where the word isn't four hexadecimal
/// digits, of either case.
pub fn read_elcr(word: &str) -> Option<u16>
    ensures { result ≡ elcr_of word.now }
{
    four_digits(word.as_bytes())
}

fn four_digits(word: &[u8]) -> Option<u16>
    ensures { result ≡ elcr_of word.now }
{
    match *word {
        [a, b, c, d] => joined(digit(a), digit(b), digit(c), digit(d)),
        _ => None,
    }
}

// the number of four digits, the highest first
fn joined(a: Option<u16>, b: Option<u16>, c: Option<u16>, d: Option<u16>) -> Option<u16>
    requires a { IfSome a (λ n. n < 16) }
    requires b { IfSome b (λ n. n < 16) }
    requires c { IfSome c (λ n. n < 16) }
    requires d { IfSome d (λ n. n < 16) }
    ensures { result ≡ joined a b c d }
{
    let Some(a) = a else {
        return None;
    };
    let Some(b) = b else {
        return None;
    };
    let Some(c) = c else {
        return None;
    };
    let Some(d) = d else {
        return None;
    };
    Some(4096 * a + 256 * b + 16 * c + d)
}

// the value of a digit
fn digit(byte: u8) -> Option<u16>
    ensures value { result ≡ digit_of byte }
    ensures below { IfSome result (λ n. n < 16) }
{
    match byte {
        b'0'..=b'9' => Some(u16::from(byte - b'0')),
        b'A'..=b'F' => Some(u16::from(byte - b'A' + 10)),
        b'a'..=b'f' => Some(u16::from(byte - b'a' + 10)),
        _ => None,
    }
}
