//! The number of a drill, as a word.

ghost use Rattle.std.specs.Prelude.{◌≡◌, ◌<◌, ℕ, decimal, MatchOption, bytes_eq};

use itoa::Buffer;

/// The number below 10,000 that the word spells: in decimal, without leading zeros.
pub(crate) fn drill_number(word: &str) -> Option<u16>
    ensures { MatchOption result ((n : ℕ) → n < 10000 → ¬ (word.now ≡ decimal n))
        (λ n. (n < 10000) × (word.now ≡ decimal n)) }
{
    match word.parse::<u16>() {
        Ok(n) if n < 10000 && spells(word, n) => Some(n),
        _ => None,
    }
}

// whether the word is the number in decimal
fn spells(word: &str, n: u16) -> bool
    ensures { result ≡ bytes_eq word.now (decimal n) }
{
    let mut buffer = Buffer::new();
    word == buffer.format(n)
}
