//! Rules of the words of devices.

ghost use Rattle.std.specs.Prelude.{◌≡◌, map};
ghost use Rattle.std.specs.List.{list_all};
ghost use Rattle.mpb_config.specs.ConfigTests.{is_word_on};

use mpb_spec::{DevWord, PINS};

// whether the word names a pin of the first `ios` I/O APICs
fn is_on(word: DevWord, ios: usize) -> bool
    ensures { result ≡ is_word_on ios word }
{
    match word {
        DevWord::Pulse(at, pin) => usize::from(at) < ios && pin < PINS,
        DevWord::High(at, pin) => usize::from(at) < ios && pin < PINS,
        DevWord::Low(at, pin) => usize::from(at) < ios && pin < PINS,
    }
}

// whether each word of a device does
fn are_on(words: &[DevWord], ios: usize) -> bool
    ensures { result ≡ list_all (is_word_on ios) words.now }
{
    for word in words {
        if !is_on(*word, ios) {
            return false;
        }
    }
    true
}

/// Whether each word of each device names a pin of the first `ios` I/O APICs.
pub fn all_are_on(devices: &[Vec<DevWord>], ios: usize) -> bool
    ensures { result ≡ list_all (λ words. list_all (is_word_on ios) words) (map (λ words. words.items) devices.now) }
{
    match devices {
        [] => true,
        [words, rest @ ..] => are_on(words.as_slice(), ios) && all_are_on(rest, ios),
    }
}
