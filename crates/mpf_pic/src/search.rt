//! The pin of an I/O APIC, or the local interrupt, by which INTR reaches the boot processor.

ghost use Rattle.std.specs.Prelude.{◌≡◌, ◌<◌, find, slice_get};
ghost use Rattle.std.specs.List.{list_any, range_with_len};
ghost use Rattle.mpb_board.specs.BoardView.{state_of};
ghost use Rattle.mpf_pic.specs.Wiring.{is_local_extint, sends_extint, is_extint_pin, is_extint_at, all_pins};

use mpb_board::Board;
use mpb_ioapic::IoApic;
use mpb_spec::{ENTRY_TO_ALL, PINS};
use mpt_spec::{ALL_APICS, IntEntry};

// ExtINT, as the kind of an interrupt in the tables (MultiProcessor Specification 1.4, section 4.3.5)
const EXTINT_KIND: u8 = 3;

// ExtINT, as the delivery mode of an entry of an I/O APIC (82093AA datasheet, section 3.2.4)
const EXTINT_MODE: u32 = 7;

/// Whether a local interrupt is an ExtINT at LINTIN 0, to this processor or to all.
pub(crate) fn has_local_extint(lints: &[IntEntry], boot: u8) -> bool
    ensures { result ≡ list_any (is_local_extint boot) lints.now }
{
    lints.iter().any(|e| e.kind == EXTINT_KIND
        && e.pin == 0
        && (e.dest == boot || e.dest == ALL_APICS))
}

// Whether an entry of these halves sends ExtINT to this processor.
fn sends_extint(low: u32, high: u32, boot: u8) -> bool
    ensures { result ≡ sends_extint boot low high }
{
    let dest = high / 16_777_216 % 16;
    low / 256 % 8 == EXTINT_MODE
        && low / 65_536 % 2 != 1
        && low / 2048 % 2 != 1
        && (dest == u32::from(boot) || dest == u32::from(ENTRY_TO_ALL))
}

// The least pin of an I/O APIC that sends ExtINT to this processor.
fn extint_pin_of(chip: &IoApic, boot: u8) -> Option<u8>
    ensures { result ≡ find (λ n. is_extint_pin boot (slice_get chip.now.pins n)) (range_with_len 0 24) }
{
    (0..PINS).find(|pin| is_extint_pin(chip, *pin, boot))
}

// Whether a pin sends ExtINT to this processor.
fn is_extint_pin(chip: &IoApic, pin: u8, boot: u8) -> bool
    requires { pin < 24 }
    ensures { result ≡ is_extint_pin boot (slice_get chip.now.pins pin) }
{
    sends_extint(chip.low(pin), chip.high(pin), boot)
}

/// The pin that sends ExtINT to this processor, with its place: of the least place, and there the least
/// pin.
pub(crate) fn extint_pin(board: &Board, boot: u8) -> Option<(u8, u8)>
    ensures { result ≡ find (is_extint_at boot (state_of board.now)) (all_pins (state_of board.now)) }
{
    let count = board.config().ios.len();
    for place in 0..count {
        if let Some(pin) = extint_pin_at(board, place as u8, boot) {
            return Some((place as u8, pin));
        }
    }
    None
}

// The least pin of the I/O APIC at a place.
fn extint_pin_at(board: &Board, place: u8, boot: u8) -> Option<u8>
    ensures { result ≡ find (λ n. is_extint_at boot (state_of board.now) (place, n)) (range_with_len 0 24) }
{
    match board.io(place) {
        Some(chip) => extint_pin_of(chip, boot),
        None => None,
    }
}
