//! The pins that are taken: for each I/O APIC's place and pin the low word of the first row there.

ghost use Rattle.std.specs.Prelude.{◌≡◌, ◌<◌};
ghost use Rattle.mpt_route.specs.Pins.{HasPins, low_at, NotesLow, answer_on};

use crate::route::{Answer, ROUTED_IO_APICS, Route, Why};
use mpt_spec::IO_APIC_PINS;

/// The low words by place and pin.
pub type Lows = [[Option<u32>; IO_APIC_PINS as usize]; ROUTED_IO_APICS];

// the answer to a row where a pin may be taken; a pin that isn't is taken then
pub fn settle(lows: &mut Lows, row: Route) -> Answer
    requires pins { HasPins lows.old }
    requires place { row.io < 4 }
    requires pin { row.pin < 24 }
    ensures pins { HasPins lows.new }
    ensures answer { result ≡ answer_on (low_at lows.old row.io row.pin) row }
    ensures noted { NotesLow lows.old lows.new row }
{
    let pins = &mut lows[usize::from(row.io)];
    match pins[usize::from(row.pin)] {
        None => {
            pins[usize::from(row.pin)] = Some(row.low);
            Answer::Routed(row)
        }
        Some(low) => Answer::Unrouted {
            entry: row.entry,
            why: if low == row.low {
                Why::Shared
            } else {
                Why::Clash
            },
        },
    }
}
