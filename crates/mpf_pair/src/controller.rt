//! One controller by its bit registers.

ghost use Rattle.std.specs.Prelude.{◌≡◌, ◌<◌, ◌^◌, bit_and, bit_or};
ghost use Rattle.std.specs.Int.{bit_not, w8};
ghost use Rattle.mpf_pair.specs.Pair.{unset, started};
ghost use Rattle.mpf_pair.specs.Registers.{ended_place, without_place};

use crate::bits::{lowest_bit, without_bit};
use crate::settings::Settings;

/// A controller: how it is set, and three registers with a bit for each of its lines.
#[derive(Clone, Copy)]
pub struct Controller {
    pub settings: Settings,
    /// IRR: the lines that are requested.
    pub requests: u8,
    /// ISR: the lines in service.
    pub marks: u8,
    /// The lines that are up.
    pub lines: u8,
}

impl Controller {
    /// Power-on.
    pub fn new() -> Controller
        ensures { result ≡ record { settings = unset; requests = 0; marks = 0; lines = 0 } }
    {
        Controller {
            settings: Settings::new(),
            requests: 0,
            marks: 0,
            lines: 0,
        }
    }

    /// The first initialisation word: requests and marks go.
    pub fn start(&mut self, v: u8)
        ensures { self.new ≡ record self.old { settings = started v self.old.settings; requests = 0; marks = 0 } }
    {
        self.settings.start(v);
        self.requests = 0;
        self.marks = 0;
    }

    // the place whose mark the second operation word removes
    fn ended(&self, v: u8) -> Option<u8>
        ensures { result ≡ ended_place v self.now.marks }
    {
        match v >> 5 {
            1 => lowest_bit(self.marks),
            3 => Some(v & 7),
            _ => None,
        }
    }

    /// The second operation word.
    pub fn end(&mut self, v: u8)
        ensures { self.new ≡ record self.old { marks = without_place (ended_place v self.old.marks) self.old.marks } }
    {
        if let Some(place) = self.ended(v) {
            self.marks = without_bit(self.marks, place);
        }
    }
}
