//! The wiring of INTR.

ghost use Rattle.std.specs.Prelude.{◌≡◌};
ghost use Rattle.mpb_board.specs.BoardView.{state_of};
ghost use Rattle.mpf_pic_lines.specs.Lines.{IsImcrPort};
ghost use Rattle.mpf_pic.specs.Wiring.{wiring_of, apic_path, path_of, after_write, mode_written};

use crate::path::Path;
use crate::search::{extint_pin, has_local_extint};
use mpb_board::{Board, Imcr};
use mpt_route::Platform;
use std::marker::Model;

/// The way of INTR to the boot processor. Contracts see the interrupt mode register, whether it is
/// selected, and the way where the APICs are connected.
#[derive(Drop)]
pub struct Wiring {
    imcr: Imcr,
    selected: bool,
    apic: Path,
}

impl Model for Wiring {
    ghost use Rattle.mpf_pic.specs.Wiring.{WiringState};

    ghost Value = { WiringState };

    ghost view = { λ w. record { imcr = w.imcr; selected = w.selected; apic = w.apic } };
}

impl Wiring {
    /// The wiring of a board and the platform of its tables: the board's interrupt mode register, which is
    /// deselected.
    pub fn of(board: &Board, p: &Platform) -> Wiring
        ensures state { result ≡ wiring_of board.now.plan.boot p.now (state_of board.now) }
    {
        Wiring {
            imcr: board.imcr(),
            selected: false,
            apic: apic_path(board, p),
        }
    }

    /// A write of port 22h or 23h: 70h to port 22h selects the interrupt mode register, and any other value
    /// deselects it; while it is selected, 00h to port 23h is PIC mode, and 01h connects the APICs. All other
    /// writes, and all where there is no such register, change nothing.
    pub fn write(&mut self, port: u8, v: u8)
        requires port { IsImcrPort port }
        ensures state { self.new ≡ after_write port v self.old }
    {
        match self.imcr {
            Imcr::Absent => {}
            Imcr::Pic | Imcr::Apic => {
                if port == 0x22 {
                    self.selected = v == 0x70;
                } else if self.selected {
                    self.imcr = mode_written(v, self.imcr);
                }
            }
        }
    }

    /// The way: direct in PIC mode, else by LINTIN 0, by the pin of the least place and there the least
    /// number, or closed.
    pub fn path(&self) -> Path
        ensures path { result ≡ path_of self.now }
    {
        match self.imcr {
            Imcr::Pic => Path::Direct,
            Imcr::Apic | Imcr::Absent => self.apic,
        }
    }
}

// the register after a write of its value
fn mode_written(v: u8, imcr: Imcr) -> Imcr
    ensures { result ≡ mode_written v imcr }
{
    match v {
        0 => Imcr::Pic,
        1 => Imcr::Apic,
        _ => imcr,
    }
}

// the way where the APICs are connected
fn apic_path(board: &Board, p: &Platform) -> Path
    ensures { result ≡ apic_path board.now.plan.boot p.now (state_of board.now) }
{
    let boot = board.config().boot;
    if has_local_extint(p.lints.as_slice(), boot) {
        return Path::Lint;
    }
    match extint_pin(board, boot) {
        Some((io, pin)) => Path::Io { io, pin },
        None => Path::Closed,
    }
}
