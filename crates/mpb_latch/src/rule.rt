//! The rule of the shared latch, and what its steps tell (docs/THREADS.md).

use crate::view::SeatView;
use atomic_table::{Join, Play, Split, TableRule};
use mpb_spec::Pulse;
use std::snapshot::Snapshot;

/// The rule of the latch: its account balances whenever a word changes.
pub(crate) struct Balance;

/// What the rule may read: how many I/O APICs there are, and the devices' plans.
pub(crate) type Plans = (u8, Snapshot<Vec<Vec<Pulse>>>);

impl TableRule<(), SeatView, Plans> for Balance {
    ghost use Rattle.std.specs.Prelude.{map};
    ghost use Rattle.mpb_latch.specs.Rule.{IsBalanced, opening_view};

    ghost holds = { λ key. IsBalanced key.0 (map (λ p. p.items) key.1.value.items) };

    ghost first = { λ key. opening_view key.0 (map (λ p. p.items) key.1.value.items) };
}

/// A pulse.
pub(crate) struct Pulsed;

impl Play<(), SeatView> for Pulsed {
    ghost use Rattle.mpb_latch.specs.Rule.{Pulses};

    ghost then = { Pulses };
}

/// The end of a device.
pub(crate) struct Ended;

impl Play<(), SeatView> for Ended {
    ghost use Rattle.mpb_latch.specs.Rule.{Ends};

    ghost then = { Ends };
}

/// A collection.
pub(crate) struct Collected;

impl Play<(), SeatView> for Collected {
    ghost use Rattle.mpb_latch.specs.Rule.{Collects};

    ghost then = { Collects };
}

/// A look at how many devices have ended.
pub(crate) struct Looked;

impl Play<(), SeatView> for Looked {
    ghost use Rattle.mpb_latch.specs.Rule.{Looks};

    ghost then = { Looks };
}

/// Cuts off the first device of a seat.
pub(crate) struct OneDevice;

impl Split<SeatView> for OneDevice {
    ghost use Rattle.mpb_latch.specs.Rule.{without_device, first_device};

    ghost left = { without_device };

    ghost right = { first_device };
}

/// Cuts off the first collector of a seat.
pub(crate) struct OneCollector;

impl Split<SeatView> for OneCollector {
    ghost use Rattle.mpb_latch.specs.Rule.{without_collector, first_collector};

    ghost left = { without_collector };

    ghost right = { first_collector };
}

/// Puts the devices and collectors of two seats together.
pub(crate) struct Together;

impl Join<SeatView> for Together {
    ghost use Rattle.mpb_latch.specs.Rule.{together, nobody};

    ghost both = { together };

    ghost spent = { nobody };
}

/// A new seat that stands for nobody.
pub(crate) struct Enters;

impl Play<(), SeatView> for Enters {
    ghost use Rattle.std.specs.Prelude.{◌≡◌, []};
    ghost use Rattle.mpb_latch.specs.Rule.{nobody};

    ghost then = { λ _ _ _ m. m ≡ (nobody, []) };
}
