//! The rule of the shared bus, and what its steps tell (docs/THREADS.md).

use crate::view::SeatView;
use atomic_table::{Join, Play, Split, TableRule};
use mpb_board::Board;
use std::snapshot::Snapshot;

/// The rule of the bus: one history.
pub(crate) struct OneHistory;

/// What the rule may read: the board as it was when the bus was made.
pub(crate) type Start = Snapshot<Board>;

impl TableRule<Option<Board>, SeatView, Start> for OneHistory {
    ghost use Rattle.mpb_bus.specs.Rule.{IsKept, opening_view};

    ghost holds = { λ key. IsKept key.value.plan };

    ghost first = { λ key. opening_view key.value.plan key.value.journal };
}

/// A take of the turn, won or lost.
pub(crate) struct Taken;

impl Play<Option<Board>, SeatView> for Taken {
    ghost use Rattle.mpb_bus.specs.Rule.{Takes};

    ghost then = { Takes };
}

/// A give of the turn.
pub(crate) struct Given;

impl Play<Option<Board>, SeatView> for Given {
    ghost use Rattle.mpb_bus.specs.Rule.{Gives};

    ghost then = { Gives };
}

/// Cuts off the first agent of a seat.
pub(crate) struct OneAgent;

impl Split<SeatView> for OneAgent {
    ghost use Rattle.mpb_bus.specs.Rule.{without_agent, first_agent};

    ghost left = { without_agent };

    ghost right = { first_agent };
}

/// A seat for no agent, which tells what another has seen.
pub(crate) struct Told;

impl Split<SeatView> for Told {
    ghost use Rattle.mpb_bus.specs.Rule.{telling};

    ghost left = { λ v. v };

    ghost right = { telling };
}

/// An agent hears what another has seen.
pub(crate) struct Heard;

impl Join<SeatView> for Heard {
    ghost use Rattle.mpb_bus.specs.Rule.{heard, nobody};

    ghost both = { heard };

    ghost spent = { nobody };
}

/// Puts the agents of two seats together.
pub(crate) struct Together;

impl Join<SeatView> for Together {
    ghost use Rattle.mpb_bus.specs.Rule.{together, nobody};

    ghost both = { together };

    ghost spent = { nobody };
}

/// A new seat that stands for nobody.
pub(crate) struct Enters;

impl Play<Option<Board>, SeatView> for Enters {
    ghost use Rattle.std.specs.Prelude.{◌≡◌, []};
    ghost use Rattle.mpb_bus.specs.Rule.{nobody};

    ghost then = { λ _ _ _ m. m ≡ (nobody, []) };
}
