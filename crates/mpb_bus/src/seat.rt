//! The seats of a shared bus, one for each agent of the board. A seat may be moved to any thread. What
//! it knows is its own: no other seat's step changes it.

ghost use Rattle.std.specs.Prelude.{◌≡◌};

use crate::view::SeatView;
use atomic_table::Seat;
use mpb_board::{Agent, Board};
use std::marker::Model;

/// An agent's seat. Contracts see which bus it belongs to, the agent, the board's plan, the journal as
/// the seat last saw it (`seen`), the agent's own entries (`mine`), how often it took the turn (`turns`),
/// and what the two seats of its last meeting had seen before it (`olds`).
#[derive(Drop)]
pub struct BusSeat {
    pub(crate) seat: Seat<Option<Board>, SeatView>,
    pub(crate) agent: Agent,
}

impl Model for BusSeat {
    ghost use Rattle.std.specs.Prelude.{◌≡◌, []};
    ghost use Rattle.mpb_bus.specs.Seats.{AgentSeat};
    ghost use Rattle.mpb_bus.specs.Rule.{agent_of, resting, shown_agent};

    ghost Value = { AgentSeat };

    ghost view = { λ s. shown_agent s.seat.table_id (agent_of s.seat.me.0) };

    ghost invariant = { λ s. let known = agent_of s.seat.me.0 in (s.seat.me ≡ (resting known, [])) × (s.agent ≡ known.agent) };
}

impl BusSeat {
    /// The agent whose seat it is.
    pub fn agent(&self) -> Agent
        ensures { result ≡ self.now.agent }
    {
        self.agent
    }
}
