//! A row: what an agent is offered, and the entry that comes of it.

use mpb_board::{Agent, Board, Entry, Offer, Op, Outcome, What};

/// An agent, an offer, and the op and the outcome of the entry that comes of it.
#[derive(Clone, Copy)]
pub struct Row {
    pub agent: Agent,
    pub offer: Offer,
    pub op: Op,
    pub outcome: Outcome,
}

/// The next op of the agent, with an outcome at a target.
pub fn at(agent: Agent, op: Op, at: u8, what: What) -> Row {
    Row {
        agent,
        offer: Offer::Next,
        op,
        outcome: Outcome { at, what },
    }
}

/// An agent's op, and the target and the rest of its outcome.
pub type Line = (Agent, Op, u8, What);

/// The row of a line: a collection and a sweep are offered as such, and every other op as the next one.
pub fn row_of(line: Line) -> Row {
    let (agent, op, at, what) = line;
    Row {
        agent,
        offer: offer_of(op),
        op,
        outcome: Outcome { at, what },
    }
}

// the offer with which an op is made
fn offer_of(op: Op) -> Offer {
    match op {
        Op::Collect(pins) => Offer::Collect(pins),
        Op::Sweep => Offer::Sweep,
        _ => Offer::Next,
    }
}

/// Whether the board may step so, and its entry is that of the row.
pub fn is_made(board: &mut Board, row: Row) -> bool {
    is_told(board, row.agent, row.offer, row.op, &[row.outcome])
}

/// Whether the agent may step with the offer, and its entry has this op and these outcomes.
pub fn is_told(
    board: &mut Board,
    agent: Agent,
    offer: Offer,
    op: Op,
    outcomes: &[Outcome],
) -> bool {
    if !board.can_step(agent, offer) {
        return false;
    }
    let entry = board.step(agent, offer);
    is_of(&entry, agent, op, outcomes)
}

// Whether the entry is the agent's, of this op, with these outcomes.
fn is_of(entry: &Entry, agent: Agent, op: Op, outcomes: &[Outcome]) -> bool {
    entry.agent == agent && entry.op == op && entry.outcomes.as_slice() == outcomes
}
