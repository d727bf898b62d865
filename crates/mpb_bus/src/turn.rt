//! A turn: what an agent does on the board, and what it answers.

ghost use Rattle.mpb_bus.specs.Turns.{Answers};

use mpb_board::{Agent, Board, Entry, Offer};

/// What a turn of an agent did.
#[derive(Drop)]
pub enum Turn {
    /// The agent made this entry.
    Done(Entry),
    /// The agent may not step with the offer, and some agent may with some offer.
    Idle,
    /// No agent may step with any offer.
    Quiet,
}

impl Turn {
    /// One turn of the agent on the board: a step where it may step with the offer.
    pub(crate) fn make(board: &mut Board, agent: Agent, offer: Offer) -> Turn
        ensures answers { Answers board.old agent offer result board.new }
    {
        if board.advance(agent, offer) {
            return match board.last() {
                Some(entry) => Turn::Done(entry.again()),
                None => unreachable!(),
            };
        }
        if board.quiet() {
            Turn::Quiet
        } else {
            Turn::Idle
        }
    }
}
