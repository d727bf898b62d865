//! What the seats of a bus know. No value of these types is made: they stand in the rule of the bus
//! alone.

use mpb_board::{Agent, Config, Entry};
use std::collections::LinkedList;

/// What is known of an agent: the config of the board, the journal as it was last seen, the agent's
/// own entries, how often it took the turn, and what the two seats of the last meeting had seen.
pub struct AgentView {
    pub agent: Agent,
    pub config: Config,
    pub seen: LinkedList<Entry>,
    pub mine: LinkedList<Entry>,
    pub turns: u64,
    pub olds: LinkedList<LinkedList<Entry>>,
}

/// The agents that a seat stands for, what it was told that others had seen, and whether it holds the
/// board.
pub struct SeatView {
    pub agents: LinkedList<AgentView>,
    pub told: LinkedList<LinkedList<Entry>>,
    pub holds: bool,
}
