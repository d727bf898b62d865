//! A shared bus is opened: its word and its slot, and its seats, which are cut one by one from the
//! first.

ghost use Rattle.std.specs.Prelude.{◌≡◌, ◌<◌, [], false, length, IfOk, map};
ghost use Rattle.mpb_spec.specs.Configs.{IsConfig};
ghost use Rattle.mpb_bus.specs.Seats.{fresh_seat};
ghost use Rattle.mpb_bus.specs.Rule.{agent_of, fresh_agent, nobody, opening_view, shown_agent, without_agent};

use crate::holding::Words;
use crate::rule::OneAgent;
use crate::seat::BusSeat;
use crate::view::SeatView;
use atomic_table::{Seat, Table};
use mpb_board::{Agent, Board};
use mpt_base::NoMemory;
use std::alloc::Global;
use std::snapshot::Snapshot;

/// The word and the slot, and a seat that has all agents.
pub(crate) fn open_words(
    alloc: Global,
    board: Board,
) -> Result<(Words, Seat<Option<Board>, SeatView>), NoMemory>
    requires { IsConfig board.plan }
    ensures table { IfOk result (λ made. (made.0.shared.table_id.words ≡ 1) × (made.0.shared.table_id.slots ≡ 1) × (made.0.shared.key.value ≡ board)) }
    ensures seat { IfOk result (λ made. (made.1.table_id ≡ made.0.shared.table_id) × (made.1.me ≡ (opening_view board.plan board.journal, []))) }
{
    let start = Snapshot::of(&board);
    let words = [2 * board.journal().len() as u64];
    let mut slots = Vec::new(alloc);
    let Ok(()) = slots.push(Some(board)) else {
        return Err(NoMemory);
    };
    match Table::new(alloc, &words, slots, &start) {
        Ok(opened) => Ok(opened),
        Err(_) => Err(NoMemory),
    }
}

/// Cuts off the first agent that is left.
fn cut_agent(words: &Words, all: &mut Seat<Option<Board>, SeatView>, agent: Agent) -> BusSeat
    requires words { (words.now.shared.table_id.words ≡ 1) × (all.old.table_id ≡ words.now.shared.table_id) }
    requires free { all.old.me.0.holds ≡ false }
    requires agent { (0 < length all.old.me.0.agents) × (agent ≡ (agent_of all.old.me.0).agent) }
    ensures left { (all.new.table_id ≡ all.old.table_id) × (all.new.me ≡ (without_agent all.old.me.0, all.old.me.1)) }
    ensures seat { result ≡ shown_agent all.old.table_id (agent_of all.old.me.0) }
{
    let seat = words.shared.split_seat::<OneAgent>(all);
    BusSeat { seat, agent }
}

/// A seat for each agent.
pub(crate) fn seats_of(
    alloc: Global,
    words: &Words,
    all: &mut Seat<Option<Board>, SeatView>,
    agents: &[Agent],
) -> Result<Vec<BusSeat>, NoMemory>
    requires words { (words.now.shared.table_id.words ≡ 1) × (all.old.table_id ≡ words.now.shared.table_id) }
    requires all { (all.old.me.0.holds ≡ false) × (all.old.me.0.agents ≡ map (fresh_agent words.now.shared.key.value.plan words.now.shared.key.value.journal) agents.now) }
    ensures { IfOk result (λ seats. seats.items ≡ map (fresh_seat words.now.shared.table_id words.now.shared.key.value.plan words.now.shared.key.value.journal) agents.now) }
{
    let Ok(mut seats) = Vec::with_capacity(alloc, agents.len()) else {
        return Err(NoMemory);
    };
    for agent in agents {
        let seat = cut_agent(words, all, *agent);
        let Ok(()) = seats.push(seat) else {
            return Err(NoMemory);
        };
    }
    Ok(seats)
}
