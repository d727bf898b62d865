//! A shared bus is closed: one seat takes all others in, and what it then knows is the history.

ghost use Rattle.std.specs.Prelude.{◌≡◌, ◌++◌, [], false, length, map, All, Any};
ghost use Rattle.mpb_spec.specs.Journal.{IsLegal};
ghost use Rattle.mpb_spec.specs.Agents.{agents_of};
ghost use Rattle.mpb_bus.specs.Rule.{AgentFits, known_agent, nobody, resting, together};

use crate::holding::Words;
use crate::rule::{Enters, Together};
use crate::seat::BusSeat;
use crate::view::SeatView;
use atomic_table::Seat;
use mpb_board::Board;

/// A seat that has no agent. The first seat can't be kept for this, since a seat isn't `Sync` and the bus
/// is.
fn empty_seat(words: &Words) -> Seat<Option<Board>, SeatView>
    requires { words.now.shared.table_id.words ≡ 1 }
    ensures { (result.table_id ≡ words.now.shared.table_id) × (result.me ≡ (nobody, [])) }
{
    let (_, seat) = words.shared.load_new_seat::<Enters>(0);
    seat
}

/// Takes an agent in, behind those that were taken in before.
fn take_agent(words: &Words, all: &mut Seat<Option<Board>, SeatView>, seat: BusSeat)
    requires words { (words.now.shared.table_id.words ≡ 1) × (all.old.table_id ≡ words.now.shared.table_id) × (seat.bus ≡ words.now.shared.table_id) }
    requires free { all.old.me.0.holds ≡ false }
    ensures { (all.new.table_id ≡ all.old.table_id) × (all.new.me ≡ (together all.old.me.0 (resting (known_agent seat)), all.old.me.1)) }
{
    let BusSeat { seat, agent: _ } = seat;
    words.shared.join_seat::<Together>(all, seat);
}

/// Takes all agents in, in order.
pub(crate) fn take_all(words: &Words, seats: Vec<BusSeat>) -> Seat<Option<Board>, SeatView>
    requires { (words.now.shared.table_id.words ≡ 1) × All (λ s. s.bus ≡ words.now.shared.table_id) seats.items }
    ensures seat { result.table_id ≡ words.now.shared.table_id }
    ensures agents { (result.me.0.holds ≡ false) × (result.me.0.agents ≡ map known_agent seats.items) }
{
    let mut all = empty_seat(words);
    for seat in seats {
        take_agent(words, &mut all, seat);
    }
    all
}

/// The board, where all agents have been taken in.
pub(crate) fn settle(words: Words, all: Seat<Option<Board>, SeatView>) -> Board
    requires words { (all.table_id ≡ words.shared.table_id) × (words.shared.table_id.slots ≡ 1) }
    requires all { (all.me.0.holds ≡ false) × (length all.me.0.agents ≡ length (agents_of words.shared.key.value.plan)) }
    ensures plan { result.plan ≡ words.shared.key.value.plan }
    ensures fits { All (AgentFits result.plan result.journal) all.me.0.agents }
    ensures latest { Any (λ a. a.seen ≡ result.journal) all.me.0.agents }
    ensures legal { IsLegal result.plan result.journal }
{
    let mut closed = words.close_with(all);
    let slot = closed.take(0);
    closed.free();
    let Some(board) = slot else { unreachable!() };
    let _ = board.journal();
    board
}
