//! The turn is taken and given back. While a seat has it, the word is odd, and only that seat has the
//! board.

ghost use Rattle.std.specs.Prelude.{◌≡◌, ◌∷◌, [], None};
ghost use Rattle.mpb_spec.specs.Journal.{IsLegal};
ghost use Rattle.mpb_bus.specs.Rule.{AgentFits, GrowsBy, Took, agent_of, given, holding, resting, taken};

use crate::rule::{Given, OneHistory, Start, Taken};
use crate::view::SeatView;
use atomic_table::{Seat, Table};
use mpb_board::Board;
use std::alloc::Global;
use std::sync::Wait;
use std::thread;

/// The word of a bus and the slot of its board.
pub(crate) type Words = Table<Option<Board>, SeatView, Start, OneHistory, Global>;

/// Takes the turn, once the word is even.
fn win<R: Wait>(words: &Words, rt: &R, seat: &mut Seat<Option<Board>, SeatView>)
    requires words { (words.now.shared.table_id.words ≡ 1) × (seat.old.table_id ≡ words.now.shared.table_id) }
    requires free { seat.old.me ≡ (resting (agent_of seat.old.me.0), []) }
    ensures seat { seat.new.table_id ≡ seat.old.table_id }
    ensures took { Took seat.old.me seat.new.me }
{
    for _ in rt.forever() {
        let even = words.shared.peek(0);
        if even % 2 == 0 {
            let shared = &words.shared;
            let found = shared.compare_exchange::<Taken>(seat, 0, even, even + 1);
            if found == even {
                return;
            }
        }
        thread::yield_now();
    }
    unreachable!()
}

/// Takes the turn, and the board out of its slot.
pub(crate) fn take<R: Wait>(
    words: &Words,
    rt: &R,
    seat: &mut Seat<Option<Board>, SeatView>,
) -> Board
    requires words { (words.now.shared.table_id.words ≡ 1) × (seat.old.table_id ≡ words.now.shared.table_id) }
    requires free { seat.old.me ≡ (resting (agent_of seat.old.me.0), []) }
    ensures seat { seat.new.table_id ≡ seat.old.table_id }
    ensures took { seat.new.me ≡ (holding (taken result.journal (agent_of seat.old.me.0)), (0, None) ∷ []) }
    ensures fits { AgentFits result.plan result.journal (agent_of seat.old.me.0) }
{
    win(words, rt, seat);
    let Some(board) = words.shared.exchange(seat, 0, None) else {
        unreachable!()
    };
    board
}

/// Puts the board back, whose journal may have grown by an entry of the agent, and gives the turn back.
pub(crate) fn give(words: &Words, seat: &mut Seat<Option<Board>, SeatView>, board: Board)
    requires words { (words.now.shared.table_id.words ≡ 1) × (seat.old.table_id ≡ words.now.shared.table_id) }
    requires holds { seat.old.me ≡ (holding (agent_of seat.old.me.0), (0, None) ∷ []) }
    requires board { (board.plan ≡ (agent_of seat.old.me.0).config) × GrowsBy (agent_of seat.old.me.0) board.journal }
    ensures seat { seat.new.table_id ≡ seat.old.table_id }
    ensures gave { seat.new.me ≡ (resting (given board.journal (agent_of seat.old.me.0)), []) }
    ensures legal { IsLegal board.plan board.journal }
{
    let word = 2 * board.journal().len() as u64;
    let shared = &words.shared;
    let None = shared.exchange(seat, 0, Some(board)) else {
        unreachable!()
    };
    shared.store::<Given>(seat, 0, word);
}
