//! The shared bus (docs/THREADS.md).

ghost use Rattle.std.specs.Prelude.{◌≡◌, ◌+◌, ◌++◌, ◌∷◌, ◌⊎◌, [], map, All, Any, IfOk};
ghost use Rattle.mpb_spec.specs.declared.agent.Agent.{Agent as AnAgent};
ghost use Rattle.mpb_spec.specs.declared.entry.Entry.{Entry as AnEntry};
ghost use Rattle.mpb_spec.specs.Journal.{IsComplete, IsLegal};
ghost use Rattle.mpb_spec.specs.May.{IsQuiescent, MayAny, MayStep};
ghost use Rattle.mpb_bus.specs.declared.turn.Turn.TheVariants.{Done, Idle, Quiet};
ghost use Rattle.mpb_spec.specs.Agents.{IsPrefix, agents_of, entries_of};
ghost use Rattle.mpb_bus.specs.Seats.{AreSeatsOf, fresh_seat, state_seen};
ghost use Rattle.mpb_bus.specs.Turns.{Stepped, entries_in};

use crate::closing::{settle, take_all};
use crate::holding::{Words, give, take};
use crate::opening::{open_words, seats_of};
use crate::rule::{Heard, Told};
use crate::seat::BusSeat;
use crate::turn::Turn;
use mpb_board::{Board, Offer, agents};
use mpt_base::NoMemory;
use std::alloc::Global;
use std::marker::Model;
use std::sync::Wait;

/// A board that threads take in turns, shared by reference: one word, which is twice the length of the
/// journal and one more while a seat holds the board, and one slot for the board. Contracts see which
/// bus it is, and the plan of the board.
#[derive(Drop)]
pub struct Bus {
    words: Words,
}

impl Model for Bus {
    ghost use Rattle.std.specs.Prelude.{◌≡◌};
    ghost use Rattle.mpb_bus.specs.Seats.{SharedBus};

    ghost Value = { SharedBus };

    ghost view = { λ b. record { bus = b.words.shared.table_id; plan = b.words.shared.key.value.plan } };

    ghost invariant = { λ b. (b.words.shared.table_id.words ≡ 1) × (b.words.shared.table_id.slots ≡ 1) };
}

impl Bus {
    /// A bus for the board, with a seat for each of its agents, in order. Where memory runs out, the
    /// board is given up.
    pub fn new(alloc: Global, board: Board) -> Result<(Bus, Vec<BusSeat>), NoMemory>
        ensures bus { IfOk result (λ made. made.0.plan ≡ board.plan) }
        ensures seats { IfOk result (λ made. made.1.items ≡ map (fresh_seat made.0.bus board.plan board.journal) (agents_of board.plan)) }
        ensures all { IfOk result (λ made. AreSeatsOf made.0 made.1.items) }
        ensures legal { IfOk result (λ _. IsLegal board.plan board.journal) }
    {
        let Ok(agents) = agents(alloc, board.config()) else {
            return Err(NoMemory);
        };
        let _ = board.journal();
        let Ok((words, mut all)) = open_words(alloc, board) else {
            return Err(NoMemory);
        };
        let Ok(seats) = seats_of(alloc, &words, &mut all, agents.as_slice()) else {
            return Err(NoMemory);
        };
        Ok((Bus { words }, seats))
    }

    /// Takes the turn, steps the seat's agent where it may step with the offer, and gives the turn back.
    /// It may wait.
    pub fn turn<R: Wait>(&self, rt: &R, seat: &mut BusSeat, offer: Offer) -> Turn
        requires seat { seat.old.bus ≡ self.now.bus }
        ensures seat { seat.new ≡ record seat.old { seen = seat.new.seen; mine = seat.new.mine; turns = seat.old.turns + 1 } }
        ensures prefix { IsPrefix seat.old.seen seat.new.seen }
        ensures legal { IsLegal seat.new.plan seat.new.seen }
        ensures grows { seat.new.mine ≡ seat.old.mine ++ entries_in result }
        ensures mine { seat.new.mine ≡ entries_of seat.new.agent seat.new.seen }
        ensures olds { All (λ old. IsPrefix old seat.new.seen) seat.new.olds }
        ensures done { (x : AnEntry) → result ≡ Done x → Stepped seat.old offer x seat.new }
        ensures idle { result ≡ Idle → (¬ MayStep (state_seen seat.new) seat.new.agent offer) × ((g : AnAgent) × MayAny (state_seen seat.new) g) }
        ensures quiet { result ≡ Quiet → IsQuiescent (state_seen seat.new) }
    {
        let mut board = take(&self.words, rt, &mut seat.seat);
        let answer = Turn::make(&mut board, seat.agent, offer);
        give(&self.words, &mut seat.seat, board);
        answer
    }

    /// What `one` has seen is told to `two`, which then takes the turn and gives it back without a step.
    /// It may wait.
    pub fn meet<R: Wait>(&self, rt: &R, one: &mut BusSeat, two: &mut BusSeat)
        requires one { one.old.bus ≡ self.now.bus }
        requires two { two.old.bus ≡ self.now.bus }
        ensures one { one.new ≡ one.old }
        ensures two { two.new ≡ record two.old { seen = two.new.seen; turns = two.old.turns + 1; olds = one.old.seen ∷ two.old.seen ∷ [] } }
        ensures both { IsPrefix one.old.seen two.new.seen × IsPrefix two.old.seen two.new.seen }
        ensures order { IsPrefix one.old.seen two.old.seen ⊎ IsPrefix two.old.seen one.old.seen }
        ensures legal { IsLegal two.new.plan two.new.seen }
        ensures mine { two.new.mine ≡ entries_of two.new.agent two.new.seen }
    {
        let told = self.words.shared.split_seat::<Told>(&mut one.seat);
        self.words.shared.join_seat::<Heard>(&mut two.seat, told);
        let board = take(&self.words, rt, &mut two.seat);
        give(&self.words, &mut two.seat, board);
    }

    /// Takes all seats of the bus back, in the order in which `new` gave them, and gives the board.
    pub fn close(self, seats: Vec<BusSeat>) -> Board
        requires seats { AreSeatsOf self seats.items }
        ensures plan { result.plan ≡ self.plan }
        ensures legal { IsLegal result.plan result.journal }
        ensures prefix { All (λ s. IsPrefix s.seen result.journal) seats.items }
        ensures longest { Any (λ s. s.seen ≡ result.journal) seats.items }
        ensures mine { All (λ s. s.mine ≡ entries_of s.agent result.journal) seats.items }
        ensures plans { All (λ s. s.plan ≡ result.plan) seats.items }
        ensures quiet { All (λ s. IsQuiescent (state_seen s) → s.seen ≡ result.journal) seats.items }
        ensures complete { All (λ s. IsQuiescent (state_seen s) → IsComplete result.plan result.journal) seats.items }
    {
        let Bus { words } = self;
        let all = take_all(&words, seats);
        settle(words, all)
    }
}
