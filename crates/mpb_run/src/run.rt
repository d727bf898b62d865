//! A run so far.

ghost use Rattle.std.specs.Prelude.{◌≡◌, ◌≤◌, ◌<◌, ◌^◌, ◌+◌, [], ℕ, None, Some, IfOk, IsTrue, ◌↔◌, MatchBool, is_some, length, slice_get, slice_index, slice_index_or};
ghost use Rattle.std.specs.Int.{bit_at};
ghost use Rattle.mpb_spec.specs.May.{MayStep, IsQuiescent};
ghost use Rattle.mpb_spec.specs.Steps.{next_op};
ghost use Rattle.mpb_spec.specs.PlainLatch.{pins_at};
ghost use Rattle.mpb_spec.specs.Pulses.{logs_of, counts_of};
ghost use Rattle.mpb_robin.specs.RoundRobin.{state_in, first_run, with_step, with_taken, with_counted, with_made, with_pulse, with_end, next_act, acts_of};

use crate::lists::{count_pins, log_hit, nothing_kept, one_more};
use crate::ran::Ran;
use mpb_board::Board;
use mpb_latch::PlainLatch;
use mpb_robin::Act;
use mpb_spec::{Account, Agent, DevWord, Hit, Offer, Pulse};
use mpt_base::NoMemory;
use std::alloc::Global;
use std::marker::Model;

/// A board under way, its latch, and what is kept for the account: how many things each device has
/// done, its log, and how often each pin was collected. Each log has room for a pulse at each of the
/// device's words.
#[derive(Drop)]
pub(crate) struct Run {
    board: Board,
    latch: PlainLatch,
    made: Vec<usize>,
    logs: Vec<Vec<(Pulse, Hit)>>,
    counts: Vec<Vec<u32>>,
}

impl Model for Run {
    ghost use Rattle.std.specs.Prelude.{◌≤◌, ℕ, map, length, slice_index, vec_capacity};
    ghost use Rattle.mpb_robin.specs.RoundRobin.{Run as RunOf};

    ghost Value = { RunOf };

    ghost view = { λ r. record { plan = r.board.plan; journal = r.board.journal; latch = r.latch; made = r.made.items; logs = map (λ l. l.items) r.logs.items; counts = map (λ l. l.items) r.counts.items } };

    ghost invariant = { λ r. (d : ℕ) → slice_index (map (λ words. length words) r.board.plan.devices) d ≤ slice_index (map (λ l. vec_capacity l) r.logs.items) d };
}

impl Run {
    /// The run of a board whose journal is empty. It takes all memory that the run will want.
    pub(crate) fn new(alloc: Global, board: Board) -> Result<Run, NoMemory>
        requires opening { board.journal ≡ [] }
        ensures { IfOk result (λ r. r ≡ first_run board.plan) }
    {
        let ios = board.config().ios.len();
        let devices = board.config().devices.len();
        let Ok((made, logs, counts)) = nothing_kept(alloc, board.config()) else {
            return Err(NoMemory);
        };
        Ok(Run {
            board,
            latch: PlainLatch::new(ios as u8, devices as u8),
            made,
            logs,
            counts,
        })
    }

    /// Whether no agent may step.
    pub(crate) fn quiet(&self) -> bool
        ensures { IsTrue result ↔ IsQuiescent (state_in self.now) }
    {
        self.board.quiet()
    }

    /// One step of the agent with the offer, where it may make one, and whether it did.
    pub(crate) fn advance(&mut self, agent: Agent, offer: Offer) -> bool
        ensures made { result ≡ is_some (next_op (state_in self.old) agent offer) }
        ensures run { self.new ≡ with_step agent offer self.old }
    {
        self.board.advance(agent, offer)
    }

    /// Takes the latch word of an I/O APIC.
    pub(crate) fn take(&mut self, place: u8) -> u32
        requires { place < length self.old.latch.pins }
        ensures pins { result ≡ pins_at place self.old.latch }
        ensures run { self.new ≡ with_taken place self.old }
    {
        self.latch.collect(place)
    }

    /// Counts pins of an I/O APIC as collected.
    pub(crate) fn count(&mut self, place: u8, pins: u32)
        requires there { place < length self.old.counts }
        requires wide { length (slice_index_or self.old.counts place []) ≡ 24 }
        requires low { (pin : ℕ) → pin < 24 → slice_index (slice_index_or self.old.counts place []) pin + bit_at pins pin < 2 ^ 32 }
        ensures { self.new ≡ with_counted place pins self.old }
    {
        count_pins(&mut self.counts, place as usize, pins);
    }

    /// Whether all devices have ended on the latch.
    pub(crate) fn all_ended(&self) -> bool
        ensures { IsTrue result ↔ (self.now.latch.ended ≡ self.now.latch.devices) }
    {
        self.latch.ended()
    }

    /// What the device does next.
    pub(crate) fn next_act(&self, device: u8) -> Option<Act>
        requires there { device < length self.now.plan.devices }
        requires made { device < length self.now.made }
        ensures { result ≡ next_act device self.now }
    {
        let words = self.board.config().devices[device as usize].as_slice();
        act_at(words, self.made[device as usize])
    }

    /// The device has done one thing more.
    pub(crate) fn made(&mut self, device: u8)
        requires there { device < length self.old.made }
        requires low { slice_index self.old.made device + 1 < 2 ^ 64 }
        ensures { self.new ≡ with_made device self.old }
    {
        one_more(&mut self.made, device as usize);
    }

    /// The device, whose log is shorter than its words, pulses.
    pub(crate) fn pulse(&mut self, device: u8, pulse: Pulse)
        requires there { device < length self.old.logs }
        requires room { length (slice_index_or self.old.logs device []) < length (slice_index_or self.old.plan.devices device []) }
        requires io { pulse.io < length self.old.latch.pins }
        requires pin { pulse.pin < 24 }
        ensures { self.new ≡ with_pulse device pulse self.old }
    {
        let hit = self.latch.pulse(pulse);
        log_hit(&mut self.logs, device as usize, pulse, hit);
    }

    /// The board and the account.
    pub(crate) fn ran(self) -> Ran
        ensures board { (result.board.plan ≡ self.plan) × (result.board.journal ≡ self.journal) }
        ensures logs { logs_of result.account ≡ self.logs }
        ensures counts { counts_of result.account ≡ self.counts }
    {
        Ran {
            board: self.board,
            account: Account {
                logs: self.logs,
                collected: self.counts,
            },
        }
    }

    /// One device more has ended on the latch.
    pub(crate) fn end(&mut self)
        requires { self.old.latch.ended < self.old.latch.devices }
        ensures { self.new ≡ with_end self.old }
    {
        self.latch.end();
    }
}

// the act at a place among those of a device
fn act_at(words: &[DevWord], made: usize) -> Option<Act>
    ensures { result ≡ slice_get (acts_of words.now) made }
{
    if made == 0 {
        Some(Act::Begin)
    } else if made <= words.len() {
        Some(Act::Word(words[made - 1]))
    } else if made - 1 == words.len() {
        Some(Act::End)
    } else {
        None
    }
}
