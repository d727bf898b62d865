//! The board (this project's own): processors with their local APICs, I/O APICs and devices, each with
//! a program, and the journal of what they did.

ghost use Rattle.std.specs.Prelude.{◌≡◌, ◌≤◌, ◌<◌, ◌-◌, ◌^◌, ◌↔◌, [], length, slice_get, Some, None, IsTrue, IfOk, MatchBool, option_map, option_copied};
ghost use Rattle.mpb_spec.specs.declared.agent.Agent.{Agent as AnAgent};
ghost use Rattle.mpb_spec.specs.declared.entry.Entry.{Entry as AnEntry};
ghost use Rattle.mpb_spec.specs.Plan.{plan_size, initial_state_of};
ghost use Rattle.mpb_spec.specs.Configs.{IsConfig};
ghost use Rattle.mpb_spec.specs.Room.{room};
ghost use Rattle.mpb_spec.specs.State.{processor_of};
ghost use Rattle.mpb_spec.specs.Steps.{next_op};
ghost use Rattle.mpb_spec.specs.Journal.{IsLegal};
ghost use Rattle.mpb_spec.specs.May.{IsIdle, IsQuiescent, MayAny, MayStep};
ghost use Rattle.mpb_laws.specs.Accounts.{IsAccounted};
ghost use Rattle.mpb_board.specs.BoardView.{state_of, Grows};

use crate::bound::room;
use mpb_ioapic::IoApic;
use mpb_lapic::Lapic;
use mpb_machine::{Machine, make};
use mpb_spec::{Agent, Config, Entry, Imcr, Life, Offer, Op};
use mpt_base::NoMemory;
use std::alloc::Global;
use std::marker::Model;

/// A board: its config, its state, and the journal of the steps that led there. The journal has room for
/// all entries that it can get. Contracts see the config's plan and the journal; the state is the one that
/// the journal leaves.
#[derive(Drop)]
pub struct Board {
    config: Config,
    machine: Machine,
    journal: Vec<Entry>,
}

impl Model for Board {
    ghost use Rattle.std.specs.Prelude.{vec_capacity};
    ghost use Rattle.mpb_board.specs.BoardView.{BoardView, IsBoard};

    ghost Value = { BoardView };

    ghost view = { λ b. record { plan = b.config; journal = b.journal.items } };

    ghost invariant = { λ b. IsBoard b.config b.machine b.journal.items (vec_capacity b.journal) };
}

impl Board {
    /// The board in its opening state: the boot processor runs, all other processors are asleep, every
    /// program is at its start, and the journal is empty. It takes all memory that the board will want.
    pub fn new(alloc: Global, config: Config) -> Result<Board, NoMemory>
        requires small { plan_size config < 2 ^ 32 }
        ensures plan { IfOk result (λ b. b.plan ≡ config) }
        ensures journal { IfOk result (λ b. b.journal ≡ []) }
        ensures opening { IfOk result (λ b. state_of b ≡ initial_state_of config) }
    {
        let Ok(journal) = Vec::with_capacity(alloc, room(&config) as usize) else {
            return Err(NoMemory);
        };
        match Machine::opening(alloc, &config) {
            Ok(machine) => Ok(Board {
                config,
                machine,
                journal,
            }),
            Err(_) => Err(NoMemory),
        }
    }

    // what the agent makes next with the offer
    fn next_op(&self, agent: Agent, offer: Offer) -> Option<Op>
        ensures { result ≡ next_op (state_of self.now) agent offer }
    {
        self.machine.next_op(agent, offer)
    }

    /// Whether the agent may step with the offer.
    #[tactic(auto, using(crate::proofs::BoardLemmas::may_law))]
    pub fn can_step(&self, agent: Agent, offer: Offer) -> bool
        ensures may { IsTrue result ↔ MayStep (state_of self.now) agent offer }
    {
        self.next_op(agent, offer).is_some()
    }

    /// Whether the agent may step with some offer.
    #[tactic(auto, using(crate::proofs::BoardLemmas::any_law))]
    pub fn can_any(&self, agent: Agent) -> bool
        ensures may { IsTrue result ↔ MayAny (state_of self.now) agent }
        ensures idle { MatchBool result (MayAny (state_of self.now) agent) (IsIdle (state_of self.now) agent) }
    {
        self.machine.can_any(agent)
    }

    /// Whether no agent may step with any offer. Where it isn't so, some agent may step with some offer.
    pub fn quiet(&self) -> bool
        ensures quiet { IsTrue result ↔ IsQuiescent (state_of self.now) }
        ensures some { MatchBool result (IsQuiescent (state_of self.now)) ((g : AnAgent) × MayAny (state_of self.now) g) }
    {
        self.machine.quiet()
    }

    // one step, of this op: the journal has room for its entry
    fn append(&mut self, agent: Agent, offer: Offer, op: Op)
        requires { next_op (state_of self.old) agent offer ≡ Some op }
        ensures grows { (x : AnEntry) × Grows self.old agent offer x self.new }
        ensures legal { IsLegal self.new.plan self.new.journal }
        ensures within { length self.new.journal ≤ room self.new.plan }
        ensures accounted { IsAccounted self.new.plan self.new.journal }
    {
        let outcomes = make(&mut self.machine, agent, op);
        let entry = Entry {
            agent,
            op,
            outcomes,
        };
        self.journal.push(entry).unwrap();
    }

    /// The last entry of the journal, none exactly where the journal is empty.
    pub fn last(&self) -> Option<&Entry>
        ensures last { option_copied result ≡ slice_get self.now.journal (length self.now.journal - 1) }
    {
        self.journal
            .as_slice()
            .get(self.journal.len().saturating_sub(1))
    }

    /// One step of the agent with the offer, as `step`, where it may make one, and whether it did. Where it
    /// may not, nothing changes.
    pub fn advance(&mut self, agent: Agent, offer: Offer) -> bool
        ensures step { MatchBool result ((x : AnEntry) × Grows self.old agent offer x self.new) ((self.new ≡ self.old) × (¬ MayStep (state_of self.old) agent offer)) }
        ensures legal { IsLegal self.new.plan self.new.journal }
        ensures within { length self.new.journal ≤ room self.new.plan }
        ensures accounted { IsAccounted self.new.plan self.new.journal }
    {
        match self.next_op(agent, offer) {
            Some(op) => {
                self.append(agent, offer, op);
                true
            }
            None => {
                let _ = self.journal();
                false
            }
        }
    }

    /// One step of the agent with the offer. Its entry is appended to the journal, and answered: the agent's,
    /// of the op that it makes next with the offer (a collection of just the pins that are offered), with
    /// the outcomes of that op. It takes no memory.
    pub fn step(&mut self, agent: Agent, offer: Offer) -> Entry
        requires may { MayStep (state_of self.old) agent offer }
        ensures grows { Grows self.old agent offer result self.new }
        ensures legal { IsLegal self.new.plan self.new.journal }
        ensures within { length self.new.journal ≤ room self.new.plan }
        ensures accounted { IsAccounted self.new.plan self.new.journal }
    {
        match self.next_op(agent, offer) {
            Some(op) => self.append(agent, offer, op),
            None => unreachable!(),
        }
        match self.last() {
            Some(entry) => entry.again(),
            None => unreachable!(),
        }
    }

    /// The journal: the entries of all steps, in their order. It is legal for the config and no longer than
    /// its room, and every vector that was set was taken or is still requested.
    #[tactic(auto, using(crate::proofs::BoardLemmas::short))]
    pub fn journal(&self) -> &[Entry]
        ensures journal { result.now ≡ self.now.journal }
        ensures legal { IsLegal self.now.plan result.now }
        ensures within { length result.now ≤ room self.now.plan }
        ensures short { length result.now < 2 ^ 62 }
        ensures accounted { IsAccounted self.now.plan result.now }
    {
        self.journal.as_slice()
    }

    /// The config, with fewer than 2^32 ops and pulses in all.
    pub fn config(&self) -> &Config
        ensures same { result.now ≡ self.now.plan }
        ensures kept { IsConfig self.now.plan }
        ensures small { plan_size self.now.plan < 2 ^ 32 }
    {
        &self.config
    }

    /// The life of the processor with this id, none exactly where there is no such processor.
    pub fn life(&self, id: u8) -> Option<Life>
        ensures life { result ≡ option_map (λ p. p.life) (processor_of id (state_of self.now).processors) }
    {
        self.machine.life(id)
    }

    /// The local APIC of the processor with this id, none exactly where there is no such processor.
    pub fn lapic(&self, id: u8) -> Option<&Lapic>
        ensures lapic { option_copied result ≡ option_map (λ p. p.apic) (processor_of id (state_of self.now).processors) }
    {
        self.machine.lapic(id)
    }

    /// The I/O APIC at this place, none exactly where there is no such place.
    pub fn io(&self, place: u8) -> Option<&IoApic>
        ensures io { option_copied result ≡ option_map (λ p. p.chip) (slice_get (state_of self.now).places place) }
    {
        self.machine.io(place)
    }

    /// The interrupt mode register.
    pub fn imcr(&self) -> Imcr
        ensures register { result ≡ (state_of self.now).imcr }
    {
        self.machine.imcr()
    }
}
