//! Laws of the round robin.

ghost use Rattle.std.specs.Prelude.{◌≡◌, ◌≢◌, ◌≤◌, ◌<◌, ◌^◌, ◌+◌, ℕ, List, [], Some, length, slice_index, slice_index_or};
ghost use Rattle.std.specs.Int.{bit_at};
ghost use Rattle.mpb_spec.specs.declared.agent.Agent.{Agent as AnAgent};
ghost use Rattle.mpb_spec.specs.declared.agent.Agent.TheVariants.{Io};
ghost use Rattle.mpb_spec.specs.declared.agent.Offer.TheVariants.{Collect};
ghost use Rattle.mpb_spec.specs.declared.entry.Entry.{Entry as AnEntry};
ghost use Rattle.mpb_spec.specs.Configs.{IsConfig};
ghost use Rattle.mpb_spec.specs.May.{IsQuiescent, MayStep};
ghost use Rattle.mpb_spec.specs.Journal.{IsComplete};
ghost use Rattle.mpb_spec.specs.Plan.{Plan, plan_size};
ghost use Rattle.mpb_spec.specs.Room.{room};
ghost use Rattle.mpb_spec.specs.declared.pulse.Pulse.{Pulse};
ghost use Rattle.mpb_spec.specs.declared.pulse.Hit.{Hit};
ghost use Rattle.mpb_spec.specs.PlainLatch.{pins_at};
ghost use Rattle.mpb_robin.specs.RoundRobin.{Run, turn, round, state_in, first_run, IsRoundRobinEnd, IsRoundRobinOf};
ghost use Rattle.mpb_robin.specs.Rest.{IsRun, IsAgentOf, done_in};
ghost use Rattle.mpb_robin.specs.Account.{AccountsForPulses, collected_count};

/// The opening is a run, and a turn of an agent keeps what holds of one.
pub fn turns_keep()
    ensures first { (c : Plan) → IsConfig c → plan_size c < 2 ^ 32 → IsRun (first_run c) }
    ensures turns { (r : Run) (g : AnAgent) → IsRun r → IsAgentOf r.plan g → IsRun (turn g r) }
{}

/// The pins that are latched can be collected, and their counts are low.
#[tactic(auto, using(crate::proofs::Collects::may_collect, crate::proofs::Collects::low_counts))]
pub fn latched_pins_can_be_collected()
    ensures may { (r : Run) (a : ℕ) → IsRun r → a < length r.plan.ios → pins_at a r.latch ≢ 0 → MayStep (state_in r) (Io a) (Collect (pins_at a r.latch)) }
    ensures low { (r : Run) (a pin : ℕ) → IsRun r → a < length r.plan.ios → pin < 24 → slice_index (slice_index_or r.counts a []) pin + bit_at (pins_at a r.latch) pin < 2 ^ 32 }
{}

/// In every round something is done until no agent may step, and no more can be done than the config allows.
#[tactic(auto, using(crate::proofs::Rounds::goes_on, crate::proofs::Progress::bounded))]
pub fn rounds_go_on()
    ensures goes_on { (r : Run) → IsRun r → ¬ IsQuiescent (state_in r) → done_in r < done_in (round r) }
    ensures bounded { (r : Run) → IsRun r → done_in r ≤ room r.plan + plan_size r.plan }
{}

/// A run at whose end no agent may step is complete, and accounts for all pulses.
pub fn quiet_runs_are_complete()
    ensures complete { (r : Run) → IsRun r → IsQuiescent (state_in r) → IsComplete r.plan r.journal }
    ensures accounts { (r : Run) → IsRun r → IsQuiescent (state_in r) → AccountsForPulses r.plan r.journal r.logs }
{}

/// The round robin of a config has one end.
#[tactic(auto, using(crate::proofs::OneEnd::some_end, crate::proofs::OneEnd::same_end))]
pub fn round_robins_have_one_end()
    ensures some { (c : Plan) → IsConfig c → plan_size c < 2 ^ 32 → (r : Run) × IsRoundRobinEnd c r }
    ensures one { (c : Plan) (r s : Run) → IsRoundRobinEnd c r → IsRoundRobinEnd c s → r ≡ s }
{}

/// The journal of a round robin is complete, and its logs account for all pulses.
pub fn round_robins_are_complete()
    ensures complete { (c : Plan) (journal : List AnEntry) (logs : List (List (Pulse × Hit))) → IsConfig c → plan_size c < 2 ^ 32 → IsRoundRobinOf c journal logs → IsComplete c journal }
    ensures accounts { (c : Plan) (journal : List AnEntry) (logs : List (List (Pulse × Hit))) → IsConfig c → plan_size c < 2 ^ 32 → IsRoundRobinOf c journal logs → AccountsForPulses c journal logs }
{}
