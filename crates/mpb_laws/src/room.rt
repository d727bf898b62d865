//! How long a journal can get.

ghost use Rattle.std.specs.Prelude.{◌≡◌, ◌≤◌, ◌<◌, ◌+◌, ◌*◌, List, length, fold};
ghost use Rattle.mpb_spec.specs.declared.entry.Entry.{Entry as AnEntry};
ghost use Rattle.mpb_spec.specs.State.{BoardState};
ghost use Rattle.mpb_spec.specs.Plan.{Plan, plan_size, initial_state_of};
ghost use Rattle.mpb_spec.specs.Configs.{IsConfig};
ghost use Rattle.mpb_spec.specs.Journal.{AreSteps, IsLegal, after_entry};
ghost use Rattle.mpb_spec.specs.Room.{cost, pins_in, room};

/// No run of steps is longer than what its first state has to spend.
#[tactic(auto, using(crate::proofs::StepSpends::steps_within))]
pub fn steps_are_within_their_cost()
    ensures { (s : BoardState) (entries : List AnEntry) → AreSteps s entries → length entries + cost (pins_in s.places) (fold after_entry s entries) ≤ cost (pins_in s.places) s }
{}

/// What the opening state of a config has to spend is the config's room.
#[tactic(auto, using(crate::proofs::RoomSum::opening_cost))]
pub fn openings_cost_their_room()
    ensures { (c : Plan) → IsConfig c → cost (pins_in (initial_state_of c).places) (initial_state_of c) ≡ room c }
{}

/// No legal journal of a config is longer than its room.
#[tactic(auto, using(crate::proofs::RoomSum::within_room))]
pub fn journals_are_within_their_room()
    ensures { (c : Plan) (journal : List AnEntry) → IsConfig c → IsLegal c journal → length journal ≤ room c }
{}

/// The room is at most 98 times the ops and pulses of the config, and one for each I/O APIC, of which
/// there are at most four.
#[tactic(auto, using(crate::proofs::RoomBound::room_bound))]
pub fn rooms_are_small()
    ensures { (c : Plan) → IsConfig c → room c ≤ 98 * plan_size c + 4 }
{}
