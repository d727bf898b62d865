//! That the seats of a bus are enough.

ghost use Rattle.std.specs.Prelude.{List};
ghost use Rattle.std.specs.List.{Contains};
ghost use Rattle.mpb_spec.specs.declared.agent.Agent.{Agent as AnAgent};
ghost use Rattle.mpb_spec.specs.declared.entry.Entry.{Entry as AnEntry};
ghost use Rattle.mpb_spec.specs.Plan.{Plan};
ghost use Rattle.mpb_spec.specs.Journal.{final_state_of};
ghost use Rattle.mpb_spec.specs.May.{MayAny};
ghost use Rattle.mpb_spec.specs.Agents.{agents_of};

/// Whatever has happened on a board, an agent that may step is one of the board's agents, so it has a
/// seat.
pub fn agents_that_may_step_have_seats()
    ensures { (c : Plan) (journal : List AnEntry) (g : AnAgent) → MayAny (final_state_of c journal) g → Contains (agents_of c) g }
{}
