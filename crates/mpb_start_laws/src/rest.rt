//! What the end of a complete journal is.

ghost use Rattle.std.specs.Prelude.{◌≡◌, ◌⊎◌, List, true};
ghost use Rattle.std.specs.List.{Contains};
ghost use Rattle.mpb_spec.specs.declared.entry.Entry.{Entry as AnEntry};
ghost use Rattle.mpb_spec.specs.State.{Processor, Place, Device, BoardState, runs, boot_is_through};
ghost use Rattle.mpb_spec.specs.Plan.{Plan};
ghost use Rattle.mpb_spec.specs.Configs.{IsConfig};
ghost use Rattle.mpb_spec.specs.May.{IsQuiescent};
ghost use Rattle.mpb_spec.specs.Journal.{IsComplete, final_state_of};
ghost use Rattle.mpb_start_laws.specs.Rest.{IsDone, AwaitsVector, HasEnded, IsSwept, IsAtRest};

/// At the end of a complete journal the boot processor has made its boot program.
#[tactic(auto, using(crate::proofs::BootStays::through))]
pub fn complete_boots_are_through()
    ensures { (c : Plan) (journal : List AnEntry) → IsConfig c → IsComplete c journal → boot_is_through (final_state_of c journal) ≡ true }
{}

/// There each processor that runs is at the end of its program, or at a Take with no vector to take; each
/// device is at the end of its program; each I/O APIC has swept, and no pin of it is due.
pub fn complete_boots_are_at_rest()
    ensures processors { (c : Plan) (journal : List AnEntry) → IsConfig c → IsComplete c journal → (p : Processor) → Contains (final_state_of c journal).processors p → runs p.life ≡ true → IsDone p ⊎ AwaitsVector p }
    ensures devices { (c : Plan) (journal : List AnEntry) → IsConfig c → IsComplete c journal → (d : Device) → Contains (final_state_of c journal).devices d → HasEnded d }
    ensures places { (c : Plan) (journal : List AnEntry) → IsConfig c → IsComplete c journal → (p : Place) → Contains (final_state_of c journal).places p → IsSwept p }
{}

/// In a state that is so, no agent may step with any offer.
#[tactic(auto, using(crate::proofs::Quiet::rest_is_quiet))]
pub fn boards_at_rest_are_quiet()
    ensures { (s : BoardState) → IsAtRest s → IsQuiescent s }
{}
