//! Journals in parts.

ghost use Rattle.std.specs.Prelude.{◌≡◌, List, [], ◌∷◌, ◌++◌, length, map, Some};
ghost use Rattle.mpb_spec.specs.declared.entry.Entry.{Entry as AnEntry};
ghost use Rattle.mpb_spec.specs.Plan.{Plan};
ghost use Rattle.mpb_spec.specs.Journal.{IsStep, IsLegal, after_entry, final_state_of};
ghost use Rattle.mpb_spec.specs.May.{MayAny};
ghost use Rattle.mpb_spec.specs.declared.agent.Agent.{Agent as AnAgent};
ghost use Rattle.mpb_spec.specs.declared.agent.Offer.{Offer as AnOffer};
ghost use Rattle.mpb_spec.specs.declared.agent.Op.{Op as AnOp};
ghost use Rattle.mpb_spec.specs.Configs.{IsConfig, IsModelledBy};
ghost use Rattle.mpb_spec.specs.Steps.{next_op};

/// A step from where a legal journal ends goes on with it.
#[tactic(auto, using(crate::proofs::JournalLemmas::goes_on, crate::proofs::JournalLemmas::state_after))]
pub fn steps_go_on()
    ensures legal { (c : Plan) (journal : List AnEntry) (x : AnEntry) → IsLegal c journal → IsStep (final_state_of c journal) x → IsLegal c (journal ++ x ∷ []) }
    ensures state { (c : Plan) (journal : List AnEntry) (x : AnEntry) → final_state_of c (journal ++ x ∷ []) ≡ after_entry (final_state_of c journal) x }
{}

/// A first part of a legal journal is legal.
#[tactic(auto, using(crate::proofs::JournalLemmas::first_part))]
pub fn first_parts_are_legal()
    ensures { (c : Plan) (seen rest : List AnEntry) → IsLegal c (seen ++ rest) → IsLegal c seen }
{}

/// In a legal journal each entry is a step from where those before it end, so its agent may step there.
#[tactic(auto, using(crate::proofs::JournalLemmas::next_step, crate::proofs::JournalLemmas::next_may))]
pub fn entries_are_steps_after_those_before()
    ensures step { (c : Plan) (seen : List AnEntry) (x : AnEntry) (rest : List AnEntry) → IsLegal c (seen ++ x ∷ rest) → IsStep (final_state_of c seen) x }
    ensures may { (c : Plan) (seen : List AnEntry) (x : AnEntry) (rest : List AnEntry) → IsLegal c (seen ++ x ∷ rest) → MayAny (final_state_of c seen) x.agent }
{}

/// No step changes which processors there are, nor how many I/O APICs and devices.
#[tactic(auto, using(crate::proofs::PartsStay::ids_stay, crate::proofs::PartsStay::places_stay, crate::proofs::PartsStay::devices_stay))]
pub fn parts_stay()
    ensures processors { (c : Plan) (journal : List AnEntry) → map (λ p. p.id) (final_state_of c journal).processors ≡ map (λ p. p.id) c.cpus }
    ensures places { (c : Plan) (journal : List AnEntry) → length (final_state_of c journal).places ≡ length c.ios }
    ensures devices { (c : Plan) (journal : List AnEntry) → length (final_state_of c journal).devices ≡ length c.devices }
{}

/// In a journal of a config no processor sets another model of logical destinations than flat and cluster.
pub fn models_are_flat_or_cluster()
    ensures { (c : Plan) (journal : List AnEntry) (g : AnAgent) (f : AnOffer) (o : AnOp) → IsConfig c → next_op (final_state_of c journal) g f ≡ Some o → IsModelledBy g o }
{}
