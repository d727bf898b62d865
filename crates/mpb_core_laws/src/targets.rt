//! Laws of the targets of messages, in the words of Intel SDM volume 3, section 10.6.2.4.

ghost use Rattle.std.specs.Prelude.{◌≡◌, Bool, true, false, List, [], ◌∷◌, map, filter};
ghost use Rattle.std.specs.List.{list_any};
ghost use Rattle.mpb_spec.specs.declared.apic.Aim.{Aim as AnAim};
ghost use Rattle.mpb_spec.specs.declared.apic.Delivery.{Delivery as ADelivery};
ghost use Rattle.mpb_spec.specs.Numbers.{IsAscending};
ghost use Rattle.mpb_spec.specs.State.{Processor as AProcessor, BoardState};
ghost use Rattle.mpb_spec.specs.Delivery.{is_ready, is_named, is_target, delivered, delivery_outcomes};
ghost use Rattle.mpb_core_laws.specs.Words.{IsOfLowestPriority};

/// Where some processor that a message of lowest priority names runs, the message has one target: of these
/// the one of the lowest processor priority, and among equals of the least id.
pub fn lowest_priority_has_one_target()
    ensures { (aim : AnAim) (ps : List AProcessor) → aim.lowest ≡ true → IsAscending (map (λ p. p.id) ps) → list_any (is_ready aim.at) ps ≡ true → (q : AProcessor) × (filter (is_target aim ps) ps ≡ q ∷ []) × IsOfLowestPriority aim.at ps q }
{}

/// Where none runs, the message is as if it weren't of lowest priority.
pub fn lowest_priority_wants_a_running_target()
    ensures state { (aim : AnAim) (d : ADelivery) (s : BoardState) → list_any (is_ready aim.at) s.processors ≡ false → delivered aim d s ≡ delivered (record { at = aim.at; lowest = false }) d s }
    ensures outcomes { (aim : AnAim) (d : ADelivery) (s : BoardState) → list_any (is_ready aim.at) s.processors ≡ false → delivery_outcomes aim d s ≡ delivery_outcomes (record { at = aim.at; lowest = false }) d s }
{}
