//! Laws of the state that a journal leaves.

ghost use Rattle.std.specs.Prelude.{List};
ghost use Rattle.std.specs.List.{AllByRecursion};
ghost use Rattle.mpb_spec.specs.declared.entry.Entry.{Entry as AnEntry};
ghost use Rattle.mpb_spec.specs.Plan.{Plan};
ghost use Rattle.mpb_spec.specs.Journal.{final_state_of};
ghost use Rattle.mpb_core_laws.specs.Words.{IsOrdered, HoldsBytes, NamesByte, IsQuietWhereMasked};

/// In the state that a journal leaves, each list of each local APIC is strictly ascending.
#[tactic(auto, using(crate::proofs::BoardLaws::sets_ascend))]
pub fn lists_of_a_board_ascend()
    ensures { (c : Plan) (journal : List AnEntry) → AllByRecursion (λ p. IsOrdered p.apic) (final_state_of c journal).processors }
{}

/// Where the processors' messages name vectors below 256, no list has a member above 255.
#[tactic(auto, using(crate::proofs::BoardLaws::vectors_are_bytes))]
pub fn vectors_of_a_board_are_bytes()
    ensures { (c : Plan) (journal : List AnEntry) → AllByRecursion (λ x. NamesByte x.op) journal → AllByRecursion (λ p. HoldsBytes p.apic) (final_state_of c journal).processors }
{}

/// No masked pin is due: a write that masks a pin withdraws its message, also on an edge pin.
#[tactic(auto, using(crate::proofs::BoardLaws::masked_are_quiet))]
pub fn masked_pins_of_a_board_are_never_due()
    ensures { (c : Plan) (journal : List AnEntry) → AllByRecursion (λ p. AllByRecursion IsQuietWhereMasked p.chip.pins) (final_state_of c journal).places }
{}
