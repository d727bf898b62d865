//! Laws of a local APIC, in the words of Intel SDM volume 3, sections 10.8.3 to 10.8.5 and 10.6.2.2.

ghost use Rattle.std.specs.Prelude.{◌≡◌, ◌≢◌, ◌≤◌, ◌<◌, ◌↔◌, ◌/◌, ℕ, Bool, true, false, List, [], Some, None};
ghost use Rattle.std.specs.List.{AllByRecursion};
ghost use Rattle.mpb_spec.specs.Numbers.{has, with_number, without, greatest, IsAscending};
ghost use Rattle.mpb_spec.specs.LocalApic.{LocalApic as Apic, reset, ppr, next_vector, accepted, taken, ended, after_end, matches};
ghost use Rattle.mpb_core_laws.specs.Words.{IsOrdered, IsGreatest, SharesBit};

/// A set with or without a number has the other members that it had.
pub fn members_of_a_set()
    ensures with_itself { (v : ℕ) (xs : List ℕ) → has v (with_number v xs) ≡ true }
    ensures with_other { (u v : ℕ) (xs : List ℕ) → u ≢ v → has u (with_number v xs) ≡ has u xs }
    ensures without_itself { (v : ℕ) (xs : List ℕ) → has v (without v xs) ≡ false }
    ensures without_other { (u v : ℕ) (xs : List ℕ) → u ≢ v → has u (without v xs) ≡ has u xs }
{}

/// The greatest member of an ascending list is a member, and no member is above it; only the empty set
/// has none.
pub fn greatest_member_is_the_greatest()
    ensures some { (xs : List ℕ) (v : ℕ) → IsAscending xs → greatest xs ≡ Some v → IsGreatest v xs }
    ensures none { (xs : List ℕ) → greatest xs ≡ None → xs ≡ [] }
{}

/// Each list of a local APIC stays strictly ascending.
pub fn lists_stay_ascending()
    ensures reset { IsOrdered reset }
    ensures accepted { (a : Apic) (v : ℕ) (level : Bool) → IsOrdered a → IsOrdered (accepted v level a) }
    ensures taken { (a : Apic) → IsOrdered a → IsOrdered (taken a) }
    ensures after_end { (a : Apic) → IsOrdered a → IsOrdered (after_end a) }
{}

/// The processor priority never falls below the task priority, nor its class below that of a vector in
/// service.
pub fn priority_is_above_task_and_service()
    ensures task { (a : Apic) → a.tpr ≤ ppr a }
    ensures service { (a : Apic) → IsOrdered a → AllByRecursion (λ v. v / 16 ≤ ppr a / 16) a.isr }
{}

/// What is taken is the greatest vector that is requested, of a class above the processor priority's;
/// where nothing is, no requested vector is of such a class.
pub fn nothing_passes_the_priority()
    ensures some { (a : Apic) (v : ℕ) → IsOrdered a → next_vector a ≡ Some v → IsGreatest v a.irr }
    ensures class { (a : Apic) (v : ℕ) → next_vector a ≡ Some v → ppr a / 16 < v / 16 }
    ensures none { (a : Apic) → IsOrdered a → next_vector a ≡ None → AllByRecursion (λ v. v / 16 ≤ ppr a / 16) a.irr }
{}

/// An accepted interrupt is requested, and the vector's trigger is that of the last one that was accepted;
/// of other vectors neither changes. A vector below 16 changes nothing.
pub fn accepting_requests_the_vector()
    ensures irr { (a : Apic) (v : ℕ) (level : Bool) → 16 ≤ v → has v (accepted v level a).irr ≡ true }
    ensures tmr { (a : Apic) (v : ℕ) (level : Bool) → 16 ≤ v → has v (accepted v level a).tmr ≡ level }
    ensures others { (a : Apic) (u v : ℕ) (level : Bool) → u ≢ v → has u (accepted v level a).irr ≡ has u a.irr }
    ensures other_triggers { (a : Apic) (u v : ℕ) (level : Bool) → u ≢ v → has u (accepted v level a).tmr ≡ has u a.tmr }
    ensures illegal { (a : Apic) (v : ℕ) (level : Bool) → v < 16 → accepted v level a ≡ a }
{}

/// Accepting an interrupt changes neither what is in service nor the task priority.
pub fn accepting_leaves_service()
    ensures isr { (a : Apic) (v : ℕ) (level : Bool) → (accepted v level a).isr ≡ a.isr }
    ensures tpr { (a : Apic) (v : ℕ) (level : Bool) → (accepted v level a).tpr ≡ a.tpr }
{}

/// The end of the service of the vector that was taken gives that vector back, with its trigger, and
/// leaves in service what was before.
pub fn take_then_end_gives_the_vector_back()
    ensures vector { (a : Apic) (v : ℕ) → IsOrdered a → next_vector a ≡ Some v → ended (taken a) ≡ Some (v, has v a.tmr) }
    ensures service { (a : Apic) (v : ℕ) → IsOrdered a → next_vector a ≡ Some v → (after_end (taken a)).isr ≡ a.isr }
{}

/// A logical destination of 255 is everyone's. Another is a local APIC's own in the flat model where some
/// bit is set in both, and in the cluster model where bits 7:4 name its cluster and some bit of 3:0 is set
/// in both.
pub fn logical_destinations_are_by_bits()
    ensures everyone { (a : Apic) → matches 255 a ≡ true }
    ensures flat { (a : Apic) (dest : ℕ) → dest < 255 → a.dfr ≡ 15 → (matches dest a ≡ true) ↔ SharesBit 8 dest a.ldr }
    ensures cluster { (a : Apic) (dest : ℕ) → dest < 255 → a.dfr ≡ 0 → (matches dest a ≡ true) ↔ ((dest / 16 ≡ a.ldr / 16) × SharesBit 4 dest a.ldr) }
{}
