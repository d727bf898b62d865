//! Laws of an I/O APIC, in the words of the 82093AA datasheet: bit n of a mask is that of pin n.

ghost use Rattle.std.specs.Prelude.{◌≡◌, ◌≢◌, ◌==◌, ◌<◌, ◌-◌, ℕ, Bool, true, false, not, ◌&&◌, List, [], Some, None, length, slice_get, option_map, map};
ghost use Rattle.std.specs.Int.{bit_at};
ghost use Rattle.std.specs.List.{AllByRecursion};
ghost use Rattle.mpb_spec.specs.declared.apic.Message.{Message as AMessage};
ghost use Rattle.mpb_spec.specs.declared.apic.Pin.{Pin as APin};
ghost use Rattle.mpb_spec.specs.IoApic.{is_masked, is_level, vector_of, reset_pin, with_low, with_high, with_line, with_pulse, with_sent, with_eoi, takes_pulse, pulsed, pulsed_due, pulsed_joined, mask_by, change_pin, next_due_from};
ghost use Rattle.mpb_spec.specs.Steps.{all_left, left_after};
ghost use Rattle.mpb_core_laws.specs.Words.{has_bit, where_named, IsDueLeast, IsQuietWhereMasked};

/// A change of a pin changes that pin alone.
pub fn one_pin_changes()
    ensures itself { (f : APin → APin) (pins : List APin) (n : ℕ) → slice_get (change_pin n f pins) n ≡ option_map f (slice_get pins n) }
    ensures others { (f : APin → APin) (pins : List APin) (n k : ℕ) → n ≢ k → slice_get (change_pin n f pins) k ≡ slice_get pins k }
{}

/// A collection pulses pin n exactly where bit n of its mask is set. Bit n of its answers tells whether
/// that pin became due, and whether it was due.
pub fn collection_is_by_bits()
    ensures pins { (mask n : ℕ) (pins : List APin) → slice_get (pulsed mask pins) n ≡ option_map (λ p. where_named (has_bit mask n) p) (slice_get pins n) }
    ensures due { (mask n : ℕ) (pins : List APin) (p : APin) → slice_get pins n ≡ Some p → has_bit (pulsed_due mask pins) n ≡ (has_bit mask n && (takes_pulse p && not p.due)) }
    ensures joined { (mask n : ℕ) (pins : List APin) (p : APin) → slice_get pins n ≡ Some p → has_bit (pulsed_joined mask pins) n ≡ (has_bit mask n && (takes_pulse p && p.due)) }
{}

/// Bit n of a mask over the pins is the test's answer at pin n.
pub fn masks_are_by_bits()
    ensures mask { (f : APin → Bool) (n : ℕ) (pins : List APin) (p : APin) → slice_get pins n ≡ Some p → has_bit (mask_by f pins) n ≡ f p }
{}

/// The pins that are left to collect: a collection names only pins that are there and whose count isn't 0,
/// and takes one of each that it names.
pub fn collections_left_are_by_bits()
    ensures named { (mask n k : ℕ) (left : List ℕ) → all_left mask left ≡ true → slice_get left n ≡ Some k → has_bit mask n ≡ true → 0 < k }
    ensures beyond { (mask n : ℕ) (left : List ℕ) → all_left mask left ≡ true → slice_get left n ≡ None → has_bit mask n ≡ false }
    ensures spent { (mask n : ℕ) (left : List ℕ) → slice_get (left_after mask left) n ≡ option_map (λ k. k - bit_at mask n) (slice_get left n) }
{}

/// The message that is sent next is that of the least due pin; where there is none, no pin is due.
pub fn next_message_is_of_the_least_due_pin()
    ensures some { (pins : List APin) (m : AMessage) → next_due_from 0 pins ≡ Some m → IsDueLeast m pins }
    ensures none { (pins : List APin) → next_due_from 0 pins ≡ None → AllByRecursion (λ p. p.due ≡ false) pins }
{}

/// A masked pin is never due.
pub fn masked_pin_is_never_due()
    ensures reset { IsQuietWhereMasked reset_pin }
    ensures low { (p : APin) (value : ℕ) → IsQuietWhereMasked (with_low value p) }
    ensures high { (p : APin) (value : ℕ) → IsQuietWhereMasked p → IsQuietWhereMasked (with_high value p) }
    ensures line { (p : APin) (is_high : Bool) → IsQuietWhereMasked p → IsQuietWhereMasked (with_line is_high p) }
    ensures pulse { (p : APin) → IsQuietWhereMasked p → IsQuietWhereMasked (with_pulse p) }
    ensures sent { (p : APin) (accepted : Bool) → IsQuietWhereMasked (with_sent accepted p) }
    ensures eoi { (p : APin) (vector : ℕ) → IsQuietWhereMasked p → IsQuietWhereMasked (with_eoi vector p) }
{}

/// A level pin whose message was accepted and whose line stays asserted is due again after the end of that
/// interrupt, where it is unmasked. Before, no level of its line makes it due.
pub fn asserted_level_pin_is_due_again()
    ensures again { (p : APin) → is_level p ≡ true → is_masked p ≡ false → p.line ≡ true → (with_eoi (vector_of p) (with_sent true p)).due ≡ true }
    ensures not_before { (p : APin) (is_high : Bool) → p.line ≡ true → (with_line is_high (with_sent true p)).due ≡ false }
    ensures cleared { (p : APin) → is_level p ≡ true → (with_eoi (vector_of p) p).remote ≡ false }
{}

/// A write of a low half leaves no remote IRR on an edge pin, and changes neither the line nor, of a level
/// pin, remote IRR.
pub fn write_of_a_low_half_settles_remote_irr()
    ensures edge { (p : APin) (value : ℕ) → is_level (with_low value p) ≡ false → (with_low value p).remote ≡ false }
    ensures level { (p : APin) (value : ℕ) → is_level (with_low value p) ≡ true → (with_low value p).remote ≡ p.remote }
    ensures line { (p : APin) (value : ℕ) → (with_low value p).line ≡ p.line }
{}
