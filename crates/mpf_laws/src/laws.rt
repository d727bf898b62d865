//! The laws. A number in them is any number; that bytes are bytes is a premise where it matters.

ghost use Rattle.std.specs.Prelude.{◌≡◌, ◌≤◌, ◌⊎◌, ℕ, List, length};
ghost use Rattle.mpt_spec.specs.declared.tables.Tables.{Tables};
ghost use Rattle.mpt_spec.specs.Canonical.{IsWellFormed};
ghost use Rattle.mpt_spec.specs.Values.{IsTablesValue};
ghost use Rattle.mpt_route.specs.declared.platform.Platform.{Platform};
ghost use Rattle.mpt_route.specs.Platform.{platform_of};
ghost use Rattle.mpt_route.specs.Routes.{routes_of};
ghost use Rattle.mpf_madt.specs.Translation.{madt_of};
ghost use Rattle.mpf_pir.specs.declared.table.Pir.{Pir};
ghost use Rattle.mpf_pir.specs.declared.table.PirReason.{PirReason};
ghost use Rattle.mpf_pir.specs.Layout.{IsPir};
ghost use Rattle.mpf_pir.specs.Faults.{IsFirstPirFault};
ghost use Rattle.mpf_pir.specs.Made.{pir_of};
ghost use Rattle.mpf_laws.specs.Laws.{HasMadt, HasFirstMadtFault, HasPir, HasFirstPirFault, HasDifferences, HasMadtBytes, HasPirBytes, HasPlaceInPir};

/// Every list of bytes is a MADT, or has a first fault.
pub fn bytes_are_a_madt_or_refused()
    ensures { (bytes : List ℕ) → HasMadt bytes ⊎ HasFirstMadtFault bytes }
{}

/// Every list of bytes is a PCI IRQ routing table, or has a first fault.
pub fn bytes_are_a_pir_or_refused()
    ensures { (bytes : List ℕ) → HasPir bytes ⊎ HasFirstPirFault bytes }
{}

/// Bytes have one first fault at most, and those of a table have none.
pub fn first_pir_fault_is_one()
    ensures one { (bytes : List ℕ) (k j : ℕ) (w v : PirReason) → IsFirstPirFault bytes k w
        → IsFirstPirFault bytes j v → (k ≡ j) × (w ≡ v) }
    ensures none { (t : Pir) (bytes : List ℕ) (k : ℕ) (w : PirReason) → IsPir t bytes
        → ¬ IsFirstPirFault bytes k w }
{}

/// A platform and a table have a list of differences.
pub fn differences_are_there()
    ensures { (p : Platform) (t : Pir) → HasDifferences p t }
{}

/// The MADT of well formed tables of at most 255 processors has bytes.
pub fn translated_madt_has_bytes()
    ensures { (t : Tables) (elcr : ℕ) → IsTablesValue t → IsWellFormed t
        → length (platform_of t).processors ≤ 255
        → HasMadtBytes (madt_of (platform_of t) (routes_of (platform_of t) elcr)) }
{}

/// The PCI IRQ routing table of tables whose devices and wires have place in one has bytes.
pub fn made_pir_has_bytes()
    ensures { (t : Tables) → IsTablesValue t → HasPlaceInPir (platform_of t)
        → HasPirBytes (pir_of (platform_of t)) }
{}
