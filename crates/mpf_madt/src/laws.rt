//! Laws of the definitions, each the contract of a function that does nothing.

ghost use Rattle.std.specs.Prelude.{◌≡◌, ◌<◌, ℕ, List, Some};
ghost use Rattle.mpt_base.specs.Bytes.{IsByteList};
ghost use Rattle.mpf_madt.specs.declared.madt.Madt.{Madt as MadtOf};
ghost use Rattle.mpf_madt.specs.declared.refusal.MadtReason.{MadtReason as ReasonOf};
ghost use Rattle.mpt_route.specs.declared.platform.Platform.{Platform as PlatformOf};
ghost use Rattle.mpt_route.specs.declared.route.Answer.{Answer as AnswerOf};
ghost use Rattle.mpf_madt.specs.declared.line.Line.{Line as LineOf};
ghost use Rattle.mpf_madt.specs.Lines.{source_of, isa_of, Differs};
ghost use Rattle.mpf_madt.specs.Translation.{madt_of};
ghost use Rattle.mpf_madt.specs.Table.{IsMadt};
ghost use Rattle.mpf_madt.specs.Faults.{IsFirstMadtFault};
ghost use Rattle.mpf_madt.specs.Lawful.{IsLawfulMadt, IsMadtValue};
ghost use Rattle.mpf_madt.specs.Spelling.{madt_bytes};

/// Bytes are one table at most.
pub fn bytes_are_one_madt()
    ensures { (m n : MadtOf) (bytes : List ℕ) → IsMadt m bytes → IsMadt n bytes → m ≡ n }
{}

/// A table is one list of bytes at most.
pub fn madt_has_one_spelling()
    ensures { (m : MadtOf) (bytes others : List ℕ) → IsByteList bytes → IsByteList others
        → IsMadt m bytes → IsMadt m others → bytes ≡ others }
{}

/// The bytes that are written for a table are that table, and bytes that are a table are those that are
/// written for it.
pub fn madt_bytes_are_the_madt()
    ensures read { (m : MadtOf) → IsMadtValue m → IsLawfulMadt m → IsMadt m (madt_bytes m) }
    ensures written { (m : MadtOf) (bytes : List ℕ) → IsByteList bytes → IsMadt m bytes → bytes ≡ madt_bytes m }
{}

/// Bytes have one first fault at most, and those of a table have none.
pub fn first_madt_fault_is_one()
    ensures one { (bytes : List ℕ) (k j : ℕ) (w v : ReasonOf) → IsFirstMadtFault bytes k w
        → IsFirstMadtFault bytes j v → (k ≡ j) × (w ≡ v) }
    ensures none { (m : MadtOf) (bytes : List ℕ) (k : ℕ) (w : ReasonOf) → IsMadt m bytes
        → ¬ IsFirstMadtFault bytes k w }
{}

/// In the table of a platform and its routes each ISA interrupt that has a source has its line, so the
/// two differ nowhere.
pub fn translated_madt_has_the_sources()
    ensures lines { (p : PlatformOf) (answers : List AnswerOf) (irq : ℕ) (l : LineOf) → irq < 16
        → source_of p answers irq ≡ Some l → isa_of (madt_of p answers) irq ≡ l }
    ensures same { (p : PlatformOf) (answers : List AnswerOf) (irq : ℕ) → irq < 16
        → ¬ Differs p answers (madt_of p answers) irq }
{}
