//! Laws of the definitions, in the words of MultiProcessor Specification 1.4, chapter 4. A law is the
//! contract of a function that does nothing: it holds of every area, image and table.

ghost use Rattle.std.specs.Prelude.{◌≡◌, ◌≢◌, ◌+◌, ◌≤◌, ◌<◌, ◌^◌, ◌↔◌, ◌⊎◌, ℕ, List, ◌++◌, length, slice_index};
ghost use Rattle.std.specs.List.{Contains};
ghost use Rattle.std.specs.Int.{to_le_bytes, w16, w32, w64};
ghost use Rattle.mpt_base.specs.Bytes.{number_at, part};
ghost use Rattle.mpt_base.specs.Writing.{overlay};
ghost use Rattle.mpt_base.specs.declared.fault.Reason.{Reason};
ghost use Rattle.mpt_spec.specs.declared.entry.Base.{Base};
ghost use Rattle.mpt_spec.specs.declared.entry.Ext.{Ext};
ghost use Rattle.mpt_spec.specs.declared.pointer.Area.{Area};
ghost use Rattle.mpt_spec.specs.declared.pointer.Pointer.{Pointer};
ghost use Rattle.mpt_spec.specs.declared.tables.Table.{Table};
ghost use Rattle.mpt_spec.specs.declared.tables.Tables.{Tables};
ghost use Rattle.mpt_spec.specs.Pointer.{IsFloatingPointer};
ghost use Rattle.mpt_spec.specs.Search.{places_in, IsFirstPointerAt, HasNoPointer};
ghost use Rattle.mpt_spec.specs.Entries.{IsBaseEntryAt, base_length};
ghost use Rattle.mpt_spec.specs.Extended.{IsExtEntryAt, ext_length};
ghost use Rattle.mpt_spec.specs.Canonical.{IsLawfulExt, IsWellFormedTable, IsWellFormed, FitsInImage, IsCanonical, canonical_of, raised_of, block_size};
ghost use Rattle.mpt_spec.specs.Table.{IsConfigurationTable, Describes};
ghost use Rattle.mpt_spec.specs.Faults.{HasTableFaultAt, HasFaultAt, IsFirstFault};
ghost use Rattle.mpt_spec.specs.Image.{base_bytes, ext_bytes, table_bytes, pointer_bytes, image_of};
ghost use Rattle.mpt_base.specs.Bytes.{IsByteList};
ghost use Rattle.mpt_spec.specs.Values.{IsBaseValue, IsExtValue, IsPointerValue, IsTableValue, IsTablesValue};
ghost use Rattle.mpt_laws.specs.Laws.{IsPlaceOf, HasEndOf1_4, HasEndOf1_1, IsOfExtPart, IsDescribed, HasFirstFault};

/// The places of an area are the multiples of 16 in it that have 16 bytes before its end.
pub fn places_of_an_area()
    ensures { (area : Area) (place : ℕ) → Contains (places_in area) place ↔ IsPlaceOf area place }
{}

/// The search has at most one first place, and has none where no floating pointer stands.
pub fn first_place_is_one()
    ensures one { (image : List ℕ) (at other : ℕ) → IsFirstPointerAt image at → IsFirstPointerAt image other → at ≡ other }
    ensures not_none { (image : List ℕ) (at : ℕ) → IsFirstPointerAt image at → ¬ HasNoPointer image }
{}

/// Sixteen bytes are one floating pointer.
pub fn pointer_of_bytes_is_one()
    ensures { (p q : Pointer) (bytes : List ℕ) → IsFloatingPointer p bytes → IsFloatingPointer q bytes → p ≡ q }
{}

/// A number that is put low byte first into bytes is the number there, and all other bytes stay.
pub fn put_number_is_there()
    ensures two { (n : ℕ) (bytes : List ℕ) (at : ℕ) → n < 2 ^ 16 → at + 2 ≤ length bytes → number_at 2 (overlay bytes at (to_le_bytes w16 n)) at ≡ n }
    ensures four { (n : ℕ) (bytes : List ℕ) (at : ℕ) → n < 2 ^ 32 → at + 4 ≤ length bytes → number_at 4 (overlay bytes at (to_le_bytes w32 n)) at ≡ n }
    ensures eight { (n : ℕ) (bytes : List ℕ) (at : ℕ) → n < 2 ^ 64 → at + 8 ≤ length bytes → number_at 8 (overlay bytes at (to_le_bytes w64 n)) at ≡ n }
    ensures before { (piece bytes : List ℕ) (at i n : ℕ) → at + length piece ≤ length bytes → i + n ≤ at → part (overlay bytes at piece) i n ≡ part bytes i n }
    ensures behind { (piece bytes : List ℕ) (at i n : ℕ) → at + length piece ≤ length bytes → at + length piece ≤ i → part (overlay bytes at piece) i n ≡ part bytes i n }
{}

/// The bytes that are written for an entry are that entry, wherever they stand.
pub fn written_entry_is_there()
    ensures base { (e : Base) (before after : List ℕ) (at : ℕ) → IsBaseValue e → length before ≡ at → IsBaseEntryAt e (before ++ (base_bytes e ++ after)) at }
    ensures ext { (e : Ext) (before after : List ℕ) (at : ℕ) → IsExtValue e → IsLawfulExt e → length before ≡ at → IsExtEntryAt e (before ++ (ext_bytes e ++ after)) at }
{}

/// The bytes that are written for a table with the fields of its revision, 1 or 4, whose parts have lengths that 16 bits can say,
/// are that table, wherever they stand.
pub fn written_table_is_there()
    ensures { (t : Table) (before after : List ℕ) (at : ℕ) → IsTableValue t → IsWellFormedTable t → length before ≡ at → IsConfigurationTable t (before ++ (table_bytes t ++ after)) at }
{}

/// A table is one of revision 4, or one of revision 1, which keeps bytes 40 to 43 and has no extended
/// entries.
pub fn table_has_the_end_of_its_revision()
    ensures { (t : Table) (image : List ℕ) (at : ℕ) → IsConfigurationTable t image at → HasEndOf1_4 t image at ⊎ HasEndOf1_1 t image at }
{}

/// The bytes that are written for a table of revision 1 have its bytes 40 to 43, those of the image in
/// which it stands.
pub fn table_of_revision_1_keeps_its_old_bytes()
    ensures kept { (t : Table) → IsTableValue t → IsWellFormedTable t → t.revision ≡ 1 → part (table_bytes t) 40 4 ≡ t.old }
    ensures back { (t : Table) (image : List ℕ) (at : ℕ) → IsByteList image → IsConfigurationTable t image at → t.revision ≡ 1 → part (table_bytes t) 40 4 ≡ part image (at + 40) 4 }
{}

/// At revision 1 nothing of the extended part is refused.
pub fn faults_of_the_extended_part()
    ensures { (image : List ℕ) (at k : ℕ) (why : Reason) → IsOfExtPart why → HasTableFaultAt image at k why → slice_index image (at + 6) ≢ 1 }
{}

/// The bytes that are written for a floating pointer are that floating pointer.
pub fn written_pointer_is_there()
    ensures { (p : Pointer) → IsPointerValue p → IsFloatingPointer p (pointer_bytes p) }
{}

/// What stands in an image of bytes is spelled in one way: an entry, a table and a floating pointer have
/// there the bytes that are written for them.
pub fn spelling_is_one()
    ensures base { (e : Base) (image : List ℕ) (at : ℕ) → IsByteList image → at + base_length e ≤ length image → IsBaseEntryAt e image at → part image at (length (base_bytes e)) ≡ base_bytes e }
    ensures ext { (e : Ext) (image : List ℕ) (at : ℕ) → IsByteList image → at + ext_length e ≤ length image → IsExtEntryAt e image at → part image at (length (ext_bytes e)) ≡ ext_bytes e }
    ensures table { (t : Table) (image : List ℕ) (at : ℕ) → IsByteList image → IsConfigurationTable t image at → part image at (length (table_bytes t)) ≡ table_bytes t }
    ensures pointer { (p : Pointer) (bytes : List ℕ) → IsByteList bytes → IsFloatingPointer p bytes → bytes ≡ pointer_bytes p }
{}

/// The image that is written for tables that have a place in it is one of 1 MiB that describes them.
pub fn written_image_describes_its_tables()
    ensures size { (tables : Tables) → IsTablesValue tables → FitsInImage tables → length (image_of tables) ≡ 0x100000 }
    ensures describes { (tables : Tables) → IsTablesValue tables → FitsInImage tables → Describes (image_of tables) tables }
{}

/// What stands at a place of an image is one configuration table at most, and an image describes at
/// most one pointer and body.
pub fn tables_of_image_are_one()
    ensures table { (t u : Table) (image : List ℕ) (at : ℕ) → IsConfigurationTable t image at → IsConfigurationTable u image at → t ≡ u }
    ensures tables { (image : List ℕ) (t u : Tables) → Describes image t → Describes image u → t ≡ u }
{}

/// An image has at most one first fault.
pub fn first_fault_is_one()
    ensures { (image : List ℕ) (k j : ℕ) (why other : Reason) → IsFirstFault image k why → IsFirstFault image j other → (k ≡ j) × (why ≡ other) }
{}

/// Every image has no floating pointer at a place of the search, describes tables, or has a first fault.
pub fn image_is_described_or_refused()
    ensures { (image : List ℕ) → HasNoPointer image ⊎ (IsDescribed image ⊎ HasFirstFault image) }
{}

/// The first fault of an image lies in it.
pub fn first_fault_lies_inside()
    ensures { (image : List ℕ) (k : ℕ) (why : Reason) → IsFirstFault image k why → k < length image }
{}

/// Where an image describes tables, no fault stands at their pointer, and so none is the first.
pub fn described_image_has_no_fault()
    ensures none_stands { (image : List ℕ) (t : Tables) (k : ℕ) (why : Reason) → Describes image t → ¬ HasFaultAt image t.at k why }
    ensures none_first { (image : List ℕ) (t : Tables) (k : ℕ) (why : Reason) → Describes image t → ¬ IsFirstFault image k why }
{}

/// Tables that an image of bytes describes are well formed, their fields fit, and their floating pointer
/// lies below 4 GiB.
pub fn described_tables_are_well_formed()
    ensures well_formed { (image : List ℕ) (tables : Tables) → IsByteList image → Describes image tables → IsWellFormed tables }
    ensures values { (image : List ℕ) (tables : Tables) → IsByteList image → Describes image tables → IsTablesValue tables }
    ensures below_4_gib { (image : List ℕ) (tables : Tables) → IsByteList image → Describes image tables → tables.at < 2 ^ 32 }
{}

/// The canonical form is canonical and its own canonical form. Canonical tables are theirs. Its fields
/// fit where those of the tables do, and it has a place in an image exactly where the tables have.
pub fn canonical_form_is_canonical()
    ensures canonical { (tables : Tables) → IsCanonical (canonical_of tables) }
    ensures twice { (tables : Tables) → canonical_of (canonical_of tables) ≡ canonical_of tables }
    ensures unchanged { (tables : Tables) → IsTablesValue tables → IsCanonical tables → canonical_of tables ≡ tables }
    ensures values { (tables : Tables) → IsTablesValue tables → IsTablesValue (canonical_of tables) }
    ensures fits { (tables : Tables) → FitsInImage (canonical_of tables) ↔ FitsInImage tables }
{}

/// Raised tables have both revisions 4, and are as raised as they can be. Well formed tables are so when
/// they are raised, and have a place in an image exactly where the raised ones have; their block has as
/// many bytes.
pub fn raised_tables_are_raised()
    ensures twice { (tables : Tables) → raised_of (raised_of tables) ≡ raised_of tables }
    ensures well_formed { (tables : Tables) → IsWellFormed tables → IsWellFormed (raised_of tables) }
    ensures fits { (tables : Tables) → IsWellFormed tables → FitsInImage (raised_of tables) ↔ FitsInImage tables }
    ensures values { (tables : Tables) → IsTablesValue tables → IsTablesValue (raised_of tables) }
    ensures size { (tables : Tables) → block_size (raised_of tables).body ≡ block_size tables.body }
{}
