//! Worked examples of the definitions: what they say of small tables and images whose bytes are written
//! out by hand. An example is the contract of a function that does nothing.

ghost use Rattle.std.specs.Prelude.{◌≡◌, ℕ, ◌+◌, [], ◌∷◌, ◌++◌, length, replicate};
ghost use Rattle.mpt_spec.specs.declared.tables.Body.TheVariants as body;
ghost use Rattle.std.specs.List.{flat_map};
ghost use Rattle.mpt_base.specs.declared.fault.Reason.TheVariants as why;
ghost use Rattle.mpt_spec.specs.Search.{areas_of, places_in};
ghost use Rattle.mpt_spec.specs.Table.{Describes};
ghost use Rattle.mpt_spec.specs.Faults.{IsFirstFault};
ghost use Rattle.mpt_spec.specs.Canonical.{IsCanonical, FitsInImage, canonical_of, raised_of, block_size};
ghost use Rattle.mpt_spec.specs.Image.{table_bytes, body_bytes, pointer_bytes};
ghost use Rattle.mpt_laws.specs.Examples.{one_processor, one_processor_bytes, header_of, header_with, entry_with, old_table, old_table_bytes, old_image, old_tables, small_pointer, small_pointer_bytes, small_image_with, small_image, small_tables, extended_tables, default_image, default_tables, placed, second_place_image, second_place_tables, board_tables, board_pointer_bytes};

/// A table of one processor and floating pointers to it at 510h and F0010h have the bytes that the figures of chapter 4 give.
pub fn bytes_of_one_processor()
    ensures table { table_bytes one_processor ≡ one_processor_bytes }
    ensures pointer { pointer_bytes small_pointer ≡ small_pointer_bytes }
    ensures high_pointer { pointer_bytes board_tables.pointer ≡ board_pointer_bytes }
{}

/// The small image of 1,360 bytes describes that table.
pub fn small_image_describes_its_table()
    ensures size { length small_image ≡ 1360 }
    ensures describes { Describes small_image small_tables }
{}

/// An image with a floating pointer and a table of revision 1 describes them, with bytes 40 to 43 as they
/// are, though as lengths they would pass the image. Raised, the tables are those of the small image;
/// their canonical form has zero there.
pub fn tables_of_revision_1()
    ensures bytes { table_bytes old_table ≡ old_table_bytes }
    ensures describes { Describes old_image old_tables }
    ensures raised { raised_of old_tables ≡ small_tables }
    ensures canonical { canonical_of old_tables ≡ record old_tables { body = body.Listed (record old_table { old = replicate 4 0 }) } }
{}

/// The tables of a usual board take 260 bytes, are canonical and have a place in an image of 1 MiB.
pub fn board_is_canonical()
    ensures bytes { length (body_bytes board_tables.body) ≡ 260 }
    ensures size { block_size board_tables.body ≡ 260 }
    ensures canonical { IsCanonical board_tables }
    ensures unchanged { canonical_of board_tables ≡ board_tables }
    ensures fits { FitsInImage board_tables }
{}

/// A block of 64 bytes has a place from 500h on, up to 100000h, and beside the sixteen bytes of the
/// floating pointer.
pub fn bounds_of_a_block()
    ensures from_500h { FitsInImage (placed 0x600 0x500) }
    ensures not_below { ¬ FitsInImage (placed 0x600 0x4FF) }
    ensures to_1_mib { FitsInImage (placed 0x500 0xFFFC0) }
    ensures not_above { ¬ FitsInImage (placed 0x500 0xFFFC1) }
    ensures before_the_pointer { FitsInImage (placed 0x600 0x5C0) }
    ensures not_on_its_first_byte { ¬ FitsInImage (placed 0x600 0x5C1) }
    ensures behind_the_pointer { FitsInImage (placed 0x600 0x610) }
    ensures not_on_its_last_byte { ¬ FitsInImage (placed 0x600 0x60F) }
{}

/// A floating pointer has a place at the multiples of 16 from 500h to FFFF0h. One that names a default
/// configuration from 1 to 7 may hold any address.
pub fn bounds_of_a_pointer()
    ensures from_500h { FitsInImage (placed 0x500 0x600) }
    ensures not_below { ¬ FitsInImage (placed 0x4F0 0x600) }
    ensures to_ffff0h { FitsInImage (placed 0xFFFF0 0x600) }
    ensures not_above { ¬ FitsInImage (placed 0x100000 0x600) }
    ensures not_between { ¬ FitsInImage (placed 0x508 0x600) }
    ensures default_7 { FitsInImage (default_tables 7) }
    ensures not_default_8 { ¬ FitsInImage (default_tables 8) }
    ensures any_address { (address : ℕ) → FitsInImage (record (default_tables 1) { pointer = record (default_tables 1).pointer { address = address } }) }
{}

/// A pointer may name a default configuration, a table may have an opaque extended entry, and a place
/// at which a byte of the floating pointer is wrong is passed over.
pub fn other_images_describe_their_tables()
    ensures default_configuration { Describes (default_image 5 0x9B) (default_tables 5) }
    ensures opaque_entry { Describes (small_image_with (header_with 0x40 0x61 1 2 0x36 ++ entry_with 0 ++ 0xC8 ∷ 2 ∷ [])) extended_tables }
    ensures second_place { Describes second_place_image second_place_tables }
{}

/// The search in an image of 1 MiB: the first kilobyte of the EBDA, or the last kilobyte of base memory
/// of 640 KiB, has 64 places, and the BIOS read-only memory has 4,096.
pub fn places_of_a_whole_image()
    ensures ebda { length (flat_map places_in (areas_of 0x9FC0 0 0x100000)) ≡ 64 + 4096 }
    ensures base_memory { areas_of 0 640 0x100000 ≡ areas_of 0x9FC0 640 0x100000 }
    ensures neither { length (flat_map places_in (areas_of 0 0 0x100000)) ≡ 4096 }
    ensures cut { length (flat_map places_in (areas_of 0x50 0 1360)) ≡ 5 }
{}

/// A number of a default configuration above 7, and neither a default configuration nor a table.
pub fn faults_of_the_pointer()
    ensures bad_default { IsFirstFault (default_image 8 0x98) 0x50B why.BadDefault }
    ensures no_table { IsFirstFault (default_image 0 0xA0) 0x504 why.NoTable }
{}

/// A base length of 43, whose sum isn't looked at; a revision of 2; a wrong checksum; an entry count of 2
/// for one entry.
pub fn faults_of_the_header()
    ensures short_length { IsFirstFault (small_image_with (header_with 43 0x99 1 0 0 ++ entry_with 0)) 0x514 why.ShortLength }
    ensures unknown_revision { IsFirstFault (small_image_with (header_of 2 0x40 0x9B 1 (0 ∷ 0 ∷ 0 ∷ 0 ∷ []) ++ entry_with 0)) 0x516 why.BadRevision }
    ensures bad_sum { IsFirstFault (small_image_with (header_with 0x40 0x9A 1 0 0 ++ entry_with 0)) 0x517 why.BadSum }
    ensures bad_count { IsFirstFault (small_image_with (header_with 0x40 0x98 2 0 0 ++ entry_with 0)) 0x532 why.BadCount }
{}

/// A base length that is one byte short, a base entry of type 5, an extended entry of type 7Fh, and one
/// byte of an extended entry.
pub fn faults_of_the_entries()
    ensures cut_entry { IsFirstFault (small_image_with (header_with 63 0x9A 1 0 0 ++ entry_with 0)) 0x53C why.CutEntry }
    ensures unknown_entry { IsFirstFault (small_image_with (header_with 0x40 0x94 1 0 0 ++ entry_with 5)) 0x53C why.UnknownEntry }
    ensures bad_ext_type { IsFirstFault (small_image_with (header_with 0x40 0x18 1 2 0x7F ++ entry_with 0 ++ 0x7F ∷ 2 ∷ [])) 0x550 why.BadExtType }
    ensures cut_ext_entry { IsFirstFault (small_image_with (header_with 0x40 0x60 1 1 0x38 ++ entry_with 0 ++ 0xC8 ∷ [])) 0x550 why.CutExtEntry }
{}
