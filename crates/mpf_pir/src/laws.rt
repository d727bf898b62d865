//! Laws of tables and differences, each the contract of a function that does nothing.

ghost use Rattle.mpf_pir.specs.Laws.{IsReadBack, IsWrittenBack, HasOneListOfDifferences, AgreesWithItsPlatform, ConnectsItsPins, LinksItsWires};

/// Bytes are one table at most: what was written is read as the same table.
pub fn table_is_one()
    ensures { IsReadBack }
{}

/// A table is one list of bytes: what was read is written as the same bytes.
pub fn bytes_are_one()
    ensures { IsWrittenBack }
{}

/// A platform and a table have one list of differences.
pub fn differences_are_one()
    ensures { HasOneListOfDifferences }
{}

/// The table that is made for a platform doesn't differ from it.
pub fn made_table_agrees()
    ensures { AgreesWithItsPlatform }
{}

/// It connects the pins of which the platform's entries speak, and no others.
pub fn made_table_connects()
    ensures { ConnectsItsPins }
{}

/// Two of these pins have one link exactly where they have one wire.
pub fn made_table_links()
    ensures { LinksItsWires }
{}
