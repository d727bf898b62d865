//! Whether a MADT has bytes: lawful opaque entries, and a size within the limit. Sums stand still at
//! the last value of a `u64`.

ghost use Rattle.std.specs.Prelude.{◌≡◌, ◌-◌, ◌^◌, ◌↔◌, min, IsTrue};
ghost use Rattle.std.specs.List.{AllByRecursion};
ghost use Rattle.mpf_madt.specs.Entries.{IsOtherType, entry_length};
ghost use Rattle.mpf_madt.specs.Lawful.{IsLawfulEntry, IsLawfulMadt, madt_size};

use crate::entries::{
    IO, IO_LENGTH, LOCAL, LOCAL_LENGTH, NMI, NMI_LENGTH, OVERRIDE, OVERRIDE_LENGTH,
};
use crate::madt::{Madt, MadtEntry};
use crate::reading::HEADER_LENGTH;

/// The most bytes that a table may have.
const GREATEST_SIZE: u64 = 1_048_576;

fn entry_length(entry: &MadtEntry) -> u64
    ensures { result ≡ min (entry_length entry.now) (2 ^ 64 - 1) }
{
    match entry {
        MadtEntry::Local { .. } => LOCAL_LENGTH as u64,
        MadtEntry::Io { .. } => IO_LENGTH as u64,
        MadtEntry::Override { .. } => OVERRIDE_LENGTH as u64,
        MadtEntry::Nmi { .. } => NMI_LENGTH as u64,
        MadtEntry::Other(other) => (other.rest.as_slice().len() as u64).saturating_add(2),
    }
}

/// The bytes of the table.
pub(crate) fn madt_size(madt: &Madt) -> u64
    ensures { result ≡ min (madt_size madt.now) (2 ^ 64 - 1) }
{
    let mut size = HEADER_LENGTH as u64;
    for entry in madt.entries.as_slice() {
        size = size.saturating_add(entry_length(entry));
    }
    size
}

// whether a type is left opaque
fn is_other_type(kind: u8) -> bool
    ensures { IsTrue result ↔ IsOtherType kind }
{
    kind != LOCAL && kind != IO && kind != OVERRIDE && kind != NMI
}

fn is_lawful_entry(entry: &MadtEntry) -> bool
    ensures { IsTrue result ↔ IsLawfulEntry entry.now }
{
    match entry {
        MadtEntry::Other(other) => is_other_type(other.kind) && other.rest.as_slice().len() <= 253,
        _ => true,
    }
}

fn are_lawful(entries: &[MadtEntry]) -> bool
    ensures { IsTrue result ↔ AllByRecursion IsLawfulEntry entries.now }
{
    entries.iter().all(|entry| is_lawful_entry(entry))
}

/// Whether the table has bytes: an entry of another type has none of the types 0, 1, 2 and 4 and a rest
/// of at most 253 bytes, and the table has at most 1,048,576 bytes.
pub fn madt_ok(madt: &Madt) -> bool
    ensures { IsTrue result ↔ IsLawfulMadt madt.now }
{
    are_lawful(madt.entries.as_slice()) && madt_size(madt) <= GREATEST_SIZE
}
