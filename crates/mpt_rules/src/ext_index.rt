//! What the rules look up among the extended entries, made once.

ghost use Rattle.std.specs.Prelude.{◌≡◌, ◌≤◌, ◌<◌, ◌↔◌, ℕ, length, IfOk, IsTrue, slice_index_or, None};
ghost use Rattle.mpt_rules.specs.Entries.{IsSoundRange, IsHierarchyOf};
ghost use Rattle.mpt_rules.specs.Index.{AreFirsts, NotesEntry, IsRangeOf, AreRanges, IsParent, IsExtIndexOf, parent_by};

use crate::places::{ByNumber, first_at, no_places, note};
use mpt_spec::{Ext, Space};
use std::alloc::{AllocError, Global};

/// A range of addresses that can meet another.
#[derive(Clone, Copy)]
pub struct Range {
    /// The kind of address.
    pub kind: u8,
    /// The first address.
    pub first: u64,
    /// The last address.
    pub last: u64,
}

/// What the rules look up among the extended entries.
#[derive(Drop)]
pub struct ExtIndex {
    /// The parent of each bus, by its first hierarchy entry.
    pub parents: [Option<u8>; 256],
    /// The range of each entry, where it is a sound one.
    pub ranges: Vec<Option<Range>>,
}

/// Whether a range has addresses, and none past 2^64.
pub fn is_sound(range: &Space) -> bool
    ensures { IsTrue result ↔ IsSoundRange range.now }
{
    range.length > 0 && u128::from(range.base) + u128::from(range.length) <= 1 << 64
}

fn range_of(entry: &Ext) -> Option<Range>
    ensures { IsRangeOf entry.now result }
{
    match entry {
        Ext::Space(e) => {
            if is_sound(e) {
                Some(Range {
                    kind: e.kind,
                    first: e.base,
                    last: e.base + (e.length - 1),
                })
            } else {
                None
            }
        }
        _ => None,
    }
}

fn ranges_of(alloc: Global, entries: &[Ext]) -> Result<Vec<Option<Range>>, AllocError>
    requires { length entries.now ≤ 65535 }
    ensures { IfOk result (λ ranges. AreRanges entries.now (length entries.now) ranges.items) }
{
    let Ok(mut ranges) = Vec::with_capacity(alloc, entries.len()) else {
        return Err(AllocError);
    };
    for i in 0..entries.len() {
        let Ok(()) = ranges.push(range_of(&entries[i])) else {
            return Err(AllocError);
        };
    }
    Ok(ranges)
}

// notes an entry, if it is a hierarchy entry
fn note_hierarchy(firsts: &mut ByNumber, entry: &Ext, i: u32)
    ensures { NotesEntry IsHierarchyOf firsts.old firsts.new entry.now i }
{
    match entry {
        Ext::Hierarchy(e) => note(firsts, e.bus, i),
        _ => (),
    }
}

fn hierarchies_of(entries: &[Ext]) -> ByNumber
    requires { length entries.now ≤ 65535 }
    ensures { AreFirsts IsHierarchyOf entries.now (length entries.now) result }
{
    let mut firsts = no_places();
    for i in 0..entries.len() {
        note_hierarchy(&mut firsts, &entries[i], i as u32);
    }
    firsts
}

fn parent_by(entry: &Ext) -> Option<u8>
    ensures { result ≡ parent_by entry.now }
{
    match entry {
        Ext::Hierarchy(e) => Some(e.parent),
        _ => None,
    }
}

fn parent_of(entries: &[Ext], firsts: &ByNumber, bus: u8) -> Option<u8>
    requires { AreFirsts IsHierarchyOf entries.now (length entries.now) firsts.now }
    ensures { IsParent entries.now bus result }
{
    match first_at(firsts, bus) {
        Some(k) => parent_by(&entries[k as usize]),
        None => None,
    }
}

fn parents_of(entries: &[Ext]) -> [Option<u8>; 256]
    requires { length entries.now ≤ 65535 }
    ensures { (bus : ℕ) → bus < 256 → IsParent entries.now bus (slice_index_or result bus None) }
{
    let firsts = hierarchies_of(entries);
    let mut parents = [None; 256];
    for bus in 0..256u32 {
        parents[bus as usize] = parent_of(entries, &firsts, bus as u8);
    }
    parents
}

/// What the rules look up among extended entries.
pub fn ext_index_of(alloc: Global, entries: &[Ext]) -> Result<ExtIndex, AllocError>
    requires { length entries.now ≤ 65535 }
    ensures { IfOk result (IsExtIndexOf entries.now) }
{
    let Ok(ranges) = ranges_of(alloc, entries) else {
        return Err(AllocError);
    };
    Ok(ExtIndex {
        parents: parents_of(entries),
        ranges,
    })
}
