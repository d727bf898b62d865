//! The rules on extended entries, one function each.

ghost use Rattle.std.specs.Prelude.{◌≡◌, ◌≤◌, ◌<◌, ◌↔◌, ℕ, length, IsTrue, Some, None, slice_get, slice_index_or};
ghost use Rattle.mpt_rules.specs.Places.{IsOther, IsFirstBefore};
ghost use Rattle.mpt_rules.specs.Entries.{HasReservedExtValue, PassesTop, MeetsRange};
ghost use Rattle.mpt_rules.specs.Rules.{BreaksExtRule, HasUnknownExtBus, IsInBusLoop, ReachesWithin};
ghost use Rattle.mpt_rules.specs.Index.{IsBaseIndexOf, IsExtIndexOf, AreRanges, IsRangeOf, HasRangeMet, IsParent};

use crate::base_index::BaseIndex;
use crate::ext_index::{ExtIndex, Range};
use crate::places::{alone, lacks};
use crate::rule::ExtRule;
use mpt_spec::{Base, Ext};

fn has_reserved_ext_value(entry: &Ext) -> bool
    ensures { IsTrue result ↔ HasReservedExtValue entry.now }
{
    match entry {
        Ext::Space(e) => e.kind > 2,
        Ext::Modifier(e) => e.ranges > 1,
        _ => false,
    }
}

fn passes_top(entry: &Ext) -> bool
    ensures { IsTrue result ↔ PassesTop entry.now }
{
    match entry {
        Ext::Space(e) => e.length > 0 && u128::from(e.base) + u128::from(e.length) > 1 << 64,
        _ => false,
    }
}

fn meets(a: &Range, b: &Option<Range>) -> bool
    ensures { IsTrue result ↔ HasRangeMet a.now b.now }
{
    match b {
        // what tells most ranges apart comes first: this is asked of all pairs
        Some(b) => a.first <= b.last && b.first <= a.last && a.kind == b.kind,
        None => false,
    }
}

// the first range before a place that meets this one
fn first_meeting(
    entries: &[Ext],
    ranges: &[Option<Range>],
    entry: &Ext,
    range: &Range,
    i: u32,
) -> Option<u32>
    requires inside { i < length entries.now }
    requires ranges { AreRanges entries.now (length entries.now) ranges.now }
    requires range { IsRangeOf entry.now (Some range.now) }
    ensures { IsOther (IsFirstBefore (MeetsRange entry.now) entries.now i) result }
{
    for j in 0..i {
        if meets(range, &ranges[j as usize]) {
            return Some(j);
        }
    }
    None
}

fn meeting_range(entries: &[Ext], index: &ExtIndex, entry: &Ext, i: u32) -> Option<u32>
    requires index { IsExtIndexOf entries.now index.now }
    requires entry { slice_get entries.now i ≡ Some entry.now }
    ensures { IsOther (IsFirstBefore (MeetsRange entry.now) entries.now i) result }
{
    match index.ranges[i as usize] {
        Some(range) => first_meeting(entries, index.ranges.as_slice(), entry, &range, i),
        None => None,
    }
}

fn has_unknown_ext_bus(entries: &[Base], bases: &BaseIndex, entry: &Ext) -> bool
    requires { IsBaseIndexOf entries.now bases.now }
    ensures { IsTrue result ↔ HasUnknownExtBus entries.now entry.now }
{
    match entry {
        Ext::Space(e) => lacks(&bases.buses, e.bus),
        Ext::Hierarchy(e) => lacks(&bases.buses, e.bus) || lacks(&bases.buses, e.parent),
        Ext::Modifier(e) => lacks(&bases.buses, e.bus),
        Ext::Opaque(_) => false,
    }
}

// whether going to parents from a bus comes to another within some steps
fn reaches(entries: &[Ext], parents: &[Option<u8>; 256], from: u8, to: u8, steps: u32) -> bool
    requires { (bus : ℕ) → bus < 256 → IsParent entries.now bus (slice_index_or parents.now bus None) }
    ensures { IsTrue result ↔ ReachesWithin steps entries.now from to }
{
    let mut bus = from;
    for _ in 0..steps {
        if bus == to {
            return true;
        }
        match parents[bus as usize] {
            Some(parent) => bus = parent,
            None => return false,
        }
    }
    bus == to
}

fn is_in_bus_loop(entries: &[Ext], index: &ExtIndex, entry: &Ext) -> bool
    requires { IsExtIndexOf entries.now index.now }
    ensures { IsTrue result ↔ IsInBusLoop entries.now entry.now }
{
    match entry {
        Ext::Hierarchy(e) => reaches(entries, &index.parents, e.parent, e.bus, 256),
        _ => false,
    }
}

/// The other place that an entry names for a rule, if it breaks it.
pub fn other_of(
    bases: &[Base],
    base_index: &BaseIndex,
    entries: &[Ext],
    index: &ExtIndex,
    rule: ExtRule,
    entry: &Ext,
    i: u32,
) -> Option<u32>
    requires bases { IsBaseIndexOf bases.now base_index.now }
    requires exts { IsExtIndexOf entries.now index.now }
    requires entry { slice_get entries.now i ≡ Some entry.now }
    ensures { IsOther (BreaksExtRule bases.now entries.now rule entry.now i) result }
{
    match rule {
        ExtRule::ReservedExt => alone(!entry.has_clear_bits() || has_reserved_ext_value(entry)),
        ExtRule::RangePastTop => alone(passes_top(entry)),
        ExtRule::MeetingRange => meeting_range(entries, index, entry, i),
        ExtRule::UnknownExtBus => alone(has_unknown_ext_bus(bases, base_index, entry)),
        ExtRule::BusLoop => alone(is_in_bus_loop(entries, index, entry)),
    }
}
