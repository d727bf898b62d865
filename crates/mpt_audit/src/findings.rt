//! All findings, in order: rule by rule, and entry by entry.

ghost use Rattle.std.specs.Prelude.{◌≡◌, ◌≤◌, ◌<◌, ◌+◌, ℕ, length, IfOk, OnOk, Some, slice_get};
ghost use Rattle.mpt_spec.specs.Canonical.{IsWellFormed, IsWellFormedBody};
ghost use Rattle.mpt_rules.specs.Rules.{IsPlaceOf};
ghost use Rattle.mpt_audit.specs.Findings.{rules, AreFindingsOf, ListsInOrder, IsTableFinding, IsFindingOf, IsDefaultFinding};
ghost use Rattle.mpt_rules.specs.Index.{IsBaseIndexOf, IsExtIndexOf};
ghost use Rattle.mpt_audit.specs.Progress.{AreFindingsBefore};

use mpt_base::NoMemory;
use mpt_rules::{
    BaseIndex, BaseRule, ExtIndex, ExtRule, Finding, Rule, TableRule, base_index_of, ext_index_of,
    other_of,
};
use mpt_spec::{Body, Pointer, Table, Tables};
use std::alloc::{AllocError, Global};

// the rule of a number, less one
fn rule_at(n: u8) -> Rule
    requires { n < 24 }
    ensures { slice_get rules n ≡ Some result }
{
    match n {
        0 => Rule::Table(TableRule::NoBootProcessor),
        1 => Rule::Base(BaseRule::SecondBootFlag),
        2 => Rule::Base(BaseRule::DisabledBoot),
        3 => Rule::Base(BaseRule::DuplicateProcessorId),
        4 => Rule::Base(BaseRule::DuplicateIoApicId),
        5 => Rule::Base(BaseRule::SharedId),
        6 => Rule::Base(BaseRule::BusOutOfOrder),
        7 => Rule::Table(TableRule::NoIoApic),
        8 => Rule::Base(BaseRule::UnknownBusName),
        9 => Rule::Base(BaseRule::TypeBelow),
        10 => Rule::Base(BaseRule::UnknownBus),
        11 => Rule::Base(BaseRule::UnknownDestination),
        12 => Rule::Base(BaseRule::PinOutOfRange),
        13 => Rule::Base(BaseRule::ReservedBits),
        14 => Rule::Table(TableRule::ReservedHeaderBits),
        15 => Rule::Base(BaseRule::ReservedValue),
        16 => Rule::Ext(ExtRule::ReservedExt),
        17 => Rule::Base(BaseRule::DuplicateSource),
        18 => Rule::Base(BaseRule::OtherSense),
        19 => Rule::Table(TableRule::TwoRevisions),
        20 => Rule::Ext(ExtRule::RangePastTop),
        21 => Rule::Ext(ExtRule::MeetingRange),
        22 => Rule::Ext(ExtRule::UnknownExtBus),
        _ => Rule::Ext(ExtRule::BusLoop),
    }
}

// the places at which a rule can be broken: from the first to before the second
fn places_of(table: &Table, rule: Rule) -> (u32, u32)
    requires base { length table.now.base ≤ 65535 }
    requires ext { length table.now.ext ≤ 65535 }
    ensures within { (i : ℕ) → result.0 ≤ i → i < result.1 → IsPlaceOf table.now rule i }
    ensures all { (i : ℕ) → IsPlaceOf table.now rule i → (result.0 ≤ i) × (i < result.1) }
{
    match rule {
        Rule::Table(_) => (65535, 65536),
        Rule::Base(_) => (0, table.base.as_slice().len() as u32),
        Rule::Ext(_) => (0, table.ext.as_slice().len() as u32),
    }
}

fn audit_rule(
    out: &mut Vec<Finding>,
    pointer: &Pointer,
    table: &Table,
    bases: &BaseIndex,
    exts: &ExtIndex,
    n: u8,
) -> Result<(), AllocError>
    requires bases { IsBaseIndexOf table.now.base bases.now }
    requires exts { IsExtIndexOf table.now.ext exts.now }
    requires number { n < 24 }
    requires before { AreFindingsBefore pointer.now table.now n 0 out.old.items }
    ensures { OnOk result (AreFindingsBefore pointer.now table.now (n + 1) 0 out.new.items) }
{
    let rule = rule_at(n);
    let (from, to) = places_of(table, rule);
    for i in from..to {
        if let Some(other) = other_of(pointer, table, bases, exts, rule, i) {
            let found = Finding {
                rule: n + 1,
                entry: i,
                other,
            };
            out.push(found)?;
        }
    }
    Ok(())
}

// the findings of a table, by its indexes
fn audit_by(
    alloc: Global,
    pointer: &Pointer,
    table: &Table,
    bases: &BaseIndex,
    exts: &ExtIndex,
) -> Result<Vec<Finding>, AllocError>
    requires bases { IsBaseIndexOf table.now.base bases.now }
    requires exts { IsExtIndexOf table.now.ext exts.now }
    ensures { IfOk result (λ found. ListsInOrder (IsTableFinding pointer.now table.now) found.items) }
{
    let mut out = Vec::new(alloc);
    for n in 0..24u8 {
        let Ok(()) = audit_rule(&mut out, pointer, table, bases, exts, n) else {
            return Err(AllocError);
        };
    }
    Ok(out)
}

fn audit_table(alloc: Global, pointer: &Pointer, table: &Table) -> Result<Vec<Finding>, AllocError>
    requires base { length table.now.base ≤ 65535 }
    requires ext { length table.now.ext ≤ 65535 }
    ensures { IfOk result (λ found. ListsInOrder (IsTableFinding pointer.now table.now) found.items) }
{
    let Ok(bases) = base_index_of(alloc, table.base.as_slice()) else {
        return Err(AllocError);
    };
    let Ok(exts) = ext_index_of(alloc, table.ext.as_slice()) else {
        return Err(AllocError);
    };
    audit_by(alloc, pointer, table, &bases, &exts)
}

fn audit_pointer(alloc: Global, pointer: &Pointer) -> Result<Vec<Finding>, AllocError>
    ensures { IfOk result (λ found. ListsInOrder (IsDefaultFinding pointer.now) found.items) }
{
    let mut out = Vec::new(alloc);
    if !pointer.has_clear_bits() {
        let found = Finding {
            rule: 15,
            entry: 65535,
            other: 65535,
        };
        let Ok(()) = out.push(found) else {
            return Err(AllocError);
        };
    }
    Ok(out)
}

/// The findings of the tables: each once, by rule, then entry, then other.
///
/// It takes memory for the findings and for tables of first places alone, and fails only where that
/// runs out. Time grows with the number of entries, but for address ranges: each is held against the
/// earlier ones.
pub fn audit(alloc: Global, tables: &Tables) -> Result<Vec<Finding>, NoMemory>
    requires { IsWellFormed tables.now }
    ensures { IfOk result (λ found. AreFindingsOf tables.now found.items) }
{
    match audit_body(alloc, &tables.pointer, &tables.body) {
        Ok(found) => Ok(found),
        Err(_) => Err(NoMemory),
    }
}

// the findings of a body and its floating pointer
fn audit_body(alloc: Global, pointer: &Pointer, body: &Body) -> Result<Vec<Finding>, AllocError>
    requires { IsWellFormedBody body.now pointer.now }
    ensures { IfOk result (λ found. ListsInOrder (IsFindingOf pointer.now body.now) found.items) }
{
    match body {
        Body::Default(_) => audit_pointer(alloc, pointer),
        Body::Listed(table) => audit_table(alloc, pointer, table),
    }
}
