//! All rules, by where they are asked: of the whole table, of a base entry, of an extended entry.

ghost use Rattle.std.specs.Prelude.{Option};
ghost use Rattle.mpt_rules.specs.Places.{IsOther};
ghost use Rattle.mpt_rules.specs.Rules.{BreaksRule, IsPlaceOf};
ghost use Rattle.mpt_rules.specs.Index.{IsBaseIndexOf, IsExtIndexOf};

use crate::base_index::BaseIndex;
use crate::ext_index::ExtIndex;
use crate::places::alone;
use crate::rule::Rule;
use crate::{base_rules, ext_rules, table_rules};
use mpt_spec::{Pointer, Table};

/// The other place that a finding of a rule at place `i` names, 65,535 where it names none; `None` where
/// the table doesn't break the rule there. The indexes are those of the table.
pub fn other_of(
    pointer: &Pointer,
    table: &Table,
    bases: &BaseIndex,
    exts: &ExtIndex,
    rule: Rule,
    i: u32,
) -> Option<u32>
    requires bases { IsBaseIndexOf table.now.base bases.now }
    requires exts { IsExtIndexOf table.now.ext exts.now }
    requires place { IsPlaceOf table.now rule i }
    ensures { IsOther (BreaksRule pointer.now table.now rule i) result }
{
    match rule {
        Rule::Table(rule) => alone(table_rules::breaks(pointer, table, rule)),
        Rule::Base(rule) => {
            let entries = table.base.as_slice();
            base_rules::other_of(entries, bases, rule, &entries[i as usize], i)
        }
        Rule::Ext(rule) => {
            let entries = table.ext.as_slice();
            ext_rules::other_of(
                table.base.as_slice(),
                bases,
                entries,
                exts,
                rule,
                &entries[i as usize],
                i,
            )
        }
    }
}
