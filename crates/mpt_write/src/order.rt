//! Base entries in the order of their types, by std's stable sort (MultiProcessor Specification 1.4,
//! section 4.3). The order is this project's own idea of canonical.

ghost use Rattle.std.specs.Prelude.{◌≡◌, ◌↔◌, IsTrue, OnOk};
ghost use Rattle.mpt_spec.specs.Canonical.{base_type, in_type_order, IsInTypeOrder};

use mpt_base::NoMemory;
use mpt_spec::Base;

// the type byte
fn type_of(entry: &Base) -> u8
    ensures { result ≡ base_type entry.now }
{
    match entry {
        Base::Processor(_) => 0,
        Base::Bus(_) => 1,
        Base::IoApic(_) => 2,
        Base::IoInt(_) => 3,
        Base::LocalInt(_) => 4,
    }
}

/// Puts the entries in the order of their types; those of one type keep theirs.
pub(crate) fn order(entries: &mut Vec<Base>) -> Result<(), NoMemory>
    ensures { OnOk result (entries.new.items ≡ in_type_order entries.old.items) }
{
    match entries.sort_by_key(|entry| type_of(entry)) {
        Ok(()) => Ok(()),
        Err(_) => Err(NoMemory),
    }
}

/// Whether no entry has a type below that of the entry before it.
pub(crate) fn is_in_order(entries: &[Base]) -> bool
    ensures { IsTrue result ↔ IsInTypeOrder entries.now }
{
    entries.is_sorted_by_key(|entry| type_of(entry))
}
