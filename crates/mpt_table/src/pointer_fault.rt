//! The faults of the floating pointer, from left to right (MultiProcessor Specification 1.4, section
//! 4.1, figure 4-2).

ghost use Rattle.std.specs.Prelude.{◌≡◌, ◌≢◌, ◌+◌, ◌≤◌, ◌<◌, IfSome, IfNone, MatchBool};
ghost use Rattle.mpt_spec.specs.Table.{default_number};
ghost use Rattle.mpt_table.specs.Header.{HasRightPointer, IsPointerFault};
ghost use Rattle.mpt_spec.specs.Faults.{IsLeastFault};

use crate::header::{HEADER_LENGTH, fault_at};
use mpt_base::{Fault, Reason};
use mpt_spec::{Pointer, is_known_revision};

/// The highest number of a default configuration.
const LAST_DEFAULT: u8 = 7;

// whether the floating pointer names a default configuration or has the address of a table
fn has_body(pointer: &Pointer) -> bool
    ensures { MatchBool result (default_number pointer.now ≡ 0 → pointer.now.address ≢ 0)
        ((default_number pointer.now ≡ 0) × (pointer.now.address ≡ 0)) }
{
    pointer.features[0] != 0 || pointer.address != 0
}

// whether the header of the table lies in an image of this size, where there is a table
fn has_header_inside(size: u64, pointer: &Pointer) -> bool
    ensures { MatchBool result (default_number pointer.now ≡ 0 → pointer.now.address + 44 ≤ size)
        ((default_number pointer.now ≡ 0) × (size < pointer.now.address + 44)) }
{
    pointer.features[0] != 0 || u64::from(pointer.address) + HEADER_LENGTH as u64 <= size
}

/// The first fault of the floating pointer that stands at `at`.
pub(crate) fn pointer_fault(size: u64, at: usize, pointer: &Pointer) -> Option<Fault>
    requires inside { at + 16 ≤ size }
    ensures some { IfSome result (λ f. IsLeastFault (IsPointerFault pointer.now size at) f.at f.why) }
    ensures none { IfNone result (HasRightPointer pointer.now size) }
{
    if !has_body(pointer) {
        return Some(fault_at(at + 4, Reason::NoTable));
    }
    if !has_header_inside(size, pointer) {
        return Some(fault_at(at + 4, Reason::TableOutside));
    }
    if !is_known_revision(pointer.revision) {
        return Some(fault_at(at + 9, Reason::BadRevision));
    }
    if pointer.features[0] > LAST_DEFAULT {
        return Some(fault_at(at + 11, Reason::BadDefault));
    }
    None
}
