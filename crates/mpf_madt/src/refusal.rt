//! Why bytes aren't a MADT: the six reasons, and a reason with its place.

ghost use Rattle.std.specs.Prelude.{◌≡◌};
ghost use Rattle.mpf_madt.specs.declared.refusal.MadtRefusal.TheVariants as refusal;

use std::alloc::{AllocError, AllocFailed};

/// A reason for which a MADT is refused. Its discriminant is the number that is printed.
///
/// The reasons are this project's own; the fields that they speak of are those of the ACPI
/// Specification, sections 5.2.6 and 5.2.12.
#[derive(Clone, Copy, Debug, PartialEq, Eq)]
pub enum MadtReason {
    /// There are fewer than the 44 bytes before the entries.
    Short = 21,
    /// The table doesn't begin with `APIC`.
    BadSignature = 22,
    /// The length isn't the number of bytes.
    BadLength = 23,
    /// The bytes don't sum to zero.
    BadSum = 24,
    /// One byte of an entry is left, or an entry of a right length passes the end.
    CutEntry = 25,
    /// The length byte of an entry is below 2 or isn't that of its type.
    BadEntryLength = 26,
}

/// Why bytes aren't read as a MADT.
#[derive(Clone, Copy, Debug, PartialEq, Eq)]
pub enum MadtRefusal {
    /// They are none.
    Fault {
        /// The offset of the fault, in bytes.
        at: u64,
        /// The reason.
        why: MadtReason,
    },
    /// Memory ran out.
    NoMemory,
}

/// A fault of the bytes: why they are no MADT, and where.
#[derive(Clone, Copy)]
pub(crate) struct MadtFault {
    /// The offset in bytes.
    pub at: u64,
    /// The reason.
    pub why: MadtReason,
}

/// A fault at an offset.
pub(crate) fn fault_at(at: usize, why: MadtReason) -> MadtFault
    ensures place { result.at ≡ at }
    ensures reason { result.why ≡ why }
{
    MadtFault { at: at as u64, why }
}

impl From<MadtFault> for MadtRefusal {
    ghost from_gives = { λ fault e. e ≡ refusal.Fault fault.at fault.why };

    fn from(fault: MadtFault) -> MadtRefusal {
        MadtRefusal::Fault {
            at: fault.at,
            why: fault.why,
        }
    }
}

impl From<AllocError> for MadtRefusal {
    ghost from_gives = { λ _ e. e ≡ refusal.NoMemory };

    fn from(_: AllocError) -> MadtRefusal {
        MadtRefusal::NoMemory
    }
}

impl<T: Drop> From<AllocFailed<T>> for MadtRefusal {
    ghost from_gives = { λ _ e. e ≡ refusal.NoMemory };

    fn from(_failed: AllocFailed<T>) -> MadtRefusal {
        MadtRefusal::NoMemory
    }
}
