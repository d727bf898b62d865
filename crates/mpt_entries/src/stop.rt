//! Why entries aren't read.

ghost use Rattle.std.specs.Prelude.{◌≡◌};
ghost use Rattle.mpt_entries.specs.declared.stop.Stop.TheVariants as stop;

use mpt_base::{Fault, Reason};
use std::alloc::{AllocError, AllocFailed};

/// Why entries aren't read.
#[derive(Clone, Copy, Debug, PartialEq, Eq)]
pub enum Stop {
    /// The bytes aren't entries that stand end to end.
    Fault(Fault),
    /// Memory ran out.
    NoMemory,
}

impl From<Fault> for Stop {
    ghost from_gives = { λ fault e. e ≡ stop.Fault fault };

    fn from(fault: Fault) -> Stop {
        Stop::Fault(fault)
    }
}

impl From<AllocError> for Stop {
    ghost from_gives = { λ _ e. e ≡ stop.NoMemory };

    fn from(_: AllocError) -> Stop {
        Stop::NoMemory
    }
}

impl<T: Drop> From<AllocFailed<T>> for Stop {
    ghost from_gives = { λ _ e. e ≡ stop.NoMemory };

    fn from(_failed: AllocFailed<T>) -> Stop {
        Stop::NoMemory
    }
}

// the fault at an offset in the bytes
pub(crate) fn fault_at(at: usize, why: Reason) -> Fault
    ensures place { result.at ≡ at }
    ensures reason { result.why ≡ why }
{
    Fault { at: at as u64, why }
}
