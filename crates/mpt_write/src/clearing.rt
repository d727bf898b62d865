//! The end of a header without its reserved bits (MultiProcessor Specification 1.4, section 4.2). What is
//! reserved is set to zero.

ghost use Rattle.std.specs.Prelude.{◌≡◌, replicate};
ghost use Rattle.mpt_spec.specs.Revision.{by_revision};

use mpt_spec::OLD_REVISION;

/// Byte 43 of a header of this revision without its reserved bits: zero, but at revision 1, which hasn't
/// the byte.
pub(crate) fn cleared_reserved(revision: u8, reserved: u8) -> u8
    ensures { result ≡ by_revision revision reserved 0 }
{
    if revision == OLD_REVISION {
        reserved
    } else {
        0
    }
}

/// What a header of this revision keeps of bytes 40 to 43 without its reserved bits: zero at revision 1,
/// which alone keeps them.
pub(crate) fn cleared_old(revision: u8, old: [u8; 4]) -> [u8; 4]
    ensures { result ≡ by_revision revision (replicate 4 0) old }
{
    if revision == OLD_REVISION {
        [0; 4]
    } else {
        old
    }
}
