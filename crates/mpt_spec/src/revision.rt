//! The revisions of the floating pointer and of the table (MultiProcessor Specification 1.4, sections
//! 4.1 and 4.2).

ghost use Rattle.std.specs.Prelude.{◌↔◌, IsTrue};
ghost use Rattle.mpt_spec.specs.Revision.{IsKnownRevision};

/// The revision byte of specification 1.1. How tables of this revision are read is this project's own
/// profile.
pub const OLD_REVISION: u8 = 1;

/// The revision byte of specification 1.4.
pub const REVISION: u8 = 4;

/// Whether a revision byte is one of the two.
pub fn is_known_revision(revision: u8) -> bool
    ensures { IsTrue result ↔ IsKnownRevision revision }
{
    revision == OLD_REVISION || revision == REVISION
}
